//! Which number a name probably has.
//!
//! A look-up by a map reads a place of its table and then the name at the index that is there, so the second read waits for the first
//! one. A table of hints gives the numbers of many names first, and the names are compared in a loop of their own. A hint is never
//! more than a guess: whoever takes it compares the name. So nothing has to be known of the table.

use mpslp_builder_parts::Inserted;
use mpslp_types::HashSeed;
use std::alloc::{AllocError, Global};
use std::hash::{BuildHasher, Hasher};

/// The bits of a `u32`.
const LOW: u64 = 0xFFFF_FFFF;

/// The number of pairs of the first table.
const FIRST: usize = 16;

/// Hints of the numbers of names. Only the lower 32 bits of a hash are used. Names for which these begin with the same bits share a
/// pair of hints. Their other bits are stored in the hint, above the number, so that the hint of another name is recognized without a
/// look at its name.
#[derive(Debug, Drop)]
pub(crate) struct Hints {
    alloc: Global,
    /// As many as a power of two that is more than each number, or none.
    pairs: Vec<(u32, u32)>,
}

/// The hash of a name.
pub(crate) fn hash_of(seed: HashSeed, name: &[u8]) -> u64 {
    let mut hasher = seed.build_hasher();
    hasher.write(name);
    hasher.finish()
}

/// A pair with one more hint, which replaces the second one if there are two.
fn with_hint(pair: (u32, u32), hint: u32) -> (u32, u32) {
    if pair.0 == 0 {
        (hint, pair.1)
    } else {
        (pair.0, hint)
    }
}

/// A hint with one bit less of the hash. That bit decides to which of two pairs it goes.
fn put_half(halves: ((u32, u32), (u32, u32)), hint: u32, numbers: u32) -> ((u32, u32), (u32, u32)) {
    let hash = hint & !numbers;
    let moved = hash.wrapping_add(hash) | (hint & numbers);
    if hint >> 31 == 0 {
        (with_hint(halves.0, moved), halves.1)
    } else {
        (halves.0, with_hint(halves.1, moved))
    }
}

/// The two pairs into which a pair is divided when the table doubles. `numbers` has the bits that a number may have.
fn halves_of(pair: (u32, u32), numbers: u32) -> ((u32, u32), (u32, u32)) {
    let first = put_half(((0, 0), (0, 0)), pair.0, numbers);
    put_half(first, pair.1, numbers)
}

impl Hints {
    /// No hints. Allocates nothing.
    pub(crate) fn new(alloc: Global) -> Hints {
        Hints {
            alloc,
            pairs: Vec::new(alloc),
        }
    }

    /// The index of the pair of a name, and what is stored of its hash. The first of the lower 32 bits of the hash are the index.
    fn split(&self, hash: u64) -> (usize, u32) {
        let product = (hash & LOW).wrapping_mul(self.pairs.len() as u64);
        ((product >> 32) as usize, (product & LOW) as u32)
    }

    /// The number that the name probably has. Any number is correct.
    #[inline(always)]
    pub(crate) fn guess(&self, seed: HashSeed, name: &[u8]) -> usize {
        let (index, rest) = self.split(hash_of(seed, name));
        match self.pairs.get(index) {
            Some(pair) => (pair.0 ^ rest).min(pair.1 ^ rest) as usize,
            None => 0,
        }
    }

    /// Makes room for one more hint.
    #[inline(never)]
    fn grow(&mut self) -> Result<(), AllocError> {
        let len = self.pairs.len();
        if len == 0 {
            self.pairs.resize(FIRST, (0, 0))?;
            return Ok(());
        }
        let mut grown = Vec::with_capacity(self.alloc, len.saturating_add(len))?;
        let numbers = ((len - 1) as u64 & LOW) as u32;
        for pair in self.pairs.iter() {
            let (first, second) = halves_of(*pair, numbers);
            grown.push(first)?;
            grown.push(second)?;
        }
        self.pairs = grown;
        Ok(())
    }

    /// Stores the number of the name of a new column, by the hash of the name. That saves something if names are looked up in another order than that of their
    /// declarations. The hint of a column that is there was replaced by that of another one, and would replace it in turn.
    ///
    /// # Errors
    ///
    /// [`AllocError`] if the allocation fails.
    pub(crate) fn note(&mut self, hash: u64, column: Inserted) -> Result<(), AllocError> {
        let Inserted::New(number) = column else {
            return Ok(());
        };
        if number >= self.pairs.len() {
            self.grow()?;
        }
        let (index, rest) = self.split(hash);
        if let Some(pair) = self.pairs.get_mut(index) {
            *pair = with_hint(*pair, rest | (number as u64 & LOW) as u32);
        }
        Ok(())
    }
}

/// Drops hints.
pub(crate) fn drop_hints(_hints: Hints) {}
