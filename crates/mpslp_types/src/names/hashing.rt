//! The hashes of names. They depend on a secret, so that nobody who does not know it can choose names whose hashes are equal.

ghost use Rattle.std.specs.Prelude.{◌≡◌, ◌+◌, ◌/◌, ◌%◌, ◌^◌, ◌≤◌, length};
ghost use Rattle.mpslp_types.specs.NameHash as keyed;

use std::hash::{BuildHasher, Hasher};

/// 128 secret bits on which the hashes of names depend. No result depends on them, only time: whoever knows them can choose names
/// that make each look-up as slow as a search through all names. Random bits are therefore right for files of strangers, and any
/// bits for files of your own.
#[derive(Clone, Copy)]
pub struct HashSeed {
    /// The state of a hasher before the first byte.
    pub state: u64,
    /// What the second factor of each multiplication is combined with.
    pub factor: u64,
}

/// A seed that everybody knows: for files of your own, and where there are no random bits.
pub const FIXED_SEED: HashSeed = HashSeed {
    state: 0x243f_6a88_85a3_08d3,
    factor: 0x9e37_79b9_7f4a_7c15,
};

/// How many values 64 bits have.
const VALUES: u128 = 18_446_744_073_709_551_616;

impl HashSeed {
    /// A seed of these bits.
    pub fn new(bits: u128) -> HashSeed
        ensures state { result.state ≡ bits % 2 ^ 64 }
        ensures factor { result.factor ≡ bits / 2 ^ 64 }
    {
        HashSeed {
            state: (bits % VALUES) as u64,
            factor: (bits / VALUES) as u64,
        }
    }
}

impl BuildHasher for HashSeed {
    type Hasher = NameHasher;

    ghost build_hasher = { keyed.initial_hasher };

    fn build_hasher(&self) -> NameHasher {
        NameHasher {
            state: self.state,
            factor: self.factor,
        }
    }
}

/// Multiplies 16 bytes at a time to 128 bits, and joins the halves by exclusive or, as the library's `FoldHasher` does. Both factors
/// are combined with secret bits first, so that neither can be chosen.
#[derive(Clone, Copy)]
pub struct NameHasher {
    state: u64,
    factor: u64,
}

/// The halves of the product, joined by exclusive or.
fn folded_multiply(a: u64, b: u64) -> u64
    ensures { result ≡ keyed.folded_multiply a b }
{
    let product = a as u128 * b as u128;
    (product & 0xFFFF_FFFF_FFFF_FFFF) as u64 ^ (product >> 64) as u64
}

/// Four bytes as a number.
fn read_u32(bytes: &[u8], at: usize) -> u64
    requires { at + 4 ≤ length bytes.now }
    ensures { result ≡ keyed.read_u32 bytes.now at }
{
    u32::from_le_bytes([bytes[at], bytes[at + 1], bytes[at + 2], bytes[at + 3]]) as u64
}

/// Eight bytes as a number.
fn read_u64(bytes: &[u8], at: usize) -> u64
    requires { at + 8 ≤ length bytes.now }
    ensures { result ≡ keyed.read_u64 bytes.now at }
{
    read_u32(bytes, at) | read_u32(bytes, at + 4) << 32
}

/// Up to eight bytes as a number, which together with their count determines them.
fn read_short(bytes: &[u8]) -> u64
    ensures { result ≡ keyed.read_short bytes.now }
{
    let len = bytes.len();
    if len >= 4 {
        read_u32(bytes, 0) | read_u32(bytes, len - 4) << 32
    } else if len > 0 {
        bytes[0] as u64 | (bytes[len / 2] as u64) << 8 | (bytes[len - 1] as u64) << 16
    } else {
        0
    }
}

impl Hasher for NameHasher {
    ghost write = { keyed.write };

    ghost finish = { keyed.finish };

    fn finish(&self) -> u64 {
        self.state
    }

    fn write(&mut self, bytes: &[u8]) {
        let len = bytes.len();
        if len <= 8 {
            self.state = folded_multiply(
                self.state ^ read_short(bytes),
                self.factor ^ (2 * len as u64),
            );
            return;
        }
        let factor = self.factor;
        let mut state = self.state.wrapping_add(len as u64);
        let mut at = 0;
        while len - at > 16 {
            state = folded_multiply(
                read_u64(bytes, at) ^ state,
                read_u64(bytes, at + 8) ^ factor,
            );
            at += 16;
        }
        self.state = folded_multiply(
            read_u64(bytes, len.saturating_sub(16)) ^ state,
            read_u64(bytes, len - 8) ^ factor,
        );
    }
}
