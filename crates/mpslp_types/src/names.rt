//! Names of rows, columns and the objective.

mod byte_sets;
mod hashing;
mod keys;
mod lp;

ghost use Rattle.std.specs.Prelude.{◌≡◌, ◌≤◌, [], ◌∷◌, Some, IfSome, IfNone, IfOk, IsOk, MatchResult, length, refl};
ghost use Rattle.std.proofs.Common.{rules};
ghost use Rattle.std.specs.List.{list_all};
ghost use Rattle.std.specs.Result.{result_err};
ghost use Rattle.std.specs.Cmp.{partial_equiv_from_equiv};
ghost use Rattle.std.specs.Cmp.Lexicographic.{nat_list_cmp_total, nat_list_eq_equiv, texts_po, texts_ties};
ghost use Rattle.std.specs.Cmp.Rules.{hashing};
ghost use Rattle.mpslp_types.specs.Name.{IsMpsName, is_visible, same_bytes, marker, bytes_cmp};
ghost use Rattle.mpslp_types.specs.NameTests.{name_refusal};

pub use byte_sets::{ByteSet, has_all};
pub use hashing::{FIXED_SEED, HashSeed, NameHasher};
pub use keys::NameBytes;
pub use lp::{is_lp_byte, may_be_reserved};
use smallvec::SmallVec;
use std::alloc::{AllocError, Global};
use std::cmp::Ordering;
use std::hash::{Hash, Hasher};
use std::marker::Model;
use thiserror::Error;

/// The maximum length of a name in bytes.
pub const MAX_NAME_LEN: usize = 255;

/// Why bytes are not a legal name. If several apply, the first in this list is returned.
#[derive(Clone, Copy, Debug, PartialEq, Eq, Error)]
pub enum NameFault {
    /// No bytes, or more than [`MAX_NAME_LEN`].
    #[error("a name has 1 to 255 bytes")]
    NameLength,
    /// A byte that is a space, a control character or not ASCII.
    #[error("a name has a byte that is no visible ASCII character")]
    NameByte,
    /// The text is `'MARKER'`, which is not a name in MPS.
    #[error("'MARKER' is no name")]
    NameMarker,
    /// Out of memory.
    #[error("out of memory")]
    OutOfMemory,
}

/// The longest name that is stored in the value itself, without an allocation, in bytes.
const SHORT: usize = 16;

/// The name of a row, a column or the objective: 1 to [`MAX_NAME_LEN`] bytes of printable ASCII without spaces, other than
/// `'MARKER'`. Contracts see its bytes.
#[derive(Debug, Drop)]
pub struct Name {
    pub(crate) bytes: SmallVec<u8, SHORT>,
}

const _: () = prove!(size_of::<Name>() == 32);

impl Model for Name {
    ghost use Rattle.std.specs.Prelude.{ℕ, List};
    ghost use Rattle.mpslp_types.specs.Name.{IsMpsName};

    ghost Value = { List ℕ };

    ghost view = { λ n. n.bytes.items };

    ghost invariant = { λ n. IsMpsName n.bytes.items };
}

/// Names are equal if their bytes are.
impl PartialEq for Name {
    ghost eq = { same_bytes };

    ghost laws = { partial_equiv_from_equiv nat_list_eq_equiv };

    fn eq(&self, other: &Name) -> bool {
        self.as_bytes() == other.as_bytes()
    }
}

impl Eq for Name {
    ghost laws = { nat_list_eq_equiv };
}

/// Byte order: the first bytes that differ decide; a proper prefix comes first.
impl PartialOrd for Name {
    ghost partial_cmp = { λ a b. Some (bytes_cmp a b) };

    ghost laws = { texts_po };

    fn partial_cmp(&self, other: &Name) -> Option<Ordering> {
        Some(self.cmp(other))
    }
}

impl Ord for Name {
    ghost cmp = { bytes_cmp };

    ghost total = { nat_list_cmp_total };

    ghost matches_partial_cmp = { λ a b. refl };

    ghost matches_eq = { texts_ties };

    fn cmp(&self, other: &Name) -> Ordering {
        self.as_bytes().cmp(other.as_bytes())
    }
}

/// Writes the bytes at once: the hash of a slice would write each byte separately.
impl Hash for Name {
    ghost hash_input = { λ name. name ∷ [] };

    ghost respects_eq = { Prim.search (hashing, rules) };

    fn hash<H: Hasher>(&self, state: &mut H) {
        state.write(self.as_bytes());
    }
}

/// Printable ASCII other than space.
const VISIBLE: ByteSet = ByteSet {
    low: [6, 7, 7, 7, 7, 7, 7, 7, 7, 7, 7, 7, 7, 7, 7, 3],
    high: [0, 0, 1, 2, 2, 2, 2, 4, 0, 0, 0, 0, 0, 0, 0, 0],
};

/// Whether all bytes are printable ASCII other than space.
fn has_visible_bytes(bytes: &[u8]) -> bool
    ensures { result ≡ list_all is_visible bytes.now }
{
    if has_all(&VISIBLE, bytes) {
        return true;
    }
    bytes.iter().all(|byte| 33 <= *byte && *byte <= 126)
}

/// Whether the text is `'MARKER'`, which is not a name.
fn is_marker(bytes: &[u8]) -> bool
    ensures { result ≡ same_bytes bytes.now marker }
{
    match bytes {
        [] => false,
        [first, ..] => *first == b'\'' && bytes == b"'MARKER'".as_slice(),
    }
}

impl Name {
    /// Returns the first error of bytes that are not a legal name. Allocates nothing and never returns
    /// [`OutOfMemory`](NameFault::OutOfMemory).
    ///
    /// # Errors
    ///
    /// `NameLength`, `NameByte` and `NameMarker`, in this order.
    pub fn check(bytes: &[u8]) -> Result<(), NameFault>
        ensures { result_err result ≡ name_refusal bytes.now }
    {
        if bytes.is_empty() || bytes.len() > MAX_NAME_LEN {
            return Err(NameFault::NameLength);
        }
        if !has_visible_bytes(bytes) {
            return Err(NameFault::NameByte);
        }
        if is_marker(bytes) {
            return Err(NameFault::NameMarker);
        }
        Ok(())
    }

    /// Makes a name of these bytes, or returns their first error.
    ///
    /// # Errors
    ///
    /// Those of [`check`](Self::check); `OutOfMemory` only if there is none of them and the name has more than 16 bytes.
    pub fn new(alloc: Global, bytes: &[u8]) -> Result<Name, NameFault>
        ensures refused { IfSome (name_refusal bytes.now) (λ fault. result ≡ Err fault) }
        ensures taken { IfNone (name_refusal bytes.now) (MatchResult result (λ name. name ≡ bytes.now) (λ fault. fault ≡ NameFault.OutOfMemory)) }
        ensures short { length bytes.now ≤ 16 → IfNone (name_refusal bytes.now) (IsOk result) }
    {
        Name::check(bytes)?;
        match Name::from_legal(alloc, bytes) {
            Ok(name) => Ok(name),
            Err(_) => Err(NameFault::OutOfMemory),
        }
    }

    /// Makes a name of bytes that are known to be legal. They are copied and not checked again.
    ///
    /// # Errors
    ///
    /// [`AllocError`] if the allocation of a name of more than 16 bytes fails.
    pub fn from_legal(alloc: Global, bytes: &[u8]) -> Result<Name, AllocError>
        requires { IsMpsName bytes.now }
        ensures copied { IfOk result (λ name. name ≡ bytes.now) }
        ensures short { length bytes.now ≤ 16 → IsOk result }
    {
        let bytes = SmallVec::from_slice(alloc, bytes)?;
        Ok(Name { bytes })
    }

    /// The bytes of the name.
    pub fn as_bytes(&self) -> &[u8]
        ensures { result.now ≡ self.now }
    {
        self.bytes.as_slice()
    }
}
