//! Names as keys of maps, which their bytes find.

ghost use Rattle.std.specs.Prelude.{ℕ, List, [], ◌∷◌};
ghost use Rattle.std.proofs.Common.{ap, rules};
ghost use Rattle.std.specs.Cmp.Lexicographic.{bytes_decides, nat_list_cmp_total, nat_list_eq_equiv};
ghost use Rattle.std.specs.Cmp.Rules.{hashing};
ghost use Rattle.mpslp_types.specs.Name.{bytes_cmp, same_bytes};

use crate::names::Name;
use crate::sorted_map::{Key, Query};
use indexmap::Equivalent;
use std::cmp::Ordering;
use std::hash::{Hash, Hasher};

impl Key for Name {
    ghost cmp = { bytes_cmp };

    ghost total = { nat_list_cmp_total };

    fn compare_keys(&self, other: &Name) -> Ordering {
        self.as_bytes().cmp(other.as_bytes())
    }
}

impl<'a> Query<Name> for &'a [u8] {
    ghost key = { λ bytes. bytes.now };

    fn compare(&self, other: &Name) -> Ordering {
        (*self).cmp(other.as_bytes())
    }
}

/// The bytes of a name, by which a hash map of names is searched.
#[derive(Clone, Copy, PartialEq, Eq)]
pub struct NameBytes<'a> {
    /// The bytes.
    pub bytes: &'a [u8],
}

/// Hashed as the name of these bytes is.
impl<'a> Hash for NameBytes<'a> {
    ghost hash_input = { λ query. query.bytes.now ∷ [] };

    ghost respects_eq = { Prim.search (hashing, rules) };

    fn hash<H: Hasher>(&self, state: &mut H) {
        state.write(self.bytes);
    }
}

impl<'a> Equivalent<Name> for NameBytes<'a> {
    ghost equivalent = { λ query name. same_bytes query.bytes.now name };

    ghost respects_hash = { λ query name same. ap (λ (bytes : List ℕ). bytes ∷ []) ((bytes_decides query.bytes.now name).0 same) };

    ghost respects_eq = { λ query name other. nat_list_eq_equiv.congr query.bytes.now name other };

    fn equivalent(&self, name: &Name) -> bool {
        self.bytes == name.as_bytes()
    }
}
