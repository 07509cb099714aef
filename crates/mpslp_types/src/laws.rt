//! Laws of names and limits. Each law is the contract of a function that does nothing: call the function to use the law.
//!
//! The law of every name reads a field of it, which makes its invariant available to the proof.

ghost use Rattle.mpslp_types.specs.Name.{IsMpsName};
ghost use Rattle.mpslp_types.specs.Laws.{LpNamesAreMpsNames, LimitsAreOrdered};

use crate::names::Name;

/// Every name that is legal in LP is legal in MPS too.
pub fn lp_names_are_mps_names()
    ensures { LpNamesAreMpsNames }
{}

/// The bytes of every name are a legal MPS name: 1 to 255 bytes of printable ASCII without spaces, other than `'MARKER'`.
pub fn each_name_is_legal(name: &Name)
    ensures { IsMpsName name.now }
{
    let _len = name.bytes.len();
}

/// The order of limits agrees with [`is_at_most`](crate::Limit::is_at_most): the first of two limits is at most the second
/// if and only if it does not come after it.
pub fn limits_are_ordered()
    ensures { LimitsAreOrdered }
{}
