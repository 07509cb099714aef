//! The order of decimals, by value.

ghost use Rattle.std.specs.Prelude.{◌≡◌, ℤ, pos, ◌+◌, ◌*◌, ◌*ℤ◌, ◌^◌, ◌<◌, ◌≤◌, unsigned_abs, MatchOption};
ghost use Rattle.std.specs.Ordering.{int_cmp, on, then_cmp, as_partial_cmp};
ghost use Rattle.std.specs.Cmp.{partial_order_from_own_ties};
ghost use Rattle.std.specs.Cmp.Rules.{comparing};
ghost use Rattle.std.proofs.Common.{rules};
ghost use Rattle.mpslp_decimal.specs.Decimal.{IsDecimal, decimal_cmp, have_same_value, scaled};
ghost use Rattle.mpslp_decimal.specs.Values.{order_of};

use crate::number::{Decimal, MAX_DIGITS};
use std::cmp::Ordering;

/// Decimals are ordered by their values.
impl Ord for Decimal {
    ghost cmp = { order_of };

    ghost total = { Prim.search (comparing, rules) };

    ghost matches_partial_cmp = { Prim.search (comparing, rules) };

    ghost matches_eq = { Prim.search (comparing, rules) };

    fn cmp(&self, other: &Decimal) -> Ordering {
        compare(*self, *other)
    }
}

impl PartialOrd for Decimal {
    ghost partial_cmp = { as_partial_cmp order_of };

    ghost laws = { partial_order_from_own_ties (Prim.search (comparing, rules)) (Prim.search (comparing, rules)) };

    fn partial_cmp(&self, other: &Decimal) -> Option<Ordering> {
        Some(self.cmp(other))
    }
}

impl Decimal {
    /// Whether the numbers have the same value.
    pub fn has_same_value(self, other: Decimal) -> bool
        ensures { result ≡ have_same_value self other }
    {
        self.is_in_form();
        other.is_in_form();
        self.cmp(&other).is_eq()
    }
}

/// Compares two decimals. Most that are compared have the same exponent, so that their mantissas decide.
fn compare(left: Decimal, right: Decimal) -> Ordering
    ensures { result ≡ order_of left right }
{
    if left.exponent() == right.exponent() {
        return left.mantissa().cmp(&right.mantissa());
    }
    compare_apart(left, right)
}

/// Compares two decimals at the smaller of their exponents.
#[inline(never)]
fn compare_apart(left: Decimal, right: Decimal) -> Ordering
    ensures { result ≡ order_of left right }
{
    let places = left.exponent().abs_diff(right.exponent());
    if left.exponent() >= right.exponent() {
        compare_shifted(left.mantissa(), places, right.mantissa())
    } else {
        compare_shifted(right.mantissa(), places, left.mantissa()).reverse()
    }
}

/// Compares a mantissa with zeros appended with another mantissa.
fn compare_shifted(mantissa: i128, places: u32, other: i128) -> Ordering
    requires { unsigned_abs other < 10 ^ MAX_DIGITS }
    ensures { result ≡ int_cmp (mantissa *ℤ pos (10 ^ places)) other }
{
    match shifted(mantissa, places) {
        Some(shifted) => shifted.cmp(&other),
        None => mantissa.cmp(&0),
    }
}

/// A mantissa with zeros appended; `None` if it has more digits than the sum of two mantissas can have.
pub(crate) fn shifted(mantissa: i128, places: u32) -> Option<i128>
    ensures { MatchOption result (10 ^ (MAX_DIGITS + 1) ≤ unsigned_abs mantissa * 10 ^ places) (λ shifted. shifted ≡ mantissa *ℤ pos (10 ^ places)) }
{
    if mantissa == 0 {
        return Some(0);
    }
    if places > MAX_DIGITS {
        return None;
    }
    mantissa.checked_mul(10i128.pow(places))
}
