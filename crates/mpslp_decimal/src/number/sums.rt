//! Exact sums and differences.

ghost use Rattle.std.specs.Prelude.{◌≡◌, ℤ, pos, ◌*◌, ◌+ℤ◌, ◌*ℤ◌, ◌≤ℤ◌, ◌<◌, ◌≤◌, ◌^◌, unsigned_abs, MatchOption};
ghost use Rattle.mpslp_decimal.specs.Decimal.{Number, IsDecimal, depth, decimal_of, sum_of, difference_of};
ghost use Rattle.mpslp_decimal.specs.Literal.{to_signed};
ghost use Rattle.mpslp_decimal.specs.Scan.{IsStripped};

use crate::literal::in_range;
use crate::number::order::shifted;
use crate::number::{Decimal, MAX_DIGITS};

/// Ten to the `MAX_DIGITS`, the first mantissa with too many digits. The proofs compare the two.
const MANTISSA_LIMIT: u128 = 1_000_000_000_000_000_000_000_000_000_000_000_000;

impl Decimal {
    /// The exact sum, or `None` if it is not a decimal: it needs more than [`MAX_DIGITS`] digits, or its exponent is out of
    /// range.
    pub fn checked_add(self, other: Decimal) -> Option<Decimal>
        ensures { result ≡ sum_of self other }
    {
        if self.exponent() >= other.exponent() {
            sum_at(self, other)
        } else {
            sum_at(other, self)
        }
    }

    /// The exact difference, or `None` if it is not a decimal, as in [`Decimal::checked_add`].
    pub fn checked_sub(self, other: Decimal) -> Option<Decimal>
        ensures { result ≡ difference_of self other }
    {
        self.checked_add(other.negate())
    }
}

/// The sum, computed at the smaller exponent, which is that of `low`.
fn sum_at(high: Decimal, low: Decimal) -> Option<Decimal>
    requires { low.exponent ≤ℤ high.exponent }
    ensures { result ≡ sum_of high low }
{
    if high.is_zero() {
        return Some(low);
    }
    if low.is_zero() {
        return Some(high);
    }
    let places = high.exponent().abs_diff(low.exponent());
    // If zeros were appended to one mantissa, the last digit of the sum is that of the other one, which is not 0: so a sum
    // that is too long cannot lose trailing zeros.
    let sum = shifted_sum(high.mantissa(), places, low.mantissa())?;
    if sum == 0 {
        return Some(Decimal::zero());
    }
    decimal_of(sum < 0, sum.unsigned_abs(), low.exponent())
}

/// A mantissa with zeros appended, plus another one; `None` if the magnitude is larger than that of any sum of two
/// mantissas.
fn shifted_sum(mantissa: i128, places: u32, other: i128) -> Option<i128>
    requires { unsigned_abs other < 10 ^ MAX_DIGITS }
    ensures { let sum = (mantissa *ℤ pos (10 ^ places)) +ℤ other in MatchOption result (2 * 10 ^ MAX_DIGITS ≤ unsigned_abs sum) (λ s. s ≡ sum) }
{
    shifted(mantissa, places)?.checked_add(other)
}

/// The decimal of a mantissa, which may have trailing zeros, and an exponent.
fn decimal_of(is_negative: bool, size: u128, exponent: i32) -> Option<Decimal>
    requires some { 0 < size }
    requires small { size < 10 ^ 39 }
    requires exponent { unsigned_abs exponent ≤ depth }
    ensures { result ≡ decimal_of (record { mantissa = to_signed is_negative size; exponent = exponent }) }
{
    let (digits, zeros) = stripped(size);
    if digits >= MANTISSA_LIMIT {
        return None;
    }
    in_range(is_negative, digits, exponent + zeros as i32).ok()
}

/// A number without its trailing zeros, and their number. Literals have a function of their own for 64 bits, whose divisions take
/// much less time; a sum may need 128.
fn stripped(number: u128) -> (u128, u32)
    requires some { 0 < number }
    requires small { number < 10 ^ 39 }
    ensures stripped { IsStripped number result.0 result.1 }
    ensures zeros { result.1 < 39 }
{
    let mut mantissa = number;
    let mut zeros = 0;
    while mantissa % 10 == 0 {
        mantissa /= 10;
        zeros += 1;
    }
    (mantissa, zeros)
}
