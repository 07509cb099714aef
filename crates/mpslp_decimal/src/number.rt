//! The type of decimals, and its basic properties.

mod order;
mod powers;
mod sums;

ghost use Rattle.std.specs.Prelude.{◌≡◌, ◌+◌, ◌*◌, ◌^◌, ◌<◌, nat_le};
ghost use Rattle.mpslp_decimal.specs.Literal.{number_of};
ghost use Rattle.mpslp_decimal.specs.Decimal.{Number, zero_number, one_number, is_zero, is_negative, negated, size_of, is_infinite_size, depth, height, IsDecimal};

use crate::literal::{self, NumberFault};
use crate::number::powers::power_of_ten;
use std::marker::Model;

/// The most digits of the mantissa of a decimal.
pub const MAX_DIGITS: u32 = 36;

/// The least exponent of a decimal.
pub const MIN_EXPONENT: i32 = -500;

/// The greatest exponent of a decimal.
pub const MAX_EXPONENT: i32 = 500;

/// Numbers with magnitude at least ten to this exponent are infinite as limits or bounds.
const INFINITE_EXPONENT: i32 = 20;

/// An exact decimal: a mantissa times a power of ten.
///
/// The mantissa has at most [`MAX_DIGITS`] digits and no trailing zero, and the exponent is between [`MIN_EXPONENT`] and
/// [`MAX_EXPONENT`]; zero has mantissa 0 and exponent 0. So each value has one representation, and comparisons and hashes
/// are by value.
#[derive(Clone, Copy, Debug, PartialEq, Eq, Hash)]
pub struct Decimal {
    mantissa: i128,
    exponent: i32,
}

impl Model for Decimal {
    ghost use Rattle.mpslp_decimal.specs.Literal.{number_of};
    ghost use Rattle.mpslp_decimal.specs.Decimal.{Number, IsDecimal};
    ghost use Rattle.mpslp_decimal.specs.NumberCode.{number_code};

    ghost Value = { Number };

    ghost coded = { number_code };

    ghost view = { λ d. record { mantissa = d.mantissa; exponent = d.exponent } };

    ghost invariant = { λ d. IsDecimal (record { mantissa = d.mantissa; exponent = d.exponent }) };

    ghost inverse = { λ n. record { mantissa = n.mantissa; exponent = n.exponent } };
}

impl Decimal {
    /// The number 0.
    pub fn zero() -> Decimal
        ensures { result ≡ zero_number }
    {
        Decimal {
            mantissa: 0,
            exponent: 0,
        }
    }

    /// The number 1.
    pub fn one() -> Decimal
        ensures { result ≡ one_number }
    {
        Decimal::from_parts(1, 0)
    }

    /// The decimal with these two parts, which are in normal form already.
    pub(crate) fn from_parts(mantissa: i128, exponent: i32) -> Decimal
        requires { IsDecimal (record { mantissa = mantissa; exponent = exponent }) }
        ensures { result ≡ record { mantissa = mantissa; exponent = exponent } }
    {
        Decimal { mantissa, exponent }
    }

    /// Does nothing. Its contract states the invariant of the type.
    pub(crate) fn is_in_form(self)
        ensures { IsDecimal self }
    {
        let _mantissa = self.mantissa;
    }

    /// The exact value of a number literal: an optional sign, digits with an optional point and at least one digit, and
    /// optionally `e` or `E`, an optional sign and at least one digit.
    ///
    /// Nothing is rounded. Zero is accepted with any exponent.
    ///
    /// # Errors
    ///
    /// The first [`NumberFault`] that applies, in the order in which they are listed there.
    pub fn parse(text: &[u8]) -> Result<Decimal, NumberFault>
        ensures { result ≡ number_of text.now }
    {
        literal::parse(text)
    }

    /// Whether this is 0.
    pub fn is_zero(self) -> bool
        ensures { result ≡ is_zero self }
    {
        self.mantissa == 0
    }

    /// The integer that is multiplied by the power of ten.
    pub fn mantissa(self) -> i128
        ensures { result ≡ self.mantissa }
    {
        self.mantissa
    }

    /// The exponent of the power of ten.
    pub fn exponent(self) -> i32
        ensures { result ≡ self.exponent }
    {
        self.exponent
    }

    /// The number with the opposite sign.
    pub fn negate(self) -> Decimal
        ensures { result ≡ negated self }
    {
        Decimal {
            mantissa: -self.mantissa,
            exponent: self.exponent,
        }
    }

    /// Whether the number is below 0.
    pub fn is_negative(self) -> bool
        ensures { result ≡ is_negative self }
    {
        self.mantissa < 0
    }

    /// The absolute value.
    pub fn abs(self) -> Decimal
        ensures { result ≡ size_of self }
    {
        if self.is_negative() {
            self.negate()
        } else {
            self
        }
    }

    /// Whether the magnitude is at least 1e20. Such limits and bounds are infinite in model files.
    pub fn is_infinite_size(self) -> bool
        ensures { result ≡ is_infinite_size self }
    {
        reaches_infinity(self.mantissa.unsigned_abs(), self.exponent)
    }
}

/// Whether this number of units of a power of ten is at least 1e20.
fn reaches_infinity(units: u128, exponent: i32) -> bool
    requires few { units < 10 ^ MAX_DIGITS }
    ensures { result ≡ nat_le (10 ^ (20 + depth)) (units * 10 ^ height exponent) }
{
    if exponent >= INFINITE_EXPONENT {
        return units != 0;
    }
    if exponent <= INFINITE_EXPONENT - MAX_DIGITS as i32 {
        return false;
    }
    units >= power_of_ten((INFINITE_EXPONENT - exponent) as u32)
}
