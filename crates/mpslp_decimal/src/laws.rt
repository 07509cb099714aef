//! Laws of all decimals and texts. Each is the contract of a function that does nothing, proved for every value.

ghost use Rattle.std.specs.Prelude.{◌≡◌, ◌↔◌, ◌+ℤ◌, ℕ, List, Ok, Err, Some};
ghost use Rattle.std.specs.declared.cmp.Ordering.{Ordering};
ghost use Rattle.mpslp_decimal.specs.Decimal.{Number, IsDecimal, scaled, sum_of};
ghost use Rattle.mpslp_decimal.specs.Values.{HasSameValue, IsBelow, order_of, Spells, HasTooManyDigits, HasExponentOutOfRange};
ghost use Rattle.mpslp_decimal.specs.Literal.{number_of};
ghost use Rattle.mpslp_decimal.specs.NumberText.{number_text};
ghost use Rattle.mpslp_decimal.specs.declared.literal.NumberFault.TheVariants.{TooManyDigits, ExponentRange};

use crate::number::Decimal;

/// Every value of the type is a decimal: in normal form, with at most 36 digits and an exponent in range.
pub fn each_value_is_a_decimal(value: Decimal)
    ensures { IsDecimal value }
{
    value.is_in_form()
}

/// Decimals with the same value have the same mantissa and exponent.
pub fn one_form_of_a_decimal()
    ensures { (a b : Number) → IsDecimal a → IsDecimal b → HasSameValue a b → a ≡ b }
{}

/// A text is read as a decimal if and only if it is a literal of at most 255 bytes and has the value of the decimal.
pub fn literals_are_read_by_value()
    ensures { (text : List ℕ) (d : Number) → (number_of text ≡ Ok d) ↔ Spells text d }
{}

/// A text is rejected with `TooManyDigits` if and only if it is a literal of at most 255 bytes and no number of at most
/// 36 digits has its value, whatever the number's exponent.
pub fn digits_are_counted_by_value()
    ensures { (text : List ℕ) → (number_of text ≡ Err TooManyDigits) ↔ HasTooManyDigits text }
{}

/// A text is rejected with `ExponentRange` if and only if it is a literal of at most 255 bytes, a number of at most 36
/// digits has its value, and no decimal has it.
pub fn exponents_are_judged_by_value()
    ensures { (text : List ℕ) → (number_of text ≡ Err ExponentRange) ↔ HasExponentOutOfRange text }
{}

/// The canonical text of a decimal is a literal that is read as this decimal.
pub fn decimal_text_is_read_back()
    ensures { (d : Number) → IsDecimal d → number_of (number_text d) ≡ Ok d }
{}

/// Decimals with the same text are equal.
pub fn one_text_of_a_decimal()
    ensures { (a b : Number) → IsDecimal a → IsDecimal b → number_text a ≡ number_text b → a ≡ b }
{}

/// A decimal is less than another one if and only if its mantissa is less when both are written with the smaller of their
/// exponents.
pub fn decimal_order_is_by_value()
    ensures { (a b : Number) → IsDecimal a → IsDecimal b → (order_of a b ≡ Ordering.Less) ↔ IsBelow a b }
{}

/// A decimal is the sum of two others if and only if it has as many units of the least exponent as both of them together. If
/// there is no such decimal, there is no sum.
pub fn decimal_sums_are_exact()
    ensures { (a b d : Number) → (sum_of a b ≡ Some d) ↔ (IsDecimal d × (scaled d ≡ scaled a +ℤ scaled b)) }
{}
