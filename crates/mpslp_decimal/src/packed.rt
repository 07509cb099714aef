//! Decimals in 20 bytes.

ghost use Rattle.std.specs.Prelude.{◌≡◌};
ghost use Rattle.mpslp_decimal.specs.Packed.{bits_of};

use crate::number::Decimal;
use std::marker::Model;

/// A decimal stored compactly, for large collections. Contracts see the number.
///
/// A mantissa of [`MAX_DIGITS`](crate::MAX_DIGITS) digits has 120 bits and a sign, so the exponent does not fit in the same
/// 128 bits. The mantissa is stored as words of 32 bits, which need no more alignment than the exponent: so a packed decimal
/// takes 20 bytes, and 24 together with a number of 32 bits, instead of 32 and 48 for a [`Decimal`].
#[derive(Debug, Drop)]
pub struct PackedDecimal {
    /// The two's complement of the mantissa, the lowest word first.
    mantissa: [u32; 4],
    exponent: i32,
}

const _: () = prove!(size_of::<(u32, PackedDecimal)>() == 24);

impl Model for PackedDecimal {
    ghost use Rattle.mpslp_decimal.specs.Decimal.{Number, IsDecimal};
    ghost use Rattle.mpslp_decimal.specs.Packed.{unpacked};

    ghost Value = { Number };

    ghost view = { unpacked };

    ghost invariant = { λ packed. IsDecimal (unpacked packed) };
}

/// The number of values of a word.
const WORD: u64 = 4_294_967_296;

/// The number of values of two words.
const TWO_WORDS: u128 = 18_446_744_073_709_551_616;

/// Four words, the lowest first.
fn words_of(bits: u128) -> [u32; 4]
    ensures { bits_of result ≡ bits }
{
    let low = (bits % TWO_WORDS) as u64;
    let high = (bits / TWO_WORDS) as u64;
    [
        (low % WORD) as u32,
        (low / WORD) as u32,
        (high % WORD) as u32,
        (high / WORD) as u32,
    ]
}

/// The bits of four words, the lowest first.
fn bits_of(words: [u32; 4]) -> u128
    ensures { result ≡ bits_of words }
{
    let [first, second, third, last] = words;
    let low = first as u64 + second as u64 * WORD;
    let high = third as u64 + last as u64 * WORD;
    low as u128 + high as u128 * TWO_WORDS
}

impl PackedDecimal {
    /// Packs a decimal.
    pub fn of(value: Decimal) -> PackedDecimal
        ensures { result ≡ value }
    {
        value.is_in_form();
        let mantissa = value.mantissa();
        let words = words_of(mantissa.cast_unsigned());
        let exponent = value.exponent();
        PackedDecimal {
            mantissa: words,
            exponent,
        }
    }

    /// The decimal, unpacked.
    pub fn value(&self) -> Decimal
        ensures { result ≡ self.now }
    {
        let bits = bits_of(self.mantissa);
        Decimal::from_parts(bits.cast_signed(), self.exponent)
    }
}
