//! Numbers as C sees them.

ghost use Rattle.std.specs.Prelude.{◌≡◌, ◌*◌, ◌+◌, ◌≤◌, ◌/◌, ◌%◌, ◌^◌, ◌++◌, Ok, pos, ◌+ℤ◌, ◌*ℤ◌, length, IfOk, IsTrue, MatchResult};
ghost use Rattle.std.specs.Int.{cast_signed, w64, w128};
ghost use Rattle.mpslp_types.specs.Limit.{is_given};
ghost use Rattle.mpslp_c.specs.Arrays.{RepresentsNumber, RepresentsInfinity, RepresentsLimit};
ghost use Rattle.mpslp_c.specs.Stored.{decimal_given, literal_text, number_given, limit_given, IsFaultGiven};

use arrayvec::ArrayVec;
use itoa::Buffer;
use mpslp_decimal::Decimal;
use mpslp_lines::{LineError, kind_of_number_fault};
use mpslp_model::{FaultKind, Limit};

/// How many numbers the lower part of a mantissa has: 2^64.
const LOWS: u128 = 1 << 64;

/// A number: the mantissa `high` times 2^64 plus `low`, times ten to the `exponent`. Or, if `infinity` is not 0, the infinity
/// of that sign; in a model that was loaded, the rest is then 0.
#[repr(C)]
#[derive(Clone, Copy)]
pub struct MpslpNumber {
    /// The lower 64 bits of the mantissa.
    pub low: u64,
    /// Its upper 64 bits, with its sign.
    pub high: i64,
    /// The power of ten.
    pub exponent: i32,
    /// -1 or 1 for an infinity, and else 0.
    pub infinity: i32,
}

const _: () = prove!(size_of::<MpslpNumber>() == 24);

/// The lower part of a mantissa, by its bits.
fn low_mantissa_bits(bits: u128) -> u64
    ensures { result ≡ bits % 2 ^ 64 }
{
    (bits % LOWS) as u64
}

/// Its upper part.
fn high_mantissa_bits(bits: u128) -> i64
    ensures { result ≡ cast_signed w64 (bits / 2 ^ 64) }
{
    ((bits / LOWS) as u64).cast_signed()
}

/// A decimal.
pub(crate) fn c_number(value: Decimal) -> MpslpNumber
    ensures { RepresentsNumber value result }
{
    let bits = value.mantissa().cast_unsigned();
    MpslpNumber {
        low: low_mantissa_bits(bits),
        high: high_mantissa_bits(bits),
        exponent: value.exponent(),
        infinity: 0,
    }
}

/// The infinity of a sign.
fn c_infinity(sign: i32) -> MpslpNumber
    ensures { RepresentsInfinity sign result }
{
    MpslpNumber {
        low: 0,
        high: 0,
        exponent: 0,
        infinity: sign,
    }
}

/// A limit or a bound.
pub(crate) fn c_limit(limit: Limit) -> MpslpNumber
    ensures { RepresentsLimit limit result }
{
    match limit {
        Limit::MinusInf => c_infinity(-1),
        Limit::Finite(value) => c_number(value),
        Limit::PlusInf => c_infinity(1),
    }
}

/// Room for the literal of any mantissa and exponent.
const LITERAL_ROOM: usize = 96;

/// The mantissa of a number, from its two parts.
fn mantissa_of(number: MpslpNumber) -> i128
    ensures { result ≡ (number.high *ℤ pos (2 ^ 64)) +ℤ pos number.low }
{
    number.high as i128 * (1 << 64) + number.low as i128
}

/// Appends a piece to a literal.
fn append(literal: &mut ArrayVec<u8, LITERAL_ROOM>, piece: &[u8])
    requires { length literal.old.items + length piece.now ≤ LITERAL_ROOM }
    ensures { literal.new.items ≡ literal.old.items ++ piece.now }
{
    let is_full = literal.try_extend_from_slice(piece).is_err();
    prove!(!is_full);
}

/// The literal of a mantissa and an exponent.
fn literal_of(mantissa: i128, exponent: i32) -> ArrayVec<u8, LITERAL_ROOM>
    ensures { result.items ≡ literal_text mantissa exponent }
{
    let mut literal = ArrayVec::new();
    append(&mut literal, Buffer::new().format(mantissa).as_bytes());
    append(&mut literal, b"e");
    append(&mut literal, Buffer::new().format(exponent).as_bytes());
    literal
}

/// The decimal of a mantissa and an exponent, which need not be in normal form. It is read from their literal, as every
/// decimal is.
fn decimal_given(mantissa: i128, exponent: i32) -> Result<Decimal, LineError>
    ensures { let given = decimal_given (record { mantissa = mantissa; exponent = exponent }) in
        MatchResult result (λ value. given ≡ Ok value) (IsFaultGiven given) }
{
    let literal = literal_of(mantissa, exponent);
    match Decimal::parse(literal.as_slice()) {
        Ok(value) => Ok(value),
        Err(fault) => Err(LineError::Fault(kind_of_number_fault(fault))),
    }
}

/// A finite number of a caller.
pub(crate) fn number_given(number: MpslpNumber) -> Result<Decimal, LineError>
    ensures { MatchResult result (λ value. number_given number ≡ Ok value) (IsFaultGiven (number_given number)) }
{
    if number.infinity != 0 {
        return Err(LineError::Fault(FaultKind::BadNumber));
    }
    decimal_given(mantissa_of(number), number.exponent)
}

/// A limit or a bound of a caller.
pub(crate) fn limit_given(number: MpslpNumber) -> Result<Limit, LineError>
    ensures limit { MatchResult result (λ limit. limit_given number ≡ Ok limit) (IsFaultGiven (limit_given number)) }
    ensures given { IfOk result (λ limit. IsTrue (is_given limit)) }
{
    if number.infinity < 0 {
        return Ok(Limit::MinusInf);
    }
    if number.infinity > 0 {
        return Ok(Limit::PlusInf);
    }
    Ok(Limit::of(decimal_given(mantissa_of(number), number.exponent)?))
}
