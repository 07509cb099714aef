//! Number literals, read in one pass.

ghost use Rattle.std.specs.Prelude.{ℤ, pos, Ok, true, nat_lt, ◌-◌, ◌+ℤ◌, ◌-ℤ◌, ◌%◌, unsigned_abs, ◌≡◌, ℕ, ◌+◌, ◌*◌, ◌^◌, ◌<◌, ◌≤◌, ◌↔◌, IsTrue, IsSome, IfSome, MatchOption, length, take, drop, not, false};
ghost use Rattle.std.specs.List.{prefix_len, list_all};
ghost use Rattle.mpslp_decimal.specs.Decimal.{IsDecimal};
ghost use Rattle.mpslp_decimal.specs.Literal.{to_signed, is_digit, is_minus, without_sign, digits_sum, are_digits, is_literal, number_of};
ghost use Rattle.mpslp_decimal.specs.Scan.{in_range, IsStripped, IsSignificandOf, parts_of, zeros_of, exponent_of, exponent_after, digits_front, after_digits, appended, mantissa_front, fraction_front, after_mantissa, IsScanOf};

use crate::number::{Decimal, MAX_DIGITS, MAX_EXPONENT, MIN_EXPONENT};
use std::simd::prelude::*;

/// The most bytes of a literal.
pub const MAX_LITERAL_LEN: usize = 255;

/// An exponent of this magnitude is out of range, whatever the number of digits before or after the point.
const EXPONENT_CAP: u32 = 100_000;

/// A mantissa from this value on may not fit in 64 bits with one more digit.
const SHORT_ROOM: u64 = 100_000_000_000_000_000;

/// A mantissa from this value on may not fit in 64 bits with four more digits.
const FOUR_ROOM: u64 = 100_000_000_000_000;

/// A mantissa from this value on may not fit in 64 bits with eight more digits.
const EIGHT_ROOM: u64 = 10_000_000_000;

/// Ten to the `MAX_DIGITS - 1`: a mantissa from this value on cannot take another digit. The proofs compare the two.
const LONG_ROOM: u128 = 100_000_000_000_000_000_000_000_000_000_000_000;

/// Why a text is rejected as a decimal. Of several reasons the first in this list is reported.
#[derive(Clone, Copy, Debug, PartialEq, Eq)]
pub enum NumberFault {
    /// The text is not a number literal.
    BadNumber,
    /// The literal has more than [`MAX_LITERAL_LEN`] bytes.
    LongNumber,
    /// The value needs more than [`MAX_DIGITS`] digits.
    TooManyDigits,
    /// The exponent of the normal form is out of range.
    ExponentRange,
}

/// The number that digits represent. Most have few digits, which are counted in 64 bits.
#[derive(Clone, Copy)]
enum Significand {
    /// The number without its trailing zeros, and their number.
    Short(u64, usize),
    /// The same for a number that may not fit in 64 bits.
    Long(u128, usize),
    /// Without its trailing zeros, the number has more than `MAX_DIGITS` digits.
    Many,
}

impl Significand {
    /// The significand with one more digit appended.
    fn followed_by(self, digit: u8) -> Significand
        requires digit { digit < 10 }
        requires room { zeros_of self + 1 < 2 ^ 64 }
        ensures value { (n : ℕ) → IsSignificandOf self n → IsSignificandOf result (n * 10 + digit) }
        ensures zeros { zeros_of result ≤ zeros_of self + 1 }
    {
        match self {
            Significand::Short(mantissa, zeros) => short_followed_by(mantissa, zeros, digit),
            Significand::Long(mantissa, zeros) => long_followed_by(mantissa, zeros, digit),
            Significand::Many => Significand::Many,
        }
    }

    /// The number without its trailing zeros, and their number; `None` if it has too many digits.
    fn parts(self) -> Option<(u128, usize)>
        ensures { result ≡ parts_of self }
    {
        match self {
            Significand::Short(mantissa, zeros) => Some((u128::from(mantissa), zeros)),
            Significand::Long(mantissa, zeros) => Some((mantissa, zeros)),
            Significand::Many => None,
        }
    }
}

/// The significand of a mantissa with zeros and one more digit appended, in 64 bits while it fits.
fn short_followed_by(mantissa: u64, zeros: usize, digit: u8) -> Significand
    requires digit { digit < 10 }
    requires room { zeros + 1 < 2 ^ 64 }
    ensures value { (n : ℕ) → IsSignificandOf (Significand.Short mantissa zeros) n → IsSignificandOf result (n * 10 + digit) }
    ensures zeros { zeros_of result ≤ zeros + 1 }
{
    if digit == 0 {
        return Significand::Short(mantissa, zeros + 1);
    }
    let mut shifted = mantissa;
    for _place in 0..zeros + 1 {
        if shifted >= SHORT_ROOM {
            return long_followed_by(u128::from(mantissa), zeros, digit);
        }
        shifted *= 10;
    }
    Significand::Short(shifted + u64::from(digit), 0)
}

/// The significand of a mantissa with zeros and one more digit appended, while it has few enough digits.
fn long_followed_by(mantissa: u128, zeros: usize, digit: u8) -> Significand
    requires digit { digit < 10 }
    requires room { zeros + 1 < 2 ^ 64 }
    ensures value { (n : ℕ) → IsSignificandOf (Significand.Long mantissa zeros) n → IsSignificandOf result (n * 10 + digit) }
    ensures zeros { zeros_of result ≤ zeros + 1 }
{
    if digit == 0 {
        return Significand::Long(mantissa, zeros + 1);
    }
    let mut shifted = mantissa;
    for _place in 0..zeros + 1 {
        if shifted >= LONG_ROOM {
            return Significand::Many;
        }
        shifted *= 10;
    }
    Significand::Long(shifted + u128::from(digit), 0)
}

/// The parts of a literal.
#[derive(Clone, Copy)]
struct Scan {
    is_negative: bool,
    significand: Significand,
    /// The number of digits after the point.
    places: usize,
    exponent: i32,
}

/// Whether a text begins with a minus, and the text without its sign.
fn split_sign(text: &[u8]) -> (bool, &[u8])
    ensures minus { result.0 ≡ is_minus text.now }
    ensures rest { result.1.now ≡ without_sign text.now }
{
    match text {
        [b'-', rest @ ..] => (true, rest),
        [b'+', rest @ ..] => (false, rest),
        _ => (false, text),
    }
}

/// Appends the digits at the start of a text to those read before, and returns the rest of the text.
fn scan_digits(text: &[u8], before: Significand) -> (Significand, &[u8])
    requires room { zeros_of before + length text.now < 2 ^ 64 }
    ensures rest { result.1.now ≡ after_digits text.now }
    ensures value { let digits = digits_front text.now in
        (n : ℕ) → IsSignificandOf before n → IsSignificandOf result.0 (n * 10 ^ length digits + digits_sum digits) }
    ensures zeros { zeros_of result.0 ≤ zeros_of before + prefix_len is_digit text.now }
{
    let mut significand = before;
    for (at, byte) in text.iter().enumerate() {
        if !byte.is_ascii_digit() {
            return (significand, &text[at..]);
        }
        significand = significand.followed_by(byte - b'0');
    }
    (significand, &[])
}

/// The exponent that an optional sign and digits represent, limited to the cap; `None` for any other text.
fn scan_exponent(text: &[u8]) -> Option<i32>
    ensures { result ≡ exponent_of text.now }
{
    let (is_negative, digits) = split_sign(text);
    if digits.is_empty() {
        return None;
    }
    let mut size: u32 = 0;
    for digit in digits {
        if !digit.is_ascii_digit() {
            return None;
        }
        size = (size * 10 + u32::from(digit - b'0')).min(EXPONENT_CAP);
    }
    let size = size as i32;
    Some(if is_negative { -size } else { size })
}

/// The digits of a literal before its exponent part.
#[derive(Clone, Copy)]
struct Mantissa {
    significand: Significand,
    /// The number of digits.
    digits: usize,
    /// The number of digits after the point.
    places: usize,
}

/// The value of a digit; 10 or more for any other byte.
#[inline(always)]
fn digit_value(byte: u8) -> u64
    ensures digit { is_digit byte ≡ nat_lt result 10 }
    ensures value { IsTrue (is_digit byte) → result ≡ byte - 48 }
{
    u64::from(byte).wrapping_sub(48)
}

/// Appends the digits at the start of a text to a number, one after another, and returns the rest of the text; `None` if the number
/// may not fit in 64 bits.
#[inline(always)]
fn append_digits(text: &[u8], before: u64) -> Option<(u64, &[u8])>
    ensures rest { IfSome result (λ found. found.1.now ≡ after_digits text.now) }
    ensures number { IfSome result (λ found. found.0 ≡ appended before text.now) }
{
    let mut number = before;
    for (at, byte) in text.iter().enumerate() {
        let digit = digit_value(*byte);
        if digit >= 10 {
            return Some((number, &text[at..]));
        }
        if number >= SHORT_ROOM {
            return None;
        }
        number = number * 10 + digit;
    }
    Some((number, &[]))
}

/// Whether four bytes are digits.
#[inline(always)]
fn are_four_digits(bytes: [u8; 4]) -> bool
    ensures { IsTrue result → list_all is_digit bytes ≡ true }
{
    let values = u8x4::from_array(bytes) - u8x4::splat(48);
    values.simd_lt(u8x4::splat(10)).to_bitmask() == 15
}

/// Whether eight bytes are digits.
#[inline(always)]
fn are_eight_digits(bytes: [u8; 8]) -> bool
    ensures { IsTrue result → list_all is_digit bytes ≡ true }
{
    let values = u8x8::from_array(bytes) - u8x8::splat(48);
    values.simd_lt(u8x8::splat(10)).to_bitmask() == 255
}

/// The number that four bytes represent; `None` if one of them is not a digit. Digits are added in pairs: ten times the bytes and
/// the bytes after them have the value of a pair in every other byte.
#[inline(always)]
fn four_digits(bytes: [u8; 4]) -> Option<u64>
    ensures { IfSome result (λ n. (list_all is_digit bytes ≡ true) × (n ≡ digits_sum bytes)) }
{
    if !are_four_digits(bytes) {
        return None;
    }
    let digits = u32::from_le_bytes(bytes) - 0x3030_3030;
    let pairs = digits * 10 + digits / 256;
    Some(u64::from(pairs % 256 * 100 + pairs / 65536 % 256))
}

/// The number that eight bytes represent; `None` if one of them is not a digit. The digits are added as those of four bytes.
#[inline(always)]
fn eight_digits(bytes: [u8; 8]) -> Option<u64>
    ensures { IfSome result (λ n. (list_all is_digit bytes ≡ true) × (n ≡ digits_sum bytes)) }
{
    if !are_eight_digits(bytes) {
        return None;
    }
    let digits = u64::from_le_bytes(bytes) - 0x3030_3030_3030_3030;
    let pairs = digits * 10 + digits / 256;
    let first = pairs % 256 * 100 + pairs / 0x1_0000 % 256;
    let second = pairs / 0x1_0000_0000 % 256 * 100 + pairs / 0x1_0000_0000_0000 % 256;
    Some(first * 10_000 + second)
}

/// Appends the digits at the start of a text to a number, as `append_digits` does, but eight or four at once, since most fractions
/// are long.
#[inline(always)]
fn append_many_digits(text: &[u8], before: u64) -> Option<(u64, &[u8])>
    ensures rest { IfSome result (λ found. found.1.now ≡ after_digits text.now) }
    ensures number { IfSome result (λ found. found.0 ≡ appended before text.now) }
{
    let mut number = before;
    let mut rest = text;
    while let Some((bytes, more)) = rest.split_first_chunk::<8>() {
        let Some(eight) = eight_digits(*bytes) else {
            break;
        };
        if number >= EIGHT_ROOM {
            return None;
        }
        number = number * 100_000_000 + eight;
        rest = more;
    }
    append_fewer_digits(rest, number)
}

/// The same for few digits.
#[inline(always)]
fn append_fewer_digits(text: &[u8], before: u64) -> Option<(u64, &[u8])>
    ensures rest { IfSome result (λ found. found.1.now ≡ after_digits text.now) }
    ensures number { IfSome result (λ found. found.0 ≡ appended before text.now) }
{
    let Some((bytes, more)) = text.split_first_chunk::<4>() else {
        return append_digits(text, before);
    };
    match four_digits(*bytes) {
        Some(four) => {
            if before >= FOUR_ROOM {
                return None;
            }
            append_digits(more, before * 10_000 + four)
        }
        None => append_digits(text, before),
    }
}

/// A number without its trailing zeros, and their number. The function of the same name for sums takes 128 bits, whose divisions
/// take too long for every literal.
#[inline(always)]
fn stripped(number: u64) -> (u64, usize)
    requires some { 0 < number }
    ensures { IsStripped number result.0 result.1 }
{
    let mut mantissa = number;
    let mut zeros = 0;
    while mantissa % 10 == 0 {
        mantissa /= 10;
        zeros += 1;
    }
    (mantissa, zeros)
}

/// A mantissa that fits in 64 bits.
#[derive(Clone, Copy)]
struct ShortMantissa {
    /// The number of its digits, before and after the point.
    number: u64,
    /// The number of digits.
    digits: usize,
    /// The number of digits after the point.
    places: usize,
}

/// Reads a mantissa of few digits, and returns the rest of the text; `None` if the number may not fit in 64 bits.
#[inline(always)]
fn scan_short_mantissa(text: &[u8]) -> Option<(ShortMantissa, &[u8])>
    ensures rest { IfSome result (λ found. found.1.now ≡ after_mantissa text.now) }
    ensures number { IfSome result (λ found. found.0.number ≡ digits_sum (mantissa_front text.now)) }
    ensures digits { IfSome result (λ found. found.0.digits ≡ length (mantissa_front text.now)) }
    ensures places { IfSome result (λ found. found.0.places ≡ length (fraction_front text.now)) }
{
    let (whole, after_whole) = append_digits(text, 0)?;
    let digits = text.len() - after_whole.len();
    match after_whole {
        [b'.', fraction @ ..] => {
            let (number, rest) = append_many_digits(fraction, whole)?;
            let places = fraction.len() - rest.len();
            let mantissa = ShortMantissa {
                number,
                digits: digits + places,
                places,
            };
            Some((mantissa, rest))
        }
        _ => {
            let mantissa = ShortMantissa {
                number: whole,
                digits,
                places: 0,
            };
            Some((mantissa, after_whole))
        }
    }
}

/// Reads a mantissa of any number of digits, and returns the rest of the text.
fn scan_long_mantissa(text: &[u8]) -> (Mantissa, &[u8])
    ensures rest { result.1.now ≡ after_mantissa text.now }
    ensures significand { IsSignificandOf result.0.significand (digits_sum (mantissa_front text.now)) }
    ensures digits { result.0.digits ≡ length (mantissa_front text.now) }
    ensures places { result.0.places ≡ length (fraction_front text.now) }
    ensures zeros_within { zeros_of result.0.significand ≤ length text.now }
    ensures digits_within { result.0.digits ≤ length text.now }
    ensures places_within { result.0.places ≤ length text.now }
{
    let (whole, after_whole) = scan_digits(text, Significand::Short(0, 0));
    let digits = text.len() - after_whole.len();
    match after_whole {
        [b'.', fraction @ ..] => {
            let (significand, rest) = scan_digits(fraction, whole);
            let places = fraction.len() - rest.len();
            let mantissa = Mantissa {
                significand,
                digits: digits + places,
                places,
            };
            (mantissa, rest)
        }
        _ => {
            let mantissa = Mantissa {
                significand: whole,
                digits,
                places: 0,
            };
            (mantissa, after_whole)
        }
    }
}

/// The exponent in the text after a mantissa, 0 if that is empty; `None` if it is not an exponent part.
fn scan_exponent_part(text: &[u8]) -> Option<i32>
    ensures { result ≡ exponent_after text.now }
{
    match text {
        [] => Some(0),
        [b'e' | b'E', exponent @ ..] => scan_exponent(exponent),
        _ => None,
    }
}

impl Scan {
    /// Reads a text as a literal; `None` if it is not one.
    fn of(text: &[u8]) -> Option<Scan>
        ensures { MatchOption result (is_literal text.now ≡ false) (λ scan. IsScanOf scan text.now) }
    {
        let (is_negative, unsigned) = split_sign(text);
        let (mantissa, rest) = scan_long_mantissa(unsigned);
        if mantissa.digits == 0 {
            return None;
        }
        let exponent = scan_exponent_part(rest)?;
        Some(Scan {
            is_negative,
            significand: mantissa.significand,
            places: mantissa.places,
            exponent,
        })
    }
}

/// The exponent of a mantissa after its trailing zeros and its point are removed.
fn normal_exponent(exponent: i32, zeros: usize, places: usize) -> i32
    requires exponent { unsigned_abs exponent ≤ EXPONENT_CAP }
    requires zeros { zeros ≤ MAX_LITERAL_LEN }
    requires places { places ≤ MAX_LITERAL_LEN }
    ensures { result ≡ (exponent +ℤ pos zeros) -ℤ pos places }
{
    exponent + zeros as i32 - places as i32
}

/// The decimal of a mantissa without trailing zeros, if its exponent is in range.
pub(crate) fn in_range(
    is_negative: bool,
    mantissa: u128,
    exponent: i32,
) -> Result<Decimal, NumberFault>
    requires ends { 0 < mantissa % 10 }
    requires few { mantissa < 10 ^ MAX_DIGITS }
    ensures { result ≡ in_range (record { mantissa = to_signed is_negative mantissa; exponent = exponent }) }
{
    if exponent < MIN_EXPONENT || exponent > MAX_EXPONENT {
        return Err(NumberFault::ExponentRange);
    }
    let size = mantissa as i128;
    let mantissa = if is_negative { -size } else { size };
    Ok(Decimal::from_parts(mantissa, exponent))
}

/// The most bytes of a text that is read as a plain integer. A longer text mostly has a point, so that the attempt would be in vain.
const PLAIN_LEN: usize = 4;

/// The sign and the number of a text of an optional sign and few digits, the last of which is not 0; `None` for any other text.
/// Most numbers of a file are such texts.
#[inline(always)]
fn plain_integer(text: &[u8]) -> Option<(bool, u64)>
    ensures ends { IfSome result (λ found. 0 < found.1 % 10) }
    ensures value { IfSome result (λ found. number_of text.now ≡ in_range (record { mantissa = to_signed found.0 found.1; exponent = pos 0 })) }
{
    if text.len() > PLAIN_LEN {
        return None;
    }
    let (is_negative, unsigned) = split_sign(text);
    let (size, rest) = append_digits(unsigned, 0)?;
    if !rest.is_empty() {
        return None;
    }
    if size % 10 == 0 {
        return None;
    }
    Some((is_negative, size))
}

/// A number of at most 64 bits with its sign.
#[inline(always)]
fn signed(is_negative: bool, size: u64) -> i128
    ensures { result ≡ to_signed is_negative size }
{
    let size = i128::from(size);
    if is_negative { -size } else { size }
}

/// The decimal with the value of a literal, or the first error.
#[inline(always)]
pub(crate) fn parse(text: &[u8]) -> Result<Decimal, NumberFault>
    ensures { result ≡ number_of text.now }
{
    if let [b'0'] = text {
        return Ok(Decimal::zero());
    }
    match plain_integer(text) {
        Some((is_negative, size)) => {
            let mantissa = signed(is_negative, size);
            Ok(Decimal::from_parts(mantissa, 0))
        }
        None => parse_any(text),
    }
}

/// The sign, the mantissa and the exponent of the decimal with the value of a literal whose digits fit in 64 bits; `None` for any
/// other text, and if the value is not a decimal.
#[inline(always)]
fn short_parts(text: &[u8]) -> Option<(bool, u64, i32)>
    ensures decimal { IfSome result (λ found. IsDecimal (record { mantissa = to_signed found.0 found.1; exponent = found.2 })) }
    ensures value { IfSome result (λ found. number_of text.now ≡ Ok (record { mantissa = to_signed found.0 found.1; exponent = found.2 })) }
{
    if text.len() >= MAX_LITERAL_LEN {
        return None;
    }
    let (is_negative, unsigned) = split_sign(text);
    let (mantissa, rest) = scan_short_mantissa(unsigned)?;
    let exponent = scan_exponent_part(rest)?;
    if mantissa.number == 0 {
        if mantissa.digits == 0 {
            return None;
        }
        return Some((false, 0, 0));
    }
    let (size, zeros) = stripped(mantissa.number);
    let exponent = normal_exponent(exponent, zeros, mantissa.places);
    if exponent < MIN_EXPONENT || exponent > MAX_EXPONENT {
        return None;
    }
    Some((is_negative, size, exponent))
}

/// The decimal with the value of a literal of any kind, or the first error. Most literals have few digits.
#[inline(never)]
fn parse_any(text: &[u8]) -> Result<Decimal, NumberFault>
    ensures { result ≡ number_of text.now }
{
    match short_parts(text) {
        Some((is_negative, size, exponent)) => {
            let mantissa = signed(is_negative, size);
            Ok(Decimal::from_parts(mantissa, exponent))
        }
        None => parse_rare(text),
    }
}

/// The decimal with the value of a literal that is not read as a short one, or the first error. The result is taken apart, since
/// otherwise its caller puts together every decimal in memory and copies it.
#[inline(always)]
fn parse_rare(text: &[u8]) -> Result<Decimal, NumberFault>
    ensures { result ≡ number_of text.now }
{
    match parse_long(text) {
        Ok(value) => Ok(value),
        Err(fault) => Err(fault),
    }
}

/// The decimal with the value of a literal of any number of digits, or the first error.
#[inline(never)]
fn parse_long(text: &[u8]) -> Result<Decimal, NumberFault>
    ensures { result ≡ number_of text.now }
{
    let Some(scan) = Scan::of(text) else {
        return Err(NumberFault::BadNumber);
    };
    if text.len() > MAX_LITERAL_LEN {
        return Err(NumberFault::LongNumber);
    }
    let Some((mantissa, zeros)) = scan.significand.parts() else {
        return Err(NumberFault::TooManyDigits);
    };
    if mantissa == 0 {
        return Ok(Decimal::zero());
    }
    let exponent = normal_exponent(scan.exponent, zeros, scan.places);
    in_range(scan.is_negative, mantissa, exponent)
}
