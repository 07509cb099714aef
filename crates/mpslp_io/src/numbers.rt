//! Numbers between other pieces of a text. Most numbers of a file have few digits, which are looked up and need no buffer.

ghost use Rattle.std.specs.Prelude.{◌≡◌, ◌+◌, ◌<◌, ◌++◌, IfSome, decimal, pos, unsigned_abs};
ghost use Rattle.mpslp_decimal.specs.Decimal.{size_of};
ghost use Rattle.mpslp_decimal.specs.NumberText.{number_text};
ghost use Rattle.mpslp_io.specs.Printing.{Puts};

use crate::devices::Sink;
use crate::output::Output;
use mpslp_decimal::{Decimal, DecimalText};

/// The whole numbers of at most two digits, each in two digits at twice its value.
const PAIRS: &[u8] =
    b"00010203040506070809101112131415161718192021222324252627282930313233343536373839404142434445464748495051525354555657585960616263646566676869707172737475767778798081828384858687888990919293949596979899";

/// The negative numbers of one digit, each at twice its size.
const NEGATIVES: &[u8] = b"-0-1-2-3-4-5-6-7-8-9";

/// The absolute value, if it is a whole number of at most two digits.
#[inline(always)]
fn small_size(value: Decimal) -> Option<usize>
    ensures { IfSome result (λ size. (unsigned_abs value.mantissa ≡ size) × (value.exponent ≡ pos 0) × (size < 100)) }
{
    if value.exponent() != 0 {
        return None;
    }
    let size = value.mantissa().unsigned_abs();
    if size >= 100 {
        return None;
    }
    Some(size as usize)
}

/// Puts a whole number of at most two digits between two pieces.
#[inline(always)]
fn put_small<W: Sink>(output: &mut Output<W>, front: &[u8], number: usize, back: &[u8])
    requires { number < 100 }
    ensures { Puts W.Sink output.old output.new (front.now ++ (decimal number ++ back.now)) }
{
    let at = 2 * number;
    if number < 10 {
        output.put_between(front, &PAIRS[at + 1..at + 2], back);
    } else {
        output.put_between(front, &PAIRS[at..at + 2], back);
    }
}

/// Puts a number of any size between two pieces.
#[inline(always)]
fn put_large<W: Sink>(output: &mut Output<W>, front: &[u8], value: Decimal, back: &[u8])
    ensures { Puts W.Sink output.old output.new (front.now ++ (number_text value ++ back.now)) }
{
    output.put(front);
    put_any(output, value);
    output.put(back);
}

/// Puts a number of any size.
#[inline(never)]
fn put_any<W: Sink>(output: &mut Output<W>, value: Decimal)
    ensures { Puts W.Sink output.old output.new (number_text value) }
{
    let mut text = DecimalText::new();
    output.put(text.put(value));
}

/// Puts the canonical text of a number between two pieces.
#[inline(always)]
pub fn put_number<W: Sink>(output: &mut Output<W>, front: &[u8], value: Decimal, back: &[u8])
    ensures { Puts W.Sink output.old output.new (front.now ++ (number_text value ++ back.now)) }
{
    match small_size(value) {
        Some(size) => put_signed(output, front, value, size, back),
        None => put_large(output, front, value, back),
    }
}

/// Puts the canonical text of a whole number of at most two digits, whose absolute value is this one, between two pieces.
#[inline(always)]
fn put_signed<W: Sink>(
    output: &mut Output<W>,
    front: &[u8],
    value: Decimal,
    size: usize,
    back: &[u8],
)
    requires { (unsigned_abs value.mantissa ≡ size) × (value.exponent ≡ pos 0) × (size < 100) }
    ensures { Puts W.Sink output.old output.new (front.now ++ (number_text value ++ back.now)) }
{
    if value.is_negative() {
        if size < 10 {
            let at = 2 * size;
            output.put_between(front, &NEGATIVES[at..at + 2], back);
        } else {
            put_large(output, front, value, back);
        }
    } else {
        put_small(output, front, size, back);
    }
}

/// Puts the canonical text of the absolute value of a number between two pieces.
#[inline(always)]
pub fn put_size<W: Sink>(output: &mut Output<W>, front: &[u8], value: Decimal, back: &[u8])
    ensures { Puts W.Sink output.old output.new (front.now ++ (number_text (size_of value) ++ back.now)) }
{
    match small_size(value) {
        Some(size) => put_small(output, front, size, back),
        None => put_large(output, front, value.abs(), back),
    }
}
