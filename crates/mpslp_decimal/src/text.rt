//! The canonical text of a decimal.

ghost use Rattle.std.specs.Prelude.{◌≡◌, ◌+◌, ◌≤◌, ◌++◌, ◌<◌, ℕ, List, [], length, replicate, unsigned_abs, decimal, IfSome, IsSome, pos};
ghost use Rattle.mpslp_decimal.specs.Decimal.{depth};
ghost use Rattle.mpslp_decimal.specs.NumberText.{most_places, number_text, sign_text, scaled_text, with_point};

use crate::number::Decimal;
use arrayvec::ArrayVec;
use itoa::Buffer;
use std::marker::Model;

/// Room for any text: at most a sign, the digits, a point and zeros or an exponent.
const CAPACITY: usize = 64;

/// The greatest exponent that is printed as zeros.
const MOST_ZEROS: i32 = 5;

/// The least exponent that is printed with a point.
const LEAST_WITH_POINT: i32 = -18;

/// Enough zeros for each text without an exponent part.
const ZEROS: &[u8] = b"00000000000000000000";

/// The least integer that is printed in 64 bits.
const SMALLEST: i128 = i64::MIN as i128;

/// The greatest integer that is printed in 64 bits.
const LARGEST: i128 = i64::MAX as i128;

/// The digits, each at the index of its value.
const DIGITS: &[u8] = b"0123456789";

impl Decimal {
    /// The canonical text of the number, if it is one digit; `None` for any other number. Many numbers of a file are digits, and
    /// their texts need no buffer.
    #[inline(always)]
    pub fn digit(self) -> Option<&'static [u8]>
        ensures text { IfSome result (λ digit. digit.now ≡ number_text self) }
        ensures found { (n : ℕ) → self.mantissa ≡ pos n → self.exponent ≡ pos 0 → n < 10 → IsSome result }
    {
        if self.exponent() != 0 {
            return None;
        }
        let mantissa = self.mantissa();
        if mantissa < 0 {
            return None;
        }
        if mantissa > 9 {
            return None;
        }
        let value = mantissa as usize;
        Some(&DIGITS[value..value + 1])
    }
}

/// Prints canonical texts of decimals, one after another, in a buffer of fixed size. Does not allocate.
#[derive(Drop)]
pub struct DecimalText {
    bytes: ArrayVec<u8, CAPACITY>,
    /// Where a small integer is printed, whose text is all digits after its sign.
    integer: Buffer,
}

impl Model for DecimalText {
    ghost Value = { List ℕ };

    ghost view = { λ t. t.bytes.items };
}

/// The digits of the absolute value of a mantissa. Most are short, and faster to print in 64 bits.
fn mantissa_digits(buffer: &mut Buffer, size: u128) -> &[u8]
    ensures digits { result.now ≡ decimal size }
    ensures short { length result.now ≤ 40 }
{
    if size <= u64::MAX as u128 {
        buffer.format(size as u64).as_bytes()
    } else {
        buffer.format(size).as_bytes()
    }
}

/// The mantissa of a decimal, if it fits in 64 bits and the exponent is 0.
#[inline(always)]
fn small_integer(value: Decimal) -> Option<i64>
    ensures { IfSome result (λ number. (value.mantissa ≡ number) × (value.exponent ≡ pos 0)) }
{
    if value.exponent() != 0 {
        return None;
    }
    let mantissa = value.mantissa();
    if mantissa < SMALLEST || mantissa > LARGEST {
        return None;
    }
    Some(mantissa as i64)
}

impl DecimalText {
    /// An empty buffer.
    pub fn new() -> DecimalText
        ensures { result ≡ [] }
    {
        DecimalText {
            bytes: ArrayVec::new(),
            integer: Buffer::new(),
        }
    }

    /// The canonical text of a decimal, valid until the next call.
    ///
    /// Zero is `0`. Exponents from 0 to 5 are printed as zeros, those from -18 to -1 with a point and a digit before it, and
    /// any other exponent after an `e`, as in `15e-20`.
    #[inline(always)]
    pub fn put(&mut self, value: Decimal) -> &[u8]
        ensures { result.now ≡ number_text value }
    {
        match small_integer(value) {
            Some(number) => self.integer.format(number).as_bytes(),
            None => self.put_scaled(value),
        }
    }

    /// The canonical text of a decimal of any size.
    #[inline(never)]
    fn put_scaled(&mut self, value: Decimal) -> &[u8]
        ensures { result.now ≡ number_text value }
    {
        self.clear();
        self.append_sign(value);
        let mut buffer = Buffer::new();
        let digits = mantissa_digits(&mut buffer, value.mantissa().unsigned_abs());
        self.append_scaled(digits, value.exponent());
        self.bytes.as_slice()
    }

    fn clear(&mut self)
        ensures { self.new ≡ [] }
    {
        self.bytes.clear();
    }

    fn append(&mut self, piece: &[u8])
        requires { length self.old + length piece.now ≤ CAPACITY }
        ensures { self.new ≡ self.old ++ piece.now }
    {
        let is_full = self.bytes.try_extend_from_slice(piece).is_err();
        prove!(!is_full);
    }

    /// Appends the digits before a point. Most often they are one or two, which are stored without a call.
    #[inline(always)]
    fn append_whole(&mut self, digits: &[u8])
        requires { length self.old + length digits.now ≤ CAPACITY }
        ensures { self.new ≡ self.old ++ digits.now }
    {
        match digits {
            [first] => self.append(&[*first]),
            [first, second] => self.append(&[*first, *second]),
            _ => self.append(digits),
        }
    }

    fn append_sign(&mut self, value: Decimal)
        requires { length self.old ≡ 0 }
        ensures { self.new ≡ self.old ++ sign_text value }
    {
        if value.mantissa() < 0 {
            self.append(b"-");
        }
    }

    /// Appends digits times ten to the exponent.
    fn append_scaled(&mut self, digits: &[u8], exponent: i32)
        requires room { length self.old ≤ 1 }
        requires digits { length digits.now ≤ 40 }
        requires exponent { unsigned_abs exponent ≤ depth }
        ensures { self.new ≡ self.old ++ scaled_text digits.now exponent }
    {
        match exponent {
            0..=MOST_ZEROS => {
                self.append(digits);
                self.append(&ZEROS[..exponent as usize]);
            }
            LEAST_WITH_POINT..=-1 => self.append_with_point(digits, -exponent as usize),
            _ => {
                self.append(digits);
                self.append(b"e");
                self.append(Buffer::new().format(exponent).as_bytes());
            }
        }
    }

    /// Appends digits with a point before the last places, with leading zeros if there are too few digits.
    fn append_with_point(&mut self, digits: &[u8], places: usize)
        requires room { length self.old ≤ 1 }
        requires digits { length digits.now ≤ 40 }
        requires places { places ≤ most_places }
        ensures { self.new ≡ self.old ++ with_point places digits.now }
    {
        if digits.len() > places {
            let (whole, fraction) = digits.split_at(digits.len() - places);
            self.append_whole(whole);
            self.append(b".");
            self.append(fraction);
        } else {
            self.append(b"0.");
            self.append(&ZEROS[..places - digits.len()]);
            self.append(digits);
        }
    }
}
