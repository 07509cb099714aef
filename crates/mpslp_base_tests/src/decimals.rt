//! Tests of literals, texts and queries of decimals, through the public calls.

use mpslp_decimal::{Decimal, DecimalText, NumberFault, PackedDecimal, laws};
use std::alloc::{AllocError, Global};
use std::test::Fail;

/// Literals of few digits, and their canonical texts.
const SHORT: &str = "\
-0.0 0
0e999 0
0e99999999999999999999999999999999999999 0
.5 0.5
3. 3
1.50 1.5
+7 7
000000000000000000000000000001 1";

/// Literals of many digits, and their canonical texts.
const LONG: &str = "\
123456789012345678 123456789012345678
1234567890123456780 1234567890123456780
1234567890123456789 1234567890123456789
0.1234567890123456789 1234567890123456789e-19
18446744073709551615 18446744073709551615
-18446744073709551616 -18446744073709551616
123456789012345678901234567890123456 123456789012345678901234567890123456
-999999999999999999999999999999999999.00 -999999999999999999999999999999999999
1234567890123456789012345678901234560e-10 123456789012345678901234567.890123456";

/// Literals with an exponent and others, and their canonical texts.
const WITH_EXPONENT: &str = "\
1e5 100000
1e6 1e6
12.50e-20 125e-21
-15e-18 -0.000000000000000015
123456789012345678e-18 0.123456789012345678
-123456789012345678e-17 -1.23456789012345678
1e500 1e500
1000e497 1e500
1E-500 1e-500
3.0000000000 3
-1e+00 -1";

/// Texts that are rejected, and their errors. A text ends before the colon.
const REFUSED: &str = "\
:BadNumber
.:BadNumber
e5:BadNumber
1e:BadNumber
1e+:BadNumber
+-1:BadNumber
1 :BadNumber
1.2.3:BadNumber
1x:BadNumber
1e5.0:BadNumber
inf:BadNumber
1234567890123456789012345678901234567:TooManyDigits
1000000000000000000000000000000000001e600:TooManyDigits
1e501:ExponentRange
10e500:ExponentRange
1e-99999999999999999999999999999999999:ExponentRange";

/// Whether a literal has this canonical text.
fn has_text(literal: &[u8], want: &str) -> bool {
    let mut text = DecimalText::new();
    match Decimal::parse(literal) {
        Ok(value) => text.put(value) == want.as_bytes(),
        Err(_) => false,
    }
}

/// Whether a literal has the canonical text after it.
fn is_printed(line: &str) -> bool {
    let (literal, want) = line.split_once(' ').unwrap_or((line, ""));
    has_text(literal.as_bytes(), want)
}

/// Literals, each with its digit, or with `none` if its number is not a digit.
const DIGITS: &str = "0 0
-0 0
1 1
9 9
9.0 9
70e-1 7
10 none
-1 none
0.5 none
1e1 none";

/// Whether the number of a literal is the digit after it.
fn has_digit(line: &str) -> bool {
    let (literal, want) = line.split_once(' ').unwrap_or((line, ""));
    match Decimal::parse(literal.as_bytes()) {
        Ok(value) => value.digit().unwrap_or(b"none") == want.as_bytes(),
        Err(_) => false,
    }
}

/// The name of the error of a text that is no decimal.
fn fault_of(text: &[u8]) -> &'static str {
    match Decimal::parse(text) {
        Ok(_) => "",
        Err(NumberFault::BadNumber) => "BadNumber",
        Err(NumberFault::LongNumber) => "LongNumber",
        Err(NumberFault::TooManyDigits) => "TooManyDigits",
        Err(NumberFault::ExponentRange) => "ExponentRange",
    }
}

/// Whether a text has the error after the colon.
fn is_refused(line: &str) -> bool {
    match line.split_once(':') {
        Some((text, fault)) => fault_of(text.as_bytes()) == fault,
        None => false,
    }
}

#[test]
fn reads_and_prints_short_literals(rt: HostRuntime) {
    for line in SHORT.lines() {
        assert!(rt; is_printed(line), "at {line}");
    }
}

#[test]
fn reads_and_prints_long_literals(rt: HostRuntime) {
    for line in LONG.lines() {
        assert!(rt; is_printed(line), "at {line}");
    }
}

#[test]
fn reads_and_prints_scaled_literals(rt: HostRuntime) {
    for line in WITH_EXPONENT.lines() {
        assert!(rt; is_printed(line), "at {line}");
    }
}

#[test]
fn returns_the_text_of_a_digit(rt: HostRuntime) {
    for line in DIGITS.lines() {
        assert!(rt; has_digit(line), "at {line}");
    }
}

#[test]
fn refuses_what_is_no_decimal(rt: HostRuntime) {
    for line in REFUSED.lines() {
        assert!(rt; is_refused(line), "at {line}");
    }
}

/// The digit 1, so many zeros, and an end.
fn long_literal(alloc: Global, zeros: usize, end: &[u8]) -> Result<Vec<u8>, AllocError> {
    let mut literal = vec![in alloc; b'0'; zeros]?;
    literal.insert(0, b'1')?;
    literal.extend_from_slice(end)?;
    Ok(literal)
}

/// Whether a 1 and 254 zeros, 255 bytes, are a literal, and the errors of two longer texts.
fn of_long_literals(alloc: Global) -> Result<(bool, [&'static str; 2]), AllocError> {
    let is_taken = has_text(&long_literal(alloc, 254, b"")?, "1e254");
    let too_long = fault_of(&long_literal(alloc, 255, b"")?);
    let no_number = fault_of(&long_literal(alloc, 255, b"x")?);
    Ok((is_taken, [too_long, no_number]))
}

#[test]
fn keeps_the_limit_of_length(rt: HostRuntime) -> Result<(), Fail> {
    let (is_taken, faults) = of_long_literals(rt.alloc())?;
    assert!(rt; is_taken);
    assert_eq!(rt; faults, ["LongNumber", "BadNumber"]);
    Ok(())
}

/// Literals with the mantissa and the exponent of their value.
const PARTS: &str = "\
-0.0 0 0
0e999 0 0
000000000000000000000000000001 1 0
1234567890123456780 123456789012345678 1
12.50e-20 125 -21
-15e-18 -15 -18
1e500 1 500
1000e497 1 500
1000000000000000000 1 18";

/// Whether the literal of a line has the mantissa and the exponent after it.
fn has_parts(line: &str) -> Result<bool, NumberFault> {
    let mut words = line.split(' ');
    let value = Decimal::parse(words.next().unwrap_or("").as_bytes())?;
    let mantissa = words.next().unwrap_or("").parse::<i128>().ok();
    let exponent = words.next().unwrap_or("").parse::<i32>().ok();
    Ok((mantissa, exponent) == (Some(value.mantissa()), Some(value.exponent())))
}

#[test]
fn mantissas_do_not_end_with_0(rt: HostRuntime) -> Result<(), Fail> {
    for line in PARTS.lines() {
        assert!(rt; has_parts(line)?, "at {line}");
    }
    Ok(())
}

/// Whether a number is negative, and whether it is zero.
fn signs(value: Decimal) -> (bool, bool) {
    (value.is_negative(), value.is_zero())
}

/// Whether the second number is the opposite of the first, and the absolute value of both.
fn are_opposite(value: Decimal, opposite: Decimal) -> [bool; 3] {
    [
        value.negate() == opposite,
        value.abs() == opposite,
        opposite.abs() == opposite,
    ]
}

#[test]
fn answers_what_is_asked_of_a_decimal(rt: HostRuntime) -> Result<(), Fail> {
    let value = Decimal::parse(b"-12.50")?;
    let opposite = Decimal::parse(b"12.5")?;
    let zero = Decimal::parse(b"-0e5")?;
    let parts = (value.mantissa(), value.exponent());
    let signs = [signs(value), signs(opposite), signs(Decimal::zero())];
    assert_eq!(rt; parts, (-125, -1));
    assert_eq!(rt; signs, [(true, false), (false, false), (false, true)]);
    assert_eq!(rt; are_opposite(value, opposite), [true; 3]);
    assert!(rt; Decimal::zero() == zero);
    Ok(())
}

/// Literals of infinite size, separated by spaces.
const INFINITE: &str = "1e20 -1e20 100000000000000001000 1e500 -1e30";

/// Literals of finite size, separated by spaces.
const FINITE: &str = "99999999999999999900 1e19 0 1e-500";

fn is_infinite(literal: &str) -> Result<bool, NumberFault> {
    Ok(Decimal::parse(literal.as_bytes())?.is_infinite_size())
}

/// The first of these literals that is of infinite size, or that is not.
fn first_with(literals: &str, is_wanted: bool) -> Result<Option<&str>, NumberFault> {
    for literal in literals.split(' ') {
        if is_infinite(literal)? == is_wanted {
            return Ok(Some(literal));
        }
    }
    Ok(None)
}

#[test]
fn sizes_are_infinite_from_10_to_the_20_on(rt: HostRuntime) -> Result<(), Fail> {
    let finite = first_with(INFINITE, false)?;
    let infinite = first_with(FINITE, true)?;
    assert_eq!(rt; (finite, infinite), (None, None));
    Ok(())
}

/// Two literals, and their sum or `none` if it is no decimal.
const SUMS: &str = "\
0.1 0.2 0.3
999999999999999999 1 1e18
999999999999999999 0.1 999999999999999999.1
999999999999999999999999999999999999 1 1e36
999999999999999999999999999999999999 0.1 none
999999999999999999999999999999999999 999999999999999999999999999999999999 none
-999999999999999999999999999999999999 999999999999999999999999999999999998 -1
5e500 5e500 none
1 -1 0
0 1e-500 1e-500
1e500 0 1e500
1e17 1 100000000000000001
1e18 1 1000000000000000001
1e36 1 none
1e500 1e-500 none";

/// Whether the third number is the sum of the others, and their difference with the second number negated.
fn is_sum(left: Decimal, right: Decimal, sum: Option<Decimal>) -> bool {
    left.checked_add(right) == sum && left.checked_sub(right.negate()) == sum
}

/// Whether the third word of a line is the sum of the two before it.
fn has_its_sum(line: &str) -> Result<bool, NumberFault> {
    let mut words = line.split(' ');
    let left = Decimal::parse(words.next().unwrap_or("").as_bytes())?;
    let right = Decimal::parse(words.next().unwrap_or("").as_bytes())?;
    let sum = match words.next().unwrap_or("") {
        "none" => None,
        literal => Some(Decimal::parse(literal.as_bytes())?),
    };
    Ok(is_sum(left, right, sum))
}

#[test]
fn adds_and_subtracts_exactly(rt: HostRuntime) -> Result<(), Fail> {
    for line in SUMS.lines() {
        assert!(rt; has_its_sum(line)?, "at {line}");
    }
    Ok(())
}

/// Literals whose values rise.
const RISING: &str = "\
-1e500
-1e36
-1
-1e-500
0
1e-500
0.5
1
1.5
1e20
999999999999999999999999999999999999
1e36
1e37
1e500";

/// Whether two literals have the order of their places, and the same value only at the same place.
fn are_in_order(one: (usize, &str), other: (usize, &str)) -> Result<bool, NumberFault> {
    let value = Decimal::parse(one.1.as_bytes())?;
    let other_value = Decimal::parse(other.1.as_bytes())?;
    let is_ordered = value.cmp(&other_value) == one.0.cmp(&other.0);
    Ok(is_ordered && value.has_same_value(other_value) == (one.0 == other.0))
}

/// Literals of the value 1500, separated by spaces.
const SAME: &str = "1500 1.5e3 1500.00 +0.15E+4";

#[test]
fn spellings_of_a_number_have_the_same_value(rt: HostRuntime) -> Result<(), Fail> {
    let value = Decimal::parse(b"1500")?;
    for literal in SAME.split(' ') {
        let other = Decimal::parse(literal.as_bytes())?;
        assert!(rt; value.has_same_value(other), "at {literal}");
    }
    Ok(())
}

#[test]
fn orders_by_value(rt: HostRuntime) -> Result<(), Fail> {
    for one in RISING.lines().enumerate() {
        for other in RISING.lines().enumerate() {
            assert!(rt; are_in_order(one, other)?, "at {} and {}", one.1, other.1);
        }
    }
    Ok(())
}

/// Literals of the least and the greatest parts, separated by spaces.
const PACKED: &str =
    "0 -1 0.1 999999999999999999999999999999999999e464 -999999999999999999999999999999999999e-500 1e500";

fn is_packed(literal: &str) -> Result<bool, NumberFault> {
    let value = Decimal::parse(literal.as_bytes())?;
    Ok(PackedDecimal::of(value).value() == value)
}

#[test]
fn packs_decimals(rt: HostRuntime) -> Result<(), Fail> {
    for literal in PACKED.split(' ') {
        assert!(rt; is_packed(literal)?, "at {literal}");
    }
    Ok(())
}

#[test]
fn laws_can_be_called() {
    laws::one_form_of_a_decimal();
    laws::literals_are_read_by_value();
    laws::decimal_text_is_read_back();
    laws::one_text_of_a_decimal();
    laws::decimal_order_is_by_value();
    laws::decimal_sums_are_exact();
}
