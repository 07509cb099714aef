//! Decimals: literals, canonical texts, sums and the order.

use mpslp_decimal::{Decimal, DecimalText, NumberFault};

/// Literals, each with its mantissa, its exponent and its canonical text.
const LITERALS: [(&str, i128, i32, &str); 18] = [
    ("-0.0", 0, 0, "0"),
    ("0e999", 0, 0, "0"),
    (".5", 5, -1, "0.5"),
    ("3.", 3, 0, "3"),
    ("1.50", 15, -1, "1.5"),
    ("000000000000000000000000000001", 1, 0, "1"),
    (
        "123456789012345678",
        123456789012345678,
        0,
        "123456789012345678",
    ),
    (
        "1234567890123456789",
        1234567890123456789,
        0,
        "1234567890123456789",
    ),
    (
        "1234567890123456780",
        123456789012345678,
        1,
        "1234567890123456780",
    ),
    (
        "0.1234567890123456789",
        1234567890123456789,
        -19,
        "1234567890123456789e-19",
    ),
    (
        "123456789012345678901234567890123456",
        123456789012345678901234567890123456,
        0,
        "123456789012345678901234567890123456",
    ),
    ("1e5", 1, 5, "100000"),
    ("1e6", 1, 6, "1e6"),
    ("12.50e-20", 125, -21, "125e-21"),
    ("-15e-18", -15, -18, "-0.000000000000000015"),
    ("1e500", 1, 500, "1e500"),
    ("1000e497", 1, 500, "1e500"),
    ("-2.5E+1", -25, 0, "-25"),
];

/// Whether a literal has this value and text.
fn is_read(literal: &str, mantissa: i128, exponent: i32, wanted: &str) -> bool {
    let mut text = DecimalText::new();
    match Decimal::parse(literal.as_bytes()) {
        Ok(value) => {
            let is_value = value.mantissa() == mantissa && value.exponent() == exponent;
            is_value && text.put(value) == wanted.as_bytes()
        }
        Err(_) => false,
    }
}

#[test]
fn literals_have_values_and_texts(rt: HostRuntime) {
    for (literal, mantissa, exponent, wanted) in LITERALS {
        assert!(rt;
            is_read(literal, mantissa, exponent, wanted),
            "at {literal}"
        );
    }
}

/// Texts that are no literal of a decimal, and why.
const REJECTED: [(&str, NumberFault); 9] = [
    ("", NumberFault::BadNumber),
    (".", NumberFault::BadNumber),
    ("e5", NumberFault::BadNumber),
    ("1e", NumberFault::BadNumber),
    ("+-1", NumberFault::BadNumber),
    ("1 ", NumberFault::BadNumber),
    (
        "1234567890123456789012345678901234567",
        NumberFault::TooManyDigits,
    ),
    ("1e501", NumberFault::ExponentRange),
    ("10e500", NumberFault::ExponentRange),
];

#[test]
fn other_texts_are_rejected(rt: HostRuntime) {
    for (text, fault) in REJECTED {
        assert_eq!(rt; Decimal::parse(text.as_bytes()), Err(fault), "at {text}");
    }
    let mut literal = [b'0'; 256];
    literal[0] = b'1';
    let mut text = DecimalText::new();
    let longest = match Decimal::parse(&literal[..255]) {
        Ok(value) => text.put(value) == b"1e254".as_slice(),
        Err(_) => false,
    };
    assert!(rt; longest);
    assert_eq!(rt; Decimal::parse(&literal), Err(NumberFault::LongNumber));
}

/// The decimal of a literal, or zero.
pub(crate) fn number(literal: &str) -> Decimal {
    match Decimal::parse(literal.as_bytes()) {
        Ok(value) => value,
        Err(_) => Decimal::zero(),
    }
}

#[test]
fn sums_are_exact(rt: HostRuntime) {
    assert_eq!(rt;
        number("0.1").checked_add(number("0.2")),
        Some(number("0.3"))
    );
    assert_eq!(rt;
        number("999999999999999999").checked_add(number("1")),
        Some(number("1e18"))
    );
    assert_eq!(rt;
        number("999999999999999999").checked_add(number("0.1")),
        Some(number("999999999999999999.1"))
    );
    assert_eq!(rt; number("5e500").checked_add(number("5e500")), None);
    assert_eq!(rt; number("1").checked_sub(number("1")), Some(Decimal::zero()));
}

#[test]
fn decimals_are_compared_by_value(rt: HostRuntime) {
    let (below, least, most) = (number("-1"), number("1e-500"), number("1"));
    let are_rising = [
        below < Decimal::zero(),
        Decimal::zero() < least,
        least < most,
    ];
    assert_eq!(rt; are_rising, [true; 3]);
    assert_eq!(rt; number("1.50"), number("15e-1"));
    assert_eq!(rt; number("-3").negate(), number("3"));
    let are_zero = [
        Decimal::zero().is_zero(),
        number("0e7").is_zero(),
        number("1").is_zero(),
    ];
    assert_eq!(rt; are_zero, [true, true, false]);
    let are_infinite = [
        number("1e20").is_infinite_size(),
        number("-9e19").is_infinite_size(),
    ];
    assert_eq!(rt; are_infinite, [true, false]);
}
