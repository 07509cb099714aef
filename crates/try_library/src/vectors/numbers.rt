//! What is checked of numbers: the decimal of a literal, its text, and exact sums and differences.

use crate::vectors::tables::field;
use mpslp_decimal::{Decimal, DecimalText, NumberFault};
use std::io;

fn name_of(fault: NumberFault) -> &'static str {
    match fault {
        NumberFault::BadNumber => "BadNumber",
        NumberFault::LongNumber => "LongNumber",
        NumberFault::TooManyDigits => "TooManyDigits",
        NumberFault::ExponentRange => "ExponentRange",
    }
}

/// A table of numbers.
#[derive(Clone, Copy)]
pub(crate) enum NumberTable {
    Literals,
    Sums,
}

impl NumberTable {
    /// Its file.
    pub(crate) fn path(self) -> &'static str {
        match self {
            NumberTable::Literals => "literals.tsv",
            NumberTable::Sums => "sums.tsv",
        }
    }

    /// Whether a line of it is right.
    pub(crate) fn is_right(self, fields: &[&str]) -> io::Result<bool> {
        match self {
            NumberTable::Literals => is_read(fields),
            NumberTable::Sums => is_sum(fields),
        }
    }
}

/// Whether a decimal has this mantissa and this exponent.
fn is_pair(value: Decimal, mantissa: &str, exponent: &str) -> bool {
    let is_mantissa = matches!(mantissa.parse::<i128>(), Ok(wanted) if wanted == value.mantissa());
    let is_exponent = matches!(exponent.parse::<i32>(), Ok(wanted) if wanted == value.exponent());
    is_mantissa && is_exponent
}

/// Whether the literal of a line of `literals.tsv` has the decimal and the text, or the error, of the line.
fn is_read(fields: &[&str]) -> io::Result<bool> {
    match Decimal::parse(field(fields, 0)?.as_bytes()) {
        Ok(value) => {
            let mut text = DecimalText::new();
            Ok(
                field(fields, 1)? == "decimal"
                    && is_pair(value, field(fields, 2)?, field(fields, 3)?)
                    && text.put(value) == field(fields, 4)?.as_bytes(),
            )
        }
        Err(fault) => Ok(field(fields, 1)? == name_of(fault)),
    }
}

/// The sum or the difference of two literals, if it is a decimal.
fn sum_of(first: &str, sign: &str, second: &str) -> Result<Option<Decimal>, NumberFault> {
    let first = Decimal::parse(first.as_bytes())?;
    let second = Decimal::parse(second.as_bytes())?;
    if sign == "+" {
        Ok(first.checked_add(second))
    } else {
        Ok(first.checked_sub(second))
    }
}

/// Whether the sum or the difference of a line of `sums.tsv` is the decimal of the line, or none.
fn is_sum(fields: &[&str]) -> io::Result<bool> {
    let answer = field(fields, 3)?;
    match sum_of(field(fields, 0)?, field(fields, 1)?, field(fields, 2)?) {
        Ok(Some(value)) => {
            let is_wanted = is_pair(value, field(fields, 4)?, field(fields, 5)?);
            Ok(answer == "decimal" && is_wanted)
        }
        Ok(None) => Ok(answer == "none"),
        Err(_) => Ok(false),
    }
}
