//! How fast number literals are read and printed.
//!
//! They come from standard input, one a line. The number of literals is printed on standard output, and the best speed of several
//! rounds, in millions of numbers a second, on standard error.

use bstr::ByteSlice;
use mpslp_decimal::{Decimal, DecimalText};
use std::alloc::{AllocError, Global};
use std::io;
use std::io::Read;
use std::rt::Clock;
use std::time::Instant;

const ROUNDS: usize = 5;

/// Appends the decimals of the lines that are literals.
fn parse_lines(text: &[u8], numbers: &mut Vec<Decimal>) -> Result<(), AllocError> {
    for line in text.lines() {
        if let Ok(number) = Decimal::parse(line) {
            numbers.push(number)?;
        }
    }
    Ok(())
}

/// Prints all numbers, and returns the total length of their texts in bytes.
fn put_all(numbers: &[Decimal]) -> usize {
    let mut text = DecimalText::new();
    let mut bytes = 0usize;
    for number in numbers {
        bytes = bytes.wrapping_add(text.put(*number).len());
    }
    bytes
}

fn micros(rt: &impl Clock, start: Instant) -> io::Result<u128> {
    Ok(start.elapsed(rt)?.as_micros().max(1))
}

/// Prints a speed with one decimal place.
fn report(rt: &impl Eprint, name: &str, count: usize, micros: u128) -> io::Result<()> {
    let tenths = (count as u128).saturating_mul(10) / micros.max(1);
    eprintln!(rt; "{name} {}.{} million/s", tenths / 10, tenths % 10)
}

/// Reads and prints the literals, and prints their number and the speeds.
pub(crate) fn measure_numbers<R: Input + Print + Eprint + Clock + AllocGlobal>(
    rt: &R,
    alloc: Global,
) -> io::Result<()> {
    let mut text = Vec::new(alloc);
    rt.reader().read_to_end(&mut text)?;
    let mut numbers = Vec::new(alloc);
    let mut parse_time = u128::MAX;
    let mut put_time = u128::MAX;
    let mut bytes = 0;
    for _ in 0..ROUNDS {
        numbers.clear();
        let start = Instant::now(rt)?;
        parse_lines(text.as_slice(), &mut numbers)?;
        parse_time = parse_time.min(micros(rt, start)?);
        let start = Instant::now(rt)?;
        bytes = put_all(numbers.as_slice());
        put_time = put_time.min(micros(rt, start)?);
    }
    report(rt, "Decimal::parse", numbers.len(), parse_time)?;
    report(rt, "DecimalText::put", numbers.len(), put_time)?;
    println!(rt;
        "{} numbers, {bytes} bytes of canonical text",
        numbers.len()
    )
}
