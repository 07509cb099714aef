//! Tests of the calls that declare a line of a column.

use super::calls::{built, named};
use super::{WITH_ROWS, first_absent, text_of_finished};
use crate::texts::number;
use mpslp_builder::{Builder, Entries, Entry, ReaderBuilder};
use mpslp_types::BuildFault;
use std::alloc::Global;
use std::test::Fail;

/// The coefficient of a row and a value, as in `r 2`.
fn entry_of(text: &str) -> Entry<'_> {
    let (row, value) = text.split_once(' ').unwrap_or((text, ""));
    Entry {
        row: row.as_bytes(),
        value: number(value),
    }
}

/// One coefficient, or two with a comma between them.
fn entries_of(text: &str) -> Entries<'_> {
    match text.split_once(", ") {
        Some((first, second)) => Entries {
            first: entry_of(first),
            second: Some(entry_of(second)),
        },
        None => Entries {
            first: entry_of(text),
            second: None,
        },
    }
}

/// Declares a line of the column of a text such as `first x` or `next x marked`. Whether it is taken.
fn declare(
    builder: &mut ReaderBuilder,
    alloc: Global,
    column: &str,
    entries: &Entries<'_>,
) -> Result<bool, BuildFault> {
    let mut words = column.split(' ');
    let place = words.next().unwrap_or("");
    let name = words.next().unwrap_or("");
    let is_marked = words.next().unwrap_or("") == "marked";
    if place == "first" {
        builder.first_line(named(alloc, name)?, is_marked, entries)
    } else {
        builder.next_line(name.as_bytes(), is_marked, entries)
    }
}

/// Declares the line before the arrow. Whether it is taken.
fn declare_line(
    builder: &mut ReaderBuilder,
    alloc: Global,
    line: &str,
) -> Result<bool, BuildFault> {
    let (column, entries) = line.split_once(": ").unwrap_or((line, ""));
    let Entries { first, second } = entries_of(entries);
    declare(builder, alloc, column, &Entries { first, second })
}

/// Lines in turn, and whether each is taken.
const LINES: &str = "\
first x: f 1, r 2 => taken
next x: s 3 => taken
next x: s 4 => not taken
first x: r 5 => not taken
first y marked: r 1, r 2 => not taken
first y marked: r 1, q 1 => not taken
next y marked: r 1 => not taken
first y marked: r 6 => taken
next y marked: s 7, f 8 => taken
next y marked: s 7, f 8 => not taken";

/// Declares the line before the arrow. Whether it is taken or not, as after the arrow.
fn is_right(builder: &mut ReaderBuilder, alloc: Global, line: &str) -> Result<bool, BuildFault> {
    let (line, expected) = line.split_once(" => ").unwrap_or((line, ""));
    let is_taken = declare_line(builder, alloc, line)?;
    let answer = if is_taken { "taken" } else { "not taken" };
    Ok(answer == expected)
}

/// The first line with another result.
fn first_wrong<'a>(
    builder: &mut ReaderBuilder,
    alloc: Global,
    lines: &'a str,
) -> Result<Option<&'a str>, BuildFault> {
    for line in lines.lines() {
        if !is_right(builder, alloc, line)? {
            return Ok(Some(line));
        }
    }
    Ok(None)
}

/// A builder after these lines, and the first of them with another result, after which none is declared.
fn with_lines<'a>(alloc: Global, lines: &'a str) -> Result<(Builder, Option<&'a str>), BuildFault> {
    let draft = built(alloc, WITH_ROWS)?;
    let mut builder = ReaderBuilder { draft };
    let wrong = first_wrong(&mut builder, alloc, lines)?;
    Ok((builder.draft, wrong))
}

/// The first line of one builder with another result, and the accessors' results after the lines up to it.
fn outcome_of_lines<'a>(
    alloc: Global,
    lines: &'a str,
) -> Result<(Option<&'a str>, Vec<u8>), BuildFault> {
    let (builder, wrong) = with_lines(alloc, lines)?;
    Ok((wrong, text_of_finished(alloc, builder)?))
}

/// Lines of the model.
const EXPECTED: &str = "\
column x continuous 0 inf objective 1
column y integer 0 1 objective 8
entry r 2 2
entry s 3 3
entry r 6 6
entry s 7 7";

#[test]
fn declares_lines_of_columns(rt: HostRuntime) -> Result<(), Fail> {
    let (wrong, views) = outcome_of_lines(rt.alloc(), LINES)?;
    let absent = first_absent(&views, EXPECTED);
    assert_eq!(rt; (wrong, absent), (None, None));
    Ok(())
}
