//! Checks of the library's calls on the files of `vectors/`, whose README says what the results are.
//!
//! They are read from the directory in which the program runs. For each table the number of checks is printed. Each unexpected
//! result is reported on standard error with the name of its input.

mod answers;
mod checks;
mod failing;
mod numbers;
mod tables;

use crate::inputs::content;
use checks::{
    compares, is_converted, is_converted_in_large_pieces, is_judged, is_read_in_two_pieces,
    is_shown, is_too_long_by_one, keeps_its_texts,
};
use failing::{
    is_written_after_each_byte, shows_after_each_byte, stops_after_each_byte, stops_in_each_read,
};
use mpslp_convert::Form;
use numbers::NumberTable;
use std::alloc::{AllocError, Global};
use std::io;
use std::rt::Files;
use tables::{
    Entry, Expected, entries, entry_named, entry_of_text, field, fields, format_of, number, table,
};

/// The number of checks, and of unexpected results.
#[derive(Drop)]
struct Tally {
    tried: u64,
    wrong: u64,
}

impl Tally {
    fn new() -> Tally {
        Tally { tried: 0, wrong: 0 }
    }

    /// Counts a check of an input, and reports it if it failed.
    fn note<R: Eprint>(
        &mut self,
        rt: &R,
        is_right: bool,
        place: &str,
        what: &str,
    ) -> io::Result<()> {
        self.tried = self.tried.saturating_add(1);
        if is_right {
            return Ok(());
        }
        self.wrong = self.wrong.saturating_add(1);
        eprintln!(rt; "{place}: {what}")
    }

    /// Prints the number of checks of a table, and returns whether all passed.
    fn end<R: Print>(&self, rt: &R, what: &str) -> io::Result<bool> {
        println!(rt;
            "{what}: {} tried, {} answered in another way",
            self.tried, self.wrong
        )?;
        Ok(self.wrong == 0)
    }
}

/// Checks an input of the index.
fn try_entry<R: Eprint>(rt: &R, alloc: Global, tally: &mut Tally, entry: &Entry) -> io::Result<()> {
    let name = entry.name.as_str();
    let text = entry.text.as_slice();
    let expected = &entry.expected;
    tally.note(
        rt,
        is_converted(alloc, entry.format, text, expected),
        name,
        "converted",
    )?;
    tally.note(
        rt,
        is_shown(alloc, entry.format, text, expected),
        name,
        "shown",
    )?;
    tally.note(
        rt,
        is_read_in_two_pieces(alloc, entry.format, text, expected),
        name,
        "read in two pieces",
    )?;
    tally.note(rt, is_too_long_by_one(alloc, entry), name, "limited")?;
    tally.note(rt, is_judged(alloc, entry), name, "judged")?;
    tally.note(
        rt,
        keeps_its_texts(alloc, entry),
        name,
        "converted and back",
    )
}

/// Checks each input of the index.
fn try_index<R: Print + Eprint>(rt: &R, alloc: Global, entries: &[Entry]) -> io::Result<bool> {
    let mut tally = Tally::new();
    for entry in entries {
        try_entry(rt, alloc, &mut tally, entry)?;
    }
    tally.end(rt, "inputs")
}

/// Checks each pair of inputs of the index.
fn try_pairs<R: Print + Eprint>(rt: &R, alloc: Global, entries: &[Entry]) -> io::Result<bool> {
    let mut tally = Tally::new();
    for first in entries {
        for second in entries {
            let is_right = compares(alloc, first, second);
            tally.note(rt, is_right, first.name.as_str(), second.name.as_str())?;
        }
    }
    tally.end(rt, "comparisons")
}

/// Checks each input of the index with devices that fail.
fn try_failing<R: Print + Eprint>(rt: &R, alloc: Global, entries: &[Entry]) -> io::Result<bool> {
    let mut tally = Tally::new();
    for entry in entries {
        let name = entry.name.as_str();
        tally.note(rt, stops_in_each_read(alloc, entry), name, "failing reads")?;
        tally.note(
            rt,
            stops_after_each_byte(alloc, entry, Form::Mps),
            name,
            "failing writes of MPS",
        )?;
        tally.note(
            rt,
            stops_after_each_byte(alloc, entry, Form::Lp),
            name,
            "failing writes of LP",
        )?;
        tally.note(
            rt,
            shows_after_each_byte(alloc, entry),
            name,
            "failing writes of what is shown",
        )?;
        tally.note(
            rt,
            is_written_after_each_byte(alloc, entry),
            name,
            "failing writes of a model",
        )?;
    }
    tally.end(rt, "failing devices")
}

/// A text in which these lines replace the one of a number, counted from 1.
fn with_lines(
    alloc: Global,
    text: &[u8],
    number: usize,
    lines: &[&str],
) -> Result<Vec<u8>, AllocError> {
    let mut changed = Vec::new(alloc);
    let mut reached = 1_usize;
    for byte in text {
        if reached != number {
            changed.push(*byte)?;
        }
        if *byte == b'\n' {
            if reached == number {
                for line in lines {
                    changed.extend_from_slice(line.as_bytes())?;
                    changed.push(b'\n')?;
                }
            }
            reached = reached.saturating_add(1);
        }
    }
    Ok(changed)
}

/// Checks the input of a line of `changed-lines.tsv`.
fn try_changed_line<R: Eprint>(
    rt: &R,
    alloc: Global,
    tally: &mut Tally,
    entries: &[Entry],
    line: &str,
) -> io::Result<()> {
    let fields = fields(alloc, line)?;
    let entry = entry_named(entries, field(&fields, 1)?)?;
    let lines = &fields[fields.len().min(4)..];
    let text = with_lines(alloc, &entry.text, number(&fields, 2)?, lines)?;
    let expected = Expected::fault(alloc, field(&fields, 3)?)?;
    tally.note(
        rt,
        is_converted(alloc, entry.format, &text, &expected)
            && is_read_in_two_pieces(alloc, entry.format, &text, &expected),
        line,
        "changed line",
    )
}

fn try_changed_lines<R: Files + Print + Eprint>(
    rt: &R,
    alloc: Global,
    entries: &[Entry],
) -> io::Result<bool> {
    let mut tally = Tally::new();
    for line in table(rt, alloc, "changed-lines.tsv")?
        .as_str()
        .lines()
        .skip(1)
    {
        try_changed_line(rt, alloc, &mut tally, entries, line)?;
    }
    tally.end(rt, "changed lines")
}

/// A line of `cuts.tsv`: the beginnings of a file, from the shortest to the longest.
#[derive(Clone, Copy)]
struct Cuts<'a> {
    line: &'a str,
    name: &'a str,
    shortest: usize,
    longest: usize,
    answer: &'a str,
}

impl<'a> Cuts<'a> {
    fn of_line(alloc: Global, line: &'a str) -> io::Result<Cuts<'a>> {
        Cuts::of_fields(line, &fields(alloc, line)?)
    }

    fn of_fields(line: &'a str, fields: &[&'a str]) -> io::Result<Cuts<'a>> {
        Ok(Cuts {
            line,
            name: field(fields, 0)?,
            shortest: number(fields, 1)?,
            longest: number(fields, 2)?,
            answer: field(fields, 3)?,
        })
    }

    fn format(&self) -> Form {
        format_of(self.name)
    }
}

/// Checks that each beginning of a text that a line names has this result.
fn try_each_cut<R: Eprint>(
    rt: &R,
    alloc: Global,
    tally: &mut Tally,
    cuts: &Cuts<'_>,
    text: &[u8],
    expected: &Expected,
) -> io::Result<()> {
    for len in cuts.shortest..=cuts.longest {
        let is_right = is_converted(alloc, cuts.format(), &text[..len.min(text.len())], expected);
        tally.note(rt, is_right, cuts.name, cuts.line)?;
    }
    Ok(())
}

/// Checks the inputs of a line of `cuts.tsv`, which are cut from this text.
fn try_cuts_of<R: Eprint>(
    rt: &R,
    alloc: Global,
    tally: &mut Tally,
    entries: &[Entry],
    cuts: &Cuts<'_>,
    text: &[u8],
) -> io::Result<()> {
    if cuts.answer == "model" {
        let entry = entry_of_text(entries, cuts.format(), text)?;
        return try_each_cut(rt, alloc, tally, cuts, text, &entry.expected);
    }
    let expected = Expected::fault(alloc, cuts.answer)?;
    try_each_cut(rt, alloc, tally, cuts, text, &expected)
}

fn try_cuts<R: Files + Print + Eprint>(
    rt: &R,
    alloc: Global,
    entries: &[Entry],
) -> io::Result<bool> {
    let mut tally = Tally::new();
    for line in table(rt, alloc, "cuts.tsv")?.as_str().lines().skip(1) {
        let cuts = Cuts::of_line(alloc, line)?;
        let text = content(rt, alloc, cuts.name)?;
        try_cuts_of(rt, alloc, &mut tally, entries, &cuts, &text)?;
    }
    tally.end(rt, "cuts")
}

/// Checks the inputs of a line of `single-bytes.tsv`.
fn try_bytes_of<R: Eprint>(rt: &R, alloc: Global, tally: &mut Tally, line: &str) -> io::Result<()> {
    let fields = fields(alloc, line)?;
    let format = format_of(field(&fields, 0)?);
    let expected = Expected::fault(alloc, field(&fields, 3)?)?;
    for byte in number(&fields, 1)?..=number(&fields, 2)? {
        let text = [(byte % 256) as u8];
        tally.note(
            rt,
            is_converted(alloc, format, &text, &expected),
            line,
            "single byte",
        )?;
    }
    Ok(())
}

fn try_bytes<R: Files + Print + Eprint>(rt: &R, alloc: Global) -> io::Result<bool> {
    let mut tally = Tally::new();
    for line in table(rt, alloc, "single-bytes.tsv")?
        .as_str()
        .lines()
        .skip(1)
    {
        try_bytes_of(rt, alloc, &mut tally, line)?;
    }
    tally.end(rt, "single bytes")
}

/// The input of a line of `long-lines.tsv`: a comment, followed by the text.
fn after_comment(alloc: Global, fields: &[&str], text: &[u8]) -> io::Result<Vec<u8>> {
    let mut bytes = field(fields, 0)?.as_bytes().to_vec(alloc)?;
    let further = field(fields, 1)?.as_bytes();
    for _ in 1..number(fields, 2)? {
        bytes.extend_from_slice(further)?;
    }
    let end: &[u8] = if field(fields, 3)? == "LF" {
        b"\n"
    } else {
        b"\r\n"
    };
    bytes.extend_from_slice(end)?;
    bytes.extend_from_slice(text)?;
    Ok(bytes)
}

/// Checks the input of a line of `long-lines.tsv`.
fn try_long_line<R: Eprint>(
    rt: &R,
    alloc: Global,
    tally: &mut Tally,
    entries: &[Entry],
    line: &str,
) -> io::Result<()> {
    let fields = fields(alloc, line)?;
    let entry = entry_named(entries, field(&fields, 4)?)?;
    let text = after_comment(alloc, &fields, &entry.text)?;
    let answer = field(&fields, 5)?;
    let refused = Expected::fault(alloc, answer)?;
    let expected = if answer == "model" {
        &entry.expected
    } else {
        &refused
    };
    tally.note(
        rt,
        is_converted_in_large_pieces(alloc, entry.format, &text, expected),
        line,
        "long line",
    )
}

fn try_long_lines<R: Files + Print + Eprint>(
    rt: &R,
    alloc: Global,
    entries: &[Entry],
) -> io::Result<bool> {
    let mut tally = Tally::new();
    for line in table(rt, alloc, "long-lines.tsv")?.as_str().lines().skip(1) {
        try_long_line(rt, alloc, &mut tally, entries, line)?;
    }
    tally.end(rt, "long lines")
}

/// Checks each line of a table of numbers.
fn try_number_table<R: Files + Eprint>(
    rt: &R,
    alloc: Global,
    tally: &mut Tally,
    numbers: NumberTable,
) -> io::Result<()> {
    for line in table(rt, alloc, numbers.path())?.as_str().lines().skip(1) {
        let is_right = numbers.is_right(&fields(alloc, line)?)?;
        tally.note(rt, is_right, line, numbers.path())?;
    }
    Ok(())
}

/// Checks each line of the tables of numbers.
fn try_numbers<R: Files + Print + Eprint>(rt: &R, alloc: Global) -> io::Result<bool> {
    let mut tally = Tally::new();
    try_number_table(rt, alloc, &mut tally, NumberTable::Literals)?;
    try_number_table(rt, alloc, &mut tally, NumberTable::Sums)?;
    tally.end(rt, "numbers")
}

/// Makes all checks, and returns whether all results are as expected. It is an error if a table or a file is missing.
pub(crate) fn try_all<R: Files + Print + Eprint>(rt: &R, alloc: Global) -> io::Result<bool> {
    let entries = entries(rt, alloc)?;
    let parts = [
        try_index(rt, alloc, &entries)?,
        try_pairs(rt, alloc, &entries)?,
        try_failing(rt, alloc, &entries)?,
        try_changed_lines(rt, alloc, &entries)?,
        try_cuts(rt, alloc, &entries)?,
        try_bytes(rt, alloc)?,
        try_long_lines(rt, alloc, &entries)?,
        try_numbers(rt, alloc)?,
    ];
    Ok(!parts.contains(&false))
}
