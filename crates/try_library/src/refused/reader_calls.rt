//! The calls of a reader's builder, and the terms of a row that one of them takes. A reader drops both after an error, so nothing
//! is expected of them then, but that a builder has the same rows after the calls for terms.

use crate::refused::answers::{Answer, put, roomy};
use crate::refused::building::{finished, number, put_finished};
use crate::refused::names::{named, spelled};
use crate::refused::refusing::{refuse, refuse_none};
use crate::refused::single_calls::begun;
use mpslp_builder::{Entries, Entry, ReaderBuilder, RowTerms};
use mpslp_model::{BuildFault, FIXED_SEED, Name};
use mpslp_test_devices::FailingWriter;
use mpslp_types::laws::each_name_is_legal;
use std::alloc::{AllocError, Global};

/// A call of `ReaderBuilder`, or the one that collects the terms of a row.
#[derive(Clone, Copy)]
pub(crate) enum ReaderCall {
    NextLine,
    FirstLine,
    RowTerm,
    RowTerms,
    AddTerms,
}

/// The calls with their names.
pub(crate) const READER_CALLS: [(&str, ReaderCall); 5] = [
    ("ReaderBuilder::next_line", ReaderCall::NextLine),
    ("ReaderBuilder::first_line", ReaderCall::FirstLine),
    ("ReaderBuilder::row_term", ReaderCall::RowTerm),
    ("ReaderBuilder::row_terms", ReaderCall::RowTerms),
    ("RowTerms::add", ReaderCall::AddTerms),
];

/// The declarations before the other calls. There is no coefficient yet, so no room for one.
const BEFORE: &str = "\
objective f
row r L
row seventeen.letters G
row LONG E
column x";

/// The declarations before the first line of a column: there is no column yet, so no room for one.
const BEFORE_COLUMNS: &str = "\
objective f
row r L
row seventeen.letters G
row LONG E";

impl ReaderCall {
    fn before(self) -> &'static str {
        match self {
            ReaderCall::FirstLine => BEFORE_COLUMNS,
            _ => BEFORE,
        }
    }
}

/// The names of these declarations that are those of rows or of the objective, and how many they are.
const ROWS: &str = "f r seventeen.letters LONG";

const COUNT_OF_ROWS: u32 = 4;

/// Columns of the calls whose names are not those of rows.
const OTHERS: &str = "x a.column b.column column.of.17.b.yt";

/// The columns of the terms of a row: in byte order at first, and then not, and more than are compared one by one.
const COLUMNS: &str =
    "a.column LONG x seventeen.letters b.column column.of.17.b.yt k j i h g f1 e d c b other.column.of.24.bytes";

/// The coefficients of a line.
fn entries() -> Entries<'static> {
    Entries {
        first: Entry {
            row: spelled("LONG").as_bytes(),
            value: number("1"),
        },
        second: Some(Entry {
            row: spelled("r").as_bytes(),
            value: number("2"),
        }),
    }
}

fn next_line(builder: &mut ReaderBuilder, alloc: Global, growth: u32) -> Result<bool, BuildFault> {
    let Entries { first, second } = entries();
    refuse(alloc, growth);
    let answer = builder.next_line(b"x".as_slice(), true, &Entries { first, second });
    refuse_none(alloc);
    answer
}

fn first_line(builder: &mut ReaderBuilder, alloc: Global, growth: u32) -> Result<bool, BuildFault> {
    let name = named(alloc, "LONG")?;
    let Entries { first, second } = entries();
    refuse(alloc, growth);
    let answer = builder.first_line(name, true, &Entries { first, second });
    refuse_none(alloc);
    answer
}

fn row_term(builder: &mut ReaderBuilder, alloc: Global, growth: u32) -> Result<bool, BuildFault> {
    let name = named(alloc, "LONG")?;
    refuse(alloc, growth);
    let answer = builder.row_term(b"r".as_slice(), name, number("3"));
    refuse_none(alloc);
    answer?;
    Ok(true)
}

/// The names of the columns of a row.
fn columns(alloc: Global) -> Result<Vec<Name>, BuildFault> {
    let mut names = Vec::new(alloc);
    for word in COLUMNS.split(' ') {
        let name = named(alloc, word)?;
        if names.push(name).is_err() {
            return Err(BuildFault::OutOfMemory);
        }
    }
    Ok(names)
}

/// Adds a term of each column. Whether each is new.
fn add_terms(alloc: Global, terms: &mut RowTerms, columns: &[Name]) -> Result<bool, AllocError> {
    for name in columns {
        each_name_is_legal(name);
        if !terms.add(alloc, name.as_bytes(), number("4"))? {
            return Ok(false);
        }
    }
    Ok(true)
}

fn row_terms(builder: &mut ReaderBuilder, alloc: Global, growth: u32) -> Result<bool, BuildFault> {
    let mut terms = RowTerms::new(alloc, FIXED_SEED);
    let are_new = add_terms(alloc, &mut terms, &columns(alloc)?)?;
    refuse(alloc, growth);
    let answer = builder.row_terms(b"r".as_slice(), &terms);
    refuse_none(alloc);
    answer?;
    Ok(are_new)
}

/// Adds terms while an allocation fails, and declares them with memory.
fn terms_added(
    builder: &mut ReaderBuilder,
    alloc: Global,
    growth: u32,
) -> Result<bool, BuildFault> {
    let columns = columns(alloc)?;
    let mut terms = RowTerms::new(alloc, FIXED_SEED);
    refuse(alloc, growth);
    let answer = add_terms(alloc, &mut terms, &columns);
    refuse_none(alloc);
    let are_new = answer?;
    builder.row_terms(b"r".as_slice(), &terms)?;
    Ok(are_new)
}

/// The result of a call while an allocation fails: whether its declarations are taken.
fn taken(
    call: ReaderCall,
    builder: &mut ReaderBuilder,
    alloc: Global,
    growth: u32,
) -> Result<bool, BuildFault> {
    match call {
        ReaderCall::NextLine => next_line(builder, alloc, growth),
        ReaderCall::FirstLine => first_line(builder, alloc, growth),
        ReaderCall::RowTerm => row_term(builder, alloc, growth),
        ReaderCall::RowTerms => row_terms(builder, alloc, growth),
        ReaderCall::AddTerms => terms_added(builder, alloc, growth),
    }
}

/// How many of these words are the names of rows.
fn count_of_rows(builder: &ReaderBuilder, words: &str) -> u32 {
    let mut count = 0u32;
    for word in words.split(' ') {
        if builder.draft.has_row(spelled(word).as_bytes()) {
            count = count.saturating_add(1);
        }
    }
    count
}

fn put_taken(out: &mut FailingWriter, answer: &Result<bool, BuildFault>) {
    match answer {
        Ok(true) => put(out, "taken\n"),
        Ok(false) => put(out, "not taken\n"),
        Err(BuildFault::OutOfMemory) => put(out, "out of memory\n"),
        Err(_) => put(out, "rejected\n"),
    }
}

/// The result of a call while an allocation fails, and the model after it if none does.
pub(crate) fn reader_call(
    alloc: Global,
    call: ReaderCall,
    growth: u32,
) -> Result<Answer, AllocError> {
    let mut out = roomy(alloc)?;
    let draft = begun(alloc, call.before());
    let mut builder = ReaderBuilder { draft };
    let answer = taken(call, &mut builder, alloc, growth);
    put_taken(&mut out, &answer);
    if count_of_rows(&builder, ROWS) != COUNT_OF_ROWS || count_of_rows(&builder, OTHERS) != 0 {
        put(&mut out, "other rows than before\n");
    }
    let is_out_of_memory = matches!(answer, Err(BuildFault::OutOfMemory));
    if !is_out_of_memory {
        let _ = put_finished(&mut out, finished(builder.draft));
    }
    Answer::of_sink(alloc, is_out_of_memory, &out)
}
