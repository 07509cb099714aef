//! Calls of the library that are made repeatedly, so that each of their allocations can fail in turn.
//!
//! A call is made with its first allocation failing, then with its second one, and so on, until its result is not out of
//! memory. The library `tests/program/refuse.c`, loaded before this program, makes allocations fail; without it none fails, and each
//! call is made once. Without further words the calls are those that need no file: names, words, jobs, and the calls of a builder.
//! Otherwise the words are two formats with paths, such as `mps a.mps lp b.lp`, and the calls are those on the first text, on its
//! model if it has one, and on both texts.
//!
//! `call` and the name of each call are printed; then, each time that it is made, `answer`, the length of its result in bytes,
//! and the result. For a call of a builder that is left out if there was no memory for it, `without` comes first, with what
//! follows if it is never made. `tests/program/refused.py` compares them with the expected results.

mod answers;
mod building;
mod models;
mod names;
mod reader_calls;
mod refusing;
mod single_calls;
mod texts;
mod words;

use crate::inputs::{content, format_named, model_in, word_at};
use answers::Answer;
use building::{EACH_CALL, EACH_KIND, built, calls_of_many_rows};
use names::NAMES;
use reader_calls::{READER_CALLS, ReaderCall, reader_call};
use single_calls::{Ending, SINGLE_CALLS, SingleCall, Then, ended, left_out, single};
use std::alloc::{AllocError, Global};
use std::io;
use std::io::Write;
use std::rt::Files;
use texts::{MODEL_CALLS, TEXT_CALLS, Text, TextCall, answer_to};
use words::{COMMAND_LINES, job_of, legal_name, name, word};

/// More allocations than any call here makes.
const MOST: u32 = 10_000;

/// A call with its arguments.
#[derive(Clone, Copy)]
enum Call<'a> {
    Name(&'a str),
    LegalName(&'a str),
    Word,
    Job(&'a str),
    Build(&'a str),
    Single(&'a SingleCall, Then),
    Finish(Ending),
    Reader(ReaderCall),
    OnTexts(TextCall, &'a Text<'a>, &'a Text<'a>),
}

impl Call<'_> {
    /// The result of the call while an allocation fails.
    fn answer(&self, alloc: Global, growth: u32) -> Result<Answer, AllocError> {
        match *self {
            Call::Name(bytes) => name(alloc, bytes, growth),
            Call::LegalName(bytes) => legal_name(alloc, bytes, growth),
            Call::Word => word(alloc, growth),
            Call::Job(line) => job_of(alloc, line, growth),
            Call::Build(calls) => built(alloc, calls, growth),
            Call::Single(call, then) => single(alloc, call, then, growth),
            Call::Finish(ending) => ended(alloc, ending, growth),
            Call::Reader(call) => reader_call(alloc, call, growth),
            Call::OnTexts(call, first, second) => answer_to(alloc, call, first, second, growth),
        }
    }
}

/// Prints the results of a call with each allocation failing in turn, up to the first result that is not out of memory.
fn print_answers<R: Print>(rt: &R, alloc: Global, call: &Call<'_>) -> io::Result<()> {
    for growth in 1..=MOST {
        let answer = call.answer(alloc, growth)?;
        println!(rt; "answer {}", answer.text.len())?;
        io::writer(rt).write_all(&answer.text)?;
        if !answer.is_out_of_memory {
            return Ok(());
        }
    }
    Ok(())
}

fn print_each<R: Print>(rt: &R, alloc: Global, name: &str, call: &Call<'_>) -> io::Result<()> {
    println!(rt; "call {name}")?;
    print_answers(rt, alloc, call)
}

fn print_names<R: Print>(rt: &R, alloc: Global) -> io::Result<()> {
    for (length, word) in NAMES {
        println!(rt; "call Name::new of {length}")?;
        print_answers(rt, alloc, &Call::Name(word))?;
        println!(rt; "call Name::from_legal of {length}")?;
        print_answers(rt, alloc, &Call::LegalName(word))?;
    }
    Ok(())
}

/// Prints the results of a call of a builder that is left out if there was no memory for it, and then of the same call, which is
/// then made again.
fn print_single<R: Print>(rt: &R, alloc: Global, call: &SingleCall) -> io::Result<()> {
    let name = call.name;
    println!(rt; "call {name}")?;
    let without = left_out(alloc, call)?;
    println!(rt; "without {}", without.text.len())?;
    io::writer(rt).write_all(&without.text)?;
    print_answers(rt, alloc, &Call::Single(call, Then::LeaveOut))?;
    println!(rt; "call {name}, made again")?;
    print_answers(rt, alloc, &Call::Single(call, Then::Repeat))
}

fn print_builders<R: Print>(rt: &R, alloc: Global) -> io::Result<()> {
    print_each(rt, alloc, "builder: each call", &Call::Build(EACH_CALL))?;
    print_each(rt, alloc, "builder: each kind", &Call::Build(EACH_KIND))?;
    let calls = calls_of_many_rows(alloc)?;
    print_each(rt, alloc, "builder: many rows", &Call::Build(&calls))?;
    for call in &SINGLE_CALLS {
        print_single(rt, alloc, call)?;
    }
    let by_columns = Call::Finish(Ending::ByColumns);
    print_each(rt, alloc, "Builder::finish", &Call::Finish(Ending::ByRows))?;
    print_each(rt, alloc, "Builder::finish_by_columns", &by_columns)?;
    for (name, call) in READER_CALLS {
        print_each(rt, alloc, name, &Call::Reader(call))?;
    }
    Ok(())
}

fn print_without_files<R: Print>(rt: &R, alloc: Global) -> io::Result<()> {
    print_names(rt, alloc)?;
    print_each(rt, alloc, "Word::new", &Call::Word)?;
    for line in COMMAND_LINES {
        print_each(rt, alloc, line, &Call::Job(line))?;
    }
    print_builders(rt, alloc)
}

fn print_with_files<R: Files + Print>(rt: &R, alloc: Global, words: &[String]) -> io::Result<()> {
    let first = content(rt, alloc, word_at(words, 1))?;
    let second = content(rt, alloc, word_at(words, 3))?;
    let first = Text {
        format: format_named(word_at(words, 0)),
        bytes: &first,
    };
    let second = Text {
        format: format_named(word_at(words, 2)),
        bytes: &second,
    };
    for (name, call) in TEXT_CALLS {
        print_each(rt, alloc, name, &Call::OnTexts(call, &first, &second))?;
    }
    if model_in(alloc, first.format, first.bytes).is_err() {
        return Ok(());
    }
    for (name, call) in MODEL_CALLS {
        print_each(rt, alloc, name, &Call::OnTexts(call, &first, &second))?;
    }
    Ok(())
}

/// Makes the calls of these words of the command line, and prints their results.
pub(crate) fn make_calls<R: Files + Print>(
    rt: &R,
    alloc: Global,
    words: &[String],
) -> io::Result<()> {
    if words.is_empty() {
        print_without_files(rt, alloc)
    } else {
        print_with_files(rt, alloc, words)
    }
}
