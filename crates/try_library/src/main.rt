//! Makes calls of the library: checks their results on files, makes their allocations fail, and measures their speed.
//!
//! The first word of the command line is the command:
//!
//! - `vectors` checks the calls on the files of `vectors/`. Run it in that directory. It prints the number of checks for each
//!   table; the exit status is 1 if a result is unexpected or a table is missing.
//! - `refused` makes each call once, or, if `tests/program/refuse.c` is loaded before the program, with each of its allocations failing
//!   in turn, and prints the results. `refused FORM PATH FORM PATH` does that with the calls on the texts of two files; a form is
//!   `mps` or `lp`.
//! - `read` reads the MPS text of a model from standard input, `read lp` LP text. It prints the counts of the model, or the error,
//!   and the speed.
//! - `numbers` reads number literals from standard input, one a line, and prints their number, and the speeds of reading and of
//!   printing them.
//!
//! With any other words it prints one line on standard error, and the exit status is 2.
//!
//! The four are one program because each program is proved over the libraries that it uses, and most of these are the same.
#![tactic(auto)]

mod inputs;
mod numbers;
mod read;
mod refused;
mod vectors;

use inputs::{format_named, word_at};
use numbers::measure_numbers;
use read::measure_reading;
use refused::make_calls;
use std::alloc::Global;
use std::process::ExitCode;
use std::rt::{Clock, Files};
use std::{env, io};
use vectors::try_all;

/// The exit status if a result is unexpected, and if the command line has no command.
const UNEXPECTED: u8 = 1;

const NO_COMMAND: u8 = 2;

const USAGE: &str =
    "usage: try_library vectors | refused [FORM PATH FORM PATH] | read [lp] | numbers";

/// What the first word of the command line asks for.
#[derive(Clone, Copy)]
enum Command {
    Vectors,
    Refused,
    Read,
    Numbers,
}

impl Command {
    fn named(word: &str) -> Option<Command> {
        match word {
            "vectors" => Some(Command::Vectors),
            "refused" => Some(Command::Refused),
            "read" => Some(Command::Read),
            "numbers" => Some(Command::Numbers),
            _ => None,
        }
    }
}

/// The command of the command line, and the words after it.
fn requested(words: &[String]) -> Option<(Command, &[String])> {
    match words {
        [first, further @ ..] => Some((Command::named(first.as_str())?, further)),
        [] => None,
    }
}

/// Does what a command with its further words asks for, and returns whether all results are as expected.
fn perform<R: Files + Input + Print + Eprint + Clock + AllocGlobal>(
    rt: &R,
    alloc: Global,
    command: Command,
    further: &[String],
) -> io::Result<bool> {
    match command {
        Command::Vectors => return try_all(rt, alloc),
        Command::Refused => make_calls(rt, alloc, further)?,
        Command::Read => measure_reading(rt, alloc, format_named(word_at(further, 0)))?,
        Command::Numbers => measure_numbers(rt, alloc)?,
    }
    Ok(true)
}

fn main(rt: HostRuntime) -> io::Result<ExitCode> {
    let alloc = rt.alloc();
    let words = env::args(&rt)?.skip(1).collect::<Vec<String>>(alloc)?;
    let Some((command, further)) = requested(&words) else {
        eprintln!(rt; "{USAGE}")?;
        return Ok(ExitCode::from(NO_COMMAND));
    };
    let is_right = perform(&rt, alloc, command, further)?;
    Ok(ExitCode::from(if is_right { 0 } else { UNEXPECTED }))
}
