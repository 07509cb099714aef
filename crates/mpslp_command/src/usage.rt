//! The command line for clap: subcommands, their arguments, and the texts of help.

use clap::{Arg, Command};
use std::alloc::{AllocError, Global};

const VERSION: &str = "0.1.0";

const ABOUT: &str =
    "Normalises linear and mixed-integer model files: one canonical text for each model, with exact decimals.";

const STATUSES: &str = "\
Formats: mps, lp. A PATH of - is standard input.

Exit statuses:
  0  success; the models are the same; help was requested
  1  the models are not the same
  2  a file was rejected: standard error has the line number and the reason
  3  usage error
  4  a file cannot be opened, read or written
  5  out of memory

Examples:
  mpslp canon mps mps model.mps > canonical.mps
  mpslp canon mps lp model.mps > model.lp
  mpslp same mps model.mps lp model.lp
  mpslp show lp model.lp";

const CANON: &str = "\
Two files of one model have the same canonical text, byte for byte; two models never do.
Nothing is written until the whole file has been accepted.
Errors go to standard error, such as 'line 7: DuplicateEntry', or 'row 3: NotLp' for a name
that is not legal in LP. man mpslp explains each kind.

Examples:
  mpslp canon mps mps model.mps > canonical.mps
  gzip -dc model.mps.gz | mpslp canon mps lp - > model.lp";

const SAME: &str = "\
Prints 'same' (exit status 0) or 'not the same' (1). At most one PATH may be -.
Errors go to standard error, prefixed by 'first: ' or 'second: '.

Example:
  mpslp same mps model.mps lp model.lp";

const SHOW: &str = "\
A line each for the sense, the objective, how many rows, columns and coefficients there are, each row, and each
column with its coefficients. Rows and columns are numbered from 0 in the byte order of their names.

Example:
  mpslp show mps model.mps";

/// A required positional argument: its identifier, its name in the help, and its description.
type Argument = [&'static str; 3];

const CANON_ARGUMENTS: [Argument; 3] = [
    ["from", "FROM", "The format of the file: mps or lp"],
    ["to", "TO", "The format of the text: mps or lp"],
    ["path", "PATH", "The file, or - for standard input"],
];

const SAME_ARGUMENTS: [Argument; 4] = [
    [
        "first-form",
        "FROM",
        "The format of the first file: mps or lp",
    ],
    ["first", "PATH", "The first file, or - for standard input"],
    [
        "second-form",
        "FROM",
        "The format of the second file: mps or lp",
    ],
    ["second", "PATH", "The second file, or - for standard input"],
];

const SHOW_ARGUMENTS: [Argument; 2] = [
    ["from", "FROM", "The format of the file: mps or lp"],
    ["path", "PATH", "The file, or - for standard input"],
];

/// Adds arguments to a subcommand. The proof of a function goes through all that a command may hold wherever it may drop one, so
/// this is done here only.
fn with_arguments<'a>(
    alloc: Global,
    subcommand: Command<'a>,
    arguments: &[Argument],
) -> Result<Command<'a>, AllocError> {
    let mut subcommand = subcommand;
    for [id, name, help] in arguments {
        let argument = Arg::new(alloc, *id)
            .required(true)
            .value_name(*name)
            .help(*help);
        subcommand = subcommand.arg(argument)?;
    }
    Ok(subcommand)
}

fn canon<'a>(alloc: Global) -> Result<Command<'a>, AllocError> {
    let subcommand = Command::new(alloc, "canon")
        .about("Writes the canonical text of a model file")
        .after_help(CANON);
    with_arguments(alloc, subcommand, &CANON_ARGUMENTS)
}

fn same<'a>(alloc: Global) -> Result<Command<'a>, AllocError> {
    let subcommand = Command::new(alloc, "same")
        .about("Compares two model files")
        .after_help(SAME);
    with_arguments(alloc, subcommand, &SAME_ARGUMENTS)
}

fn show<'a>(alloc: Global) -> Result<Command<'a>, AllocError> {
    let subcommand = Command::new(alloc, "show")
        .about("Prints the model of a file, one line for each row, column and coefficient")
        .after_help(SHOW);
    with_arguments(alloc, subcommand, &SHOW_ARGUMENTS)
}

/// Adds a subcommand, if memory sufficed for it.
fn with_subcommand<'a>(
    program: Command<'a>,
    subcommand: Result<Command<'a>, AllocError>,
) -> Result<Command<'a>, AllocError> {
    program.subcommand(subcommand?)
}

/// The whole command line. Its arguments do not include the program's name.
pub(crate) fn command<'a>(alloc: Global) -> Result<Command<'a>, AllocError> {
    let program = Command::new(alloc, "mpslp")
        .bin_name("mpslp")?
        .version(VERSION)
        .about(ABOUT)
        .after_help(STATUSES)
        .no_binary_name(true)
        .subcommand_required(true)
        .arg_required_else_help(true);
    let program = with_subcommand(program, canon(alloc))?;
    let program = with_subcommand(program, same(alloc))?;
    with_subcommand(program, show(alloc))
}
