//! The arguments of the command line as a job.

ghost use Rattle.std.specs.Prelude.{◌≡◌, map, IfOk, IfErr, Some, None, true, false, string_bytes, slice_get};
ghost use Rattle.std.specs.List.{list_all};
ghost use Rattle.mpslp_command.specs.Commands.{format_text, format_of, words_of, is_plain, reads_input_twice, IsNamedRightly};

use crate::jobs::{Job, JobFault};
use crate::usage::command;
use crate::words::Word;
use clap::error::ErrorKind;
use clap::{ArgMatches, Error};
use mpslp_types::Form;
use std::alloc::Global;

/// Returns the job of the arguments after the program's name.
///
/// `canon FROM TO PATH`, `same FROM PATH FROM PATH` and `show FROM PATH` are jobs. FROM and TO are `mps` or `lp`, in lower
/// case; a PATH of `-` is standard input. `--help`, `help`, `--version` and `canon --help` request a text. After `--` an
/// argument that begins with `-` is a path too.
///
/// # Errors
///
/// What clap rejects ([`Usage`](JobFault::Usage)) or prints ([`Help`](JobFault::Help)), with clap's text; then
/// [`UnknownFormat`](JobFault::UnknownFormat) with the first argument that should be a format but is not; then
/// [`BothInputs`](JobFault::BothInputs). [`OutOfMemory`](JobFault::OutOfMemory) if an allocation fails.
pub fn job(alloc: Global, words: &[String]) -> Result<Job, JobFault>
    ensures words { IfOk result (λ job. list_all (λ word. is_plain (string_bytes word)) words.now ≡ true → map string_bytes words.now ≡ words_of job) }
    ensures one_input { IfOk result (λ job. reads_input_twice job ≡ false) }
    ensures unknown { IfErr result IsNamedRightly }
{
    let Ok(command) = command(alloc) else {
        return Err(JobFault::OutOfMemory);
    };
    let matches = match command.try_get_matches_from(words) {
        Ok(matches) => matches,
        Err(error) => return Err(refusal(alloc, error)),
    };
    let found = job_of(alloc, &matches)?;
    // The contract of clap's matches does not say which argument has which value. Arguments without a leading `-` can only be in
    // their positions, which is checked here.
    if are_words_of(words, &found) || !are_plain(words) {
        Ok(found)
    } else {
        Err(unlike(alloc))
    }
}

/// The error for arguments that clap does not accept.
fn refusal(alloc: Global, error: Error) -> JobFault
    ensures { IsNamedRightly result }
{
    if error.kind() == ErrorKind::OutOfMemory {
        return JobFault::OutOfMemory;
    }
    let text = match error.to_string(alloc) {
        Ok(text) => Word::of(text),
        Err(_) => return JobFault::OutOfMemory,
    };
    if error.use_stderr() {
        JobFault::Usage(text)
    } else {
        JobFault::Help(text)
    }
}

/// The error for arguments that clap accepts and that are not a command. This cannot happen, but that is not proved.
fn unlike(alloc: Global) -> JobFault
    ensures { IsNamedRightly result }
{
    match Word::new(alloc, "error: not a command of mpslp\n") {
        Ok(text) => JobFault::Usage(text),
        Err(fault) => fault,
    }
}

/// The job in clap's matches.
fn job_of(alloc: Global, matches: &ArgMatches<'_>) -> Result<Job, JobFault>
    ensures one_input { IfOk result (λ job. reads_input_twice job ≡ false) }
    ensures unknown { IfErr result IsNamedRightly }
{
    let Some((name, words)) = matches.subcommand() else {
        return Err(unlike(alloc));
    };
    match name {
        "canon" => Ok(Job::Canon {
            from: format_at(alloc, words, "from")?,
            to: format_at(alloc, words, "to")?,
            path: word_at(alloc, words, "path")?,
        }),
        "same" => same_of(alloc, words),
        "show" => Ok(Job::Show {
            from: format_at(alloc, words, "from")?,
            path: word_at(alloc, words, "path")?,
        }),
        _ => Err(unlike(alloc)),
    }
}

/// The comparison in clap's matches.
fn same_of(alloc: Global, words: &ArgMatches<'_>) -> Result<Job, JobFault>
    ensures one_input { IfOk result (λ job. reads_input_twice job ≡ false) }
    ensures unknown { IfErr result IsNamedRightly }
{
    let first_format = format_at(alloc, words, "first-form")?;
    let second_format = format_at(alloc, words, "second-form")?;
    let first = word_at(alloc, words, "first")?;
    let second = word_at(alloc, words, "second")?;
    if first.as_str() == "-" && second.as_str() == "-" {
        return Err(JobFault::BothInputs);
    }
    Ok(Job::Same {
        first_format,
        first,
        second_format,
        second,
    })
}

fn text_at<'a>(words: &ArgMatches<'a>, id: &str) -> &'a str {
    words.get_str(id).unwrap_or("")
}

fn word_at(alloc: Global, words: &ArgMatches<'_>, id: &str) -> Result<Word, JobFault>
    ensures { IfErr result IsNamedRightly }
{
    Word::new(alloc, text_at(words, id))
}

fn format_at(alloc: Global, words: &ArgMatches<'_>, id: &str) -> Result<Form, JobFault>
    ensures { IfErr result IsNamedRightly }
{
    let word = text_at(words, id);
    match format_named(word) {
        Some(format) => Ok(format),
        None => Err(JobFault::UnknownFormat(Word::new(alloc, word)?)),
    }
}

/// The format with this name.
fn format_named(word: &str) -> Option<Form>
    ensures { result ≡ format_of word.now }
{
    if word == "mps" {
        Some(Form::Mps)
    } else if word == "lp" {
        Some(Form::Lp)
    } else {
        None
    }
}

/// The name of a format.
fn name_of(format: Form) -> &'static str
    ensures { result.now ≡ format_text format }
{
    match format {
        Form::Mps => "mps",
        Form::Lp => "lp",
    }
}

/// Whether no argument except `-` begins with `-`.
fn are_plain(words: &[String]) -> bool
    ensures { result ≡ list_all (λ word. is_plain (string_bytes word)) words.now }
{
    words.iter().all(|word| is_plain_word(word.as_str()))
}

fn is_plain_word(word: &str) -> bool
    ensures { result ≡ is_plain word.now }
{
    word == "-" || !word.starts_with('-')
}

/// Whether the arguments are the command of a job.
#[tactic(auto, using(crate::proofs::SameWords::three_words, crate::proofs::SameWords::four_words, crate::proofs::SameWords::five_words, crate::proofs::SameWords::map_len))]
fn are_words_of(words: &[String], job: &Job) -> bool
    ensures { result ≡ true → map string_bytes words.now ≡ words_of job.now }
{
    match job {
        Job::Canon { from, to, path } => {
            if words.len() != 4 || !is_at(words, 0, "canon") {
                return false;
            }
            if !is_at(words, 1, name_of(*from)) || !is_at(words, 2, name_of(*to)) {
                return false;
            }
            is_at(words, 3, path.as_str())
        }
        Job::Same {
            first_format,
            first,
            second_format,
            second,
        } => {
            if words.len() != 5 || !is_at(words, 0, "same") {
                return false;
            }
            if !is_at(words, 1, name_of(*first_format)) || !is_at(words, 2, first.as_str()) {
                return false;
            }
            is_at(words, 3, name_of(*second_format)) && is_at(words, 4, second.as_str())
        }
        Job::Show { from, path } => {
            if words.len() != 3 || !is_at(words, 0, "show") {
                return false;
            }
            is_at(words, 1, name_of(*from)) && is_at(words, 2, path.as_str())
        }
    }
}

/// Whether the argument at an index is this text.
fn is_at(words: &[String], i: usize, text: &str) -> bool
    ensures { result ≡ true → slice_get (map string_bytes words.now) i ≡ Some text.now }
{
    match words.get(i) {
        Some(word) => word.as_str() == text,
        None => false,
    }
}
