//! What several commands do with words, files and texts.

use mpslp_convert::{ConvertFault, Form, RunFault};
use mpslp_lp::read_lp;
use mpslp_model::{Model, ReadFault};
use mpslp_mps::read_mps;
use std::alloc::Global;
use std::io::Read;
use std::rt::Files;
use std::{fs, io};

/// The word of this index, or an empty one.
pub(crate) fn word_at(words: &[String], i: usize) -> &str {
    words.get(i).map_or("", |word| word.as_str())
}

/// The format that a word names: LP for `lp`, and MPS for any other word.
pub(crate) fn format_named(word: &str) -> Form {
    if word == "lp" { Form::Lp } else { Form::Mps }
}

/// The bytes of a file.
pub(crate) fn content<R: Files>(rt: &R, alloc: Global, path: &str) -> io::Result<Vec<u8>> {
    let mut text = Vec::new(alloc);
    fs::open(rt, path)?.read_to_end(&mut text)?;
    Ok(text)
}

/// The model of a text that is read as a whole.
pub(crate) fn model_in(alloc: Global, format: Form, text: &[u8]) -> Result<Model, ReadFault> {
    match format {
        Form::Mps => read_mps(alloc, text),
        Form::Lp => read_lp(alloc, text),
    }
}

/// The same error, of a run with one input.
pub(crate) fn fault_of_run(fault: ConvertFault) -> RunFault {
    match fault {
        ConvertFault::First(fault) => RunFault::File(fault),
        ConvertFault::Second(fault) => RunFault::File(fault),
        ConvertFault::NotLp(place) => RunFault::NotLp(place),
        ConvertFault::OutOfMemory => RunFault::OutOfMemory,
    }
}
