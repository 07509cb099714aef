//! The tables of `vectors/` and the files that they name.

use crate::inputs::content;
use crate::vectors::answers::Answer;
use mpslp_convert::Form;
use std::alloc::{AllocError, Global};
use std::io::{Error, ErrorKind, Read};
use std::rt::Files;
use std::{fs, io};

/// The expected results of an input.
#[derive(Drop)]
pub(crate) struct Expected {
    /// Of a conversion to MPS.
    pub(crate) mps: Answer,
    /// Of a conversion to LP.
    pub(crate) lp: Answer,
    /// Of showing the model, if the tables have it.
    pub(crate) shown: Option<Answer>,
}

/// An input with its expected results.
#[derive(Drop)]
pub(crate) struct Entry {
    pub(crate) name: String,
    pub(crate) format: Form,
    pub(crate) text: Vec<u8>,
    pub(crate) expected: Expected,
}

fn bad_table() -> Error {
    Error::from(ErrorKind::InvalidData)
}

/// The text of a table.
pub(crate) fn table<R: Files>(rt: &R, alloc: Global, path: &str) -> io::Result<String> {
    let mut text = String::new(alloc);
    fs::open(rt, path)?.read_to_string(&mut text)?;
    Ok(text)
}

/// The fields of a line.
pub(crate) fn fields(alloc: Global, line: &str) -> Result<Vec<&str>, AllocError> {
    line.split('\t').collect(alloc)
}

/// The field of this number.
pub(crate) fn field<'a>(fields: &[&'a str], number: usize) -> io::Result<&'a str> {
    match fields.get(number) {
        Some(field) => Ok(*field),
        None => Err(bad_table()),
    }
}

/// The field of this number, as a number.
pub(crate) fn number(fields: &[&str], number: usize) -> io::Result<usize> {
    match field(fields, number)?.parse::<usize>() {
        Ok(number) => Ok(number),
        Err(_) => Err(bad_table()),
    }
}

/// The format of a file, by the end of its name.
pub(crate) fn format_of(name: &str) -> Form {
    if name.ends_with("lp") {
        Form::Lp
    } else {
        Form::Mps
    }
}

/// The line of an error.
fn fault_line(alloc: Global, line: &str) -> Result<Answer, AllocError> {
    let mut text = line.as_bytes().to_vec(alloc)?;
    text.extend_from_slice(b"\n")?;
    Ok(Answer {
        is_fault: true,
        text,
    })
}

/// The text of a file, or the line of the error that the table has instead of a name.
fn named<R: Files>(rt: &R, alloc: Global, name: &str) -> io::Result<Answer> {
    if name.ends_with(": NotLp") {
        return Ok(fault_line(alloc, name)?);
    }
    Ok(Answer {
        is_fault: false,
        text: content(rt, alloc, name)?,
    })
}

impl Expected {
    /// The results of an input that is rejected.
    pub(crate) fn fault(alloc: Global, line: &str) -> Result<Expected, AllocError> {
        Ok(Expected {
            mps: fault_line(alloc, line)?,
            lp: fault_line(alloc, line)?,
            shown: Some(fault_line(alloc, line)?),
        })
    }

    /// The results of the input of a line of the index.
    fn of_fields<R: Files>(rt: &R, alloc: Global, fields: &[&str]) -> io::Result<Expected> {
        let answer = field(fields, 2)?;
        if answer != "model" {
            return Ok(Expected::fault(alloc, answer)?);
        }
        Expected::of_model(
            rt,
            alloc,
            field(fields, 3)?,
            field(fields, 4)?,
            field(fields, 5)?,
        )
    }

    fn of_model<R: Files>(
        rt: &R,
        alloc: Global,
        mps: &str,
        lp: &str,
        show: &str,
    ) -> io::Result<Expected> {
        Ok(Expected {
            mps: named(rt, alloc, mps)?,
            lp: named(rt, alloc, lp)?,
            shown: if show == "-" {
                None
            } else {
                Some(named(rt, alloc, show)?)
            },
        })
    }
}

impl Entry {
    fn of_line<R: Files>(rt: &R, alloc: Global, line: &str) -> io::Result<Entry> {
        Entry::of_fields(rt, alloc, &fields(alloc, line)?)
    }

    fn of_fields<R: Files>(rt: &R, alloc: Global, fields: &[&str]) -> io::Result<Entry> {
        let name = field(fields, 1)?;
        let text = content(rt, alloc, name)?;
        Ok(Entry {
            name: String::from_str(alloc, name)?,
            format: format_of(name),
            text,
            expected: Expected::of_fields(rt, alloc, fields)?,
        })
    }

    /// Whether it declares a model.
    pub(crate) fn is_model(&self) -> bool {
        !self.expected.mps.is_fault
    }

    /// The expected result of a conversion to this format.
    pub(crate) fn answer_in(&self, format: Form) -> &Answer {
        self.expected.answer_in(format)
    }
}

impl Expected {
    /// The expected result of a conversion to this format.
    pub(crate) fn answer_in(&self, format: Form) -> &Answer {
        match format {
            Form::Mps => &self.mps,
            Form::Lp => &self.lp,
        }
    }
}

/// The entries of the index.
pub(crate) fn entries<R: Files>(rt: &R, alloc: Global) -> io::Result<Vec<Entry>> {
    let index = table(rt, alloc, "index.tsv")?;
    let mut entries = Vec::new(alloc);
    for line in index.as_str().lines().skip(1) {
        entries.push(Entry::of_line(rt, alloc, line)?)?;
    }
    Ok(entries)
}

/// The entry of this name.
pub(crate) fn entry_named<'a>(entries: &'a [Entry], name: &str) -> io::Result<&'a Entry> {
    for entry in entries {
        if entry.name.as_str() == name {
            return Ok(entry);
        }
    }
    Err(bad_table())
}

/// An entry of the model with this canonical text.
pub(crate) fn entry_of_text<'a>(
    entries: &'a [Entry],
    format: Form,
    text: &[u8],
) -> io::Result<&'a Entry> {
    for entry in entries {
        if entry.answer_in(format).text.as_slice() == text {
            return Ok(entry);
        }
    }
    Err(bad_table())
}
