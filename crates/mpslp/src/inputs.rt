//! The inputs of a job: files, standard input, and stand-ins for missing ones.

use mpslp_convert::{Job, JobFault, perform_seeded};
use mpslp_model::{FromRead, HashSeed, Sink};
use std::io::{Error, ErrorKind, Read};
use std::rt::Files;
use std::{fs, io};

/// The maximum length of an input in bytes.
const MAX_BYTES: u64 = 1_073_741_824;

/// An input of a job, opened.
#[derive(Drop)]
enum Opened<I, F> {
    /// The job has no such input: there are no bytes.
    Nothing,
    /// The file could not be opened: each read fails.
    Missing,
    /// Standard input.
    Standard(I),
    /// A file.
    File(F),
}

impl<I: Read, F: Read> Read for Opened<I, F> {
    fn read(&mut self, buffer: &mut [u8]) -> io::Result<usize> {
        match self {
            Opened::Nothing => Ok(0),
            Opened::Missing => Err(Error::from(ErrorKind::NotFound)),
            Opened::Standard(input) => input.read(buffer),
            Opened::File(file) => file.read(buffer),
        }
    }
}

/// Opens the input at this path, if the job has one. Standard input is named `-`.
fn open<R: Input + Files>(rt: &R, path: Option<&str>) -> FromRead<Opened<R::Reader, R::File>> {
    FromRead::new(match path {
        None => Opened::Nothing,
        Some("-") => Opened::Standard(rt.reader()),
        Some(path) => match fs::open(rt, path) {
            Ok(file) => Opened::File(file),
            Err(_) => Opened::Missing,
        },
    })
}

/// The paths of a job's first and second input, if it has them.
fn paths(job: &Result<Job, JobFault>) -> (Option<&str>, Option<&str>) {
    match job {
        Ok(Job::Canon { path, .. }) => (Some(path.as_str()), None),
        Ok(Job::Show { path, .. }) => (Some(path.as_str()), None),
        Ok(Job::Same { first, second, .. }) => (Some(first.as_str()), Some(second.as_str())),
        Err(_) => (None, None),
    }
}

/// Opens the first input and then the second, does the job, and returns the exit status.
pub(crate) fn perform_on_inputs<R: Input + Files + AllocGlobal, W: Sink, E: Sink>(
    rt: &R,
    seed: HashSeed,
    job: &Result<Job, JobFault>,
    out: &mut W,
    err: &mut E,
) -> u8 {
    let (first, second) = paths(job);
    let mut first = open(rt, first);
    let mut second = open(rt, second);
    perform_seeded(
        rt.alloc(),
        seed,
        MAX_BYTES,
        job,
        &mut first,
        &mut second,
        out,
        err,
    )
}
