//! The program: its arguments, what it prints and its exit status.

use crate::FailingReader;
use crate::texts::{MUCH, SMALL, SMALL_LP, SMALL_MPS, TYPED_LP};
use mpslp_convert::{Form, Job, JobFault, Word, job, perform};
use mpslp_model::{FromRead, ToWrite};
use std::alloc::{AllocError, Global};
use std::test::Fail;

/// The arguments that a command line has, separated by spaces.
fn arguments(alloc: Global, line: &str) -> Result<Vec<String>, AllocError> {
    let mut words = Vec::new(alloc);
    for word in line.split(' ').filter(|word| !word.is_empty()) {
        words.push(String::from_str(alloc, word)?)?;
    }
    Ok(words)
}

/// The exit status of the program for a command line and two inputs, and what it prints: standard output, then standard error.
#[derive(Drop)]
pub(crate) struct Ended {
    status: u8,
    out: Vec<u8>,
    err: Vec<u8>,
}

impl Ended {
    /// Whether the exit status is the one that is written so, and these texts were printed.
    pub(crate) fn is_as(&self, status: &str, out: &str, err: &str) -> bool {
        matches!(status.parse::<u8>(), Ok(status) if self.is(status, out, err))
    }

    pub(crate) fn is(&self, status: u8, out: &str, err: &str) -> bool {
        self.status == status
            && self.out.as_slice() == out.as_bytes()
            && self.err.as_slice() == err.as_bytes()
    }
}

/// Does what a job, or the reason that there is none, asks for.
fn performed(alloc: Global, job: &Result<Job, JobFault>, first: &str, second: &str) -> Ended {
    let mut out = Vec::new(alloc);
    let mut err = Vec::new(alloc);
    let status = perform(
        alloc,
        MUCH,
        job,
        &mut FromRead::new(first.as_bytes()),
        &mut FromRead::new(second.as_bytes()),
        &mut ToWrite::new(&mut out),
        &mut ToWrite::new(&mut err),
    );
    Ended { status, out, err }
}

/// Runs a command line on these inputs.
pub(crate) fn run_program(
    alloc: Global,
    line: &str,
    first: &str,
    second: &str,
) -> Result<Ended, AllocError> {
    let words = arguments(alloc, line)?;
    Ok(performed(alloc, &job(alloc, words.as_slice()), first, second))
}

/// Whether the program does what an example says, whose parts are separated by `@`: arguments, input, exit status, standard output and
/// standard error.
pub(crate) fn is_example(alloc: Global, example: &str) -> Result<bool, AllocError> {
    let mut parts = example.split('@');
    let arguments = parts.next().unwrap_or("");
    let input = parts.next().unwrap_or("");
    let status = parts.next().unwrap_or("");
    let out = parts.next().unwrap_or("");
    let err = parts.next().unwrap_or("");
    let ended = run_program(alloc, arguments, input, "")?;
    Ok(ended.is_as(status, out, err))
}

#[test]
fn the_small_model_is_converted_and_compared(rt: HostRuntime) -> Result<(), Fail> {
    let alloc = rt.alloc();
    let are_done = [
        run_program(alloc, "canon mps mps -", SMALL, "")?.is(0, SMALL_MPS, ""),
        run_program(alloc, "canon mps lp -", SMALL, "")?.is(0, SMALL_LP, ""),
        run_program(alloc, "canon lp mps -", TYPED_LP, "")?.is(0, SMALL_MPS, ""),
        run_program(alloc, "same mps a lp b", SMALL, TYPED_LP)?.is(0, "same\n", ""),
        run_program(alloc, "same mps a lp b", SMALL, "min x st end")?.is(1, "not the same\n", ""),
        run_program(alloc, "same mps a lp b", SMALL, "min x")?.is(
            2,
            "",
            "second: file: MissingEnd\n",
        ),
    ];
    assert_eq!(rt; are_done, [true; 6]);
    Ok(())
}

/// The job that a command line requests.
fn requested(alloc: Global, line: &str) -> Result<Job, JobFault> {
    match arguments(alloc, line) {
        Ok(words) => job(alloc, words.as_slice()),
        Err(_) => Err(JobFault::OutOfMemory),
    }
}

/// Whether a format that a command line names is unknown: this one.
fn is_unknown(alloc: Global, line: &str, format: &str) -> bool {
    let answer = requested(alloc, line);
    matches!(&answer, Err(JobFault::UnknownFormat(word)) if word.as_str() == format)
}

/// Whether a command line is a usage error.
fn is_usage(alloc: Global, line: &str) -> bool {
    let answer = requested(alloc, line);
    matches!(&answer, Err(JobFault::Usage(_)))
}

/// Whether the job is to write standard input, an MPS file, as LP.
fn is_canon(job: &Result<Job, JobFault>) -> bool {
    match job {
        Ok(
            Job::Canon {
                from: Form::Mps,
                to: Form::Lp,
                path,
            },
        ) => path.as_str() == "-",
        _ => false,
    }
}

/// Whether the job is to compare the MPS file a with standard input, an LP file.
fn is_same(job: &Result<Job, JobFault>) -> bool {
    match job {
        Ok(
            Job::Same {
                first_format: Form::Mps,
                first,
                second_format: Form::Lp,
                second,
            },
        ) => { first.as_str() == "a" && second.as_str() == "-" }
        _ => false,
    }
}

/// Whether the job is to show the LP file b.
fn is_show(job: &Result<Job, JobFault>) -> bool {
    match job {
        Ok(
            Job::Show {
                from: Form::Lp,
                path,
            },
        ) => path.as_str() == "b",
        _ => false,
    }
}

#[test]
fn a_command_line_requests_a_job(rt: HostRuntime) {
    let alloc = rt.alloc();
    let are_requested = [
        is_canon(&requested(alloc, "canon mps lp -")),
        is_same(&requested(alloc, "same mps a lp -")),
        is_show(&requested(alloc, "show lp b")),
    ];
    assert_eq!(rt; are_requested, [true; 3]);
}

#[test]
fn other_command_lines_request_none(rt: HostRuntime) {
    let alloc = rt.alloc();
    let are_rejected = [
        is_usage(alloc, "canon mps"),
        is_usage(alloc, ""),
        is_unknown(alloc, "canon mps xml -", "xml"),
        is_unknown(alloc, "same foo - bar -", "foo"),
    ];
    assert_eq!(rt; are_rejected, [true; 4]);
    let both = requested(alloc, "same mps - lp -");
    let help = requested(alloc, "--help");
    assert!(rt; matches!(&both, Err(JobFault::BothInputs)));
    assert!(rt; matches!(&help, Err(JobFault::Help(_))));
}

/// A word, as the reason that there is no job.
fn unknown(alloc: Global, text: &str) -> Result<Job, JobFault> {
    Err(JobFault::UnknownFormat(Word::new(alloc, text)?))
}

/// A requested text.
fn help(alloc: Global, text: &str) -> Result<Job, JobFault> {
    Err(JobFault::Help(Word::new(alloc, text)?))
}

#[test]
fn the_reason_that_there_is_no_job_is_printed(rt: HostRuntime) {
    let alloc = rt.alloc();
    let both = Err(JobFault::BothInputs);
    let memory = Err(JobFault::OutOfMemory);
    let are_printed = [
        performed(alloc, &unknown(alloc, "xml"), "", "").is(3, "", "unknown format: xml\n"),
        performed(alloc, &both, "", "").is(3, "", "both inputs are -\n"),
        performed(alloc, &memory, "", "").is(5, "", "out of memory\n"),
        performed(alloc, &help(alloc, "h"), "", "").is(0, "h", ""),
    ];
    assert_eq!(rt; are_printed, [true; 4]);
}

#[test]
fn a_read_that_fails_is_reported(rt: HostRuntime) {
    let alloc = rt.alloc();
    let mut out = Vec::new(alloc);
    let mut err = Vec::new(alloc);
    let status = perform(
        alloc,
        MUCH,
        &requested(alloc, "same mps a lp b"),
        &mut FromRead::new(SMALL.as_bytes()),
        &mut FailingReader::new(TYPED_LP.as_bytes(), 7, 1),
        &mut ToWrite::new(&mut out),
        &mut ToWrite::new(&mut err),
    );
    assert!(rt; Ended { status, out, err }.is(4, "", "second: read failed\n"));
}
