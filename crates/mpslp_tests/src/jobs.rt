//! Tests of jobs between inputs and outputs in memory: what is printed, the line of the error, and the exit status.

use crate::answers::{MUCH, SMALL, SMALL_CANONICAL, SMALL_CANONICAL_LP, SMALL_LP};
use mpslp_convert::{Form, Job, JobFault, Word, perform};
use mpslp_model::{FromRead, ToWrite};
use mpslp_test_devices::{FailingReader, FailingWriter};
use std::alloc::{AllocError, Global};
use std::test::Fail;

const OTHER_LP: &str = "min COST: X + 2Y st LIM1: X <= 5 MYG: 1.5 Y >= 1 end\n";

/// `SMALL_LP` without its last line.
const CUT_LP: &str = "\\ the same model
MIN
COST: 2Y + X
s.t.
MYG: 1.5 Y => 1
LIM1: X
 <= 4
";

const TINY_SHOWN: &str = "sense minimize
objective c constant 0 offset 0
rows 0 columns 1 elements 0
column 0 x continuous 0 inf objective 1
";

/// A file with a column whose name is not legal in LP.
const UNFIT: &str = "ROWS\n N c\nCOLUMNS\n x[1] c 1\nENDATA\n";

/// The files of the cases below.
fn file(name: &str) -> &'static str {
    match name {
        "small.mps" | "mps.lp" => SMALL,
        "canonical.mps" => SMALL_CANONICAL,
        "small.lp" => SMALL_LP,
        "canonical.lp" => SMALL_CANONICAL_LP,
        "other.lp" => OTHER_LP,
        "cut.lp" => CUT_LP,
        "unfit.mps" => UNFIT,
        "open.mps" => "ROWS\n",
        _ => "",
    }
}

/// The format of a file, by the end of its name.
fn format_of(name: &str) -> Form {
    if name.ends_with("lp") {
        Form::Lp
    } else {
        Form::Mps
    }
}

/// The exit status, standard output and standard error of a job.
#[derive(Drop)]
struct Ended {
    status: u8,
    out: Vec<u8>,
    err: Vec<u8>,
}

impl Ended {
    fn is(&self, status: u8, out: &str, err: &str) -> bool {
        self.status == status
            && self.out.as_slice() == out.as_bytes()
            && self.err.as_slice() == err.as_bytes()
    }

    /// Whether the exit status is the one that is written so, standard output is this text, and standard error this line or empty.
    fn is_as(&self, status: &str, out: &str, line: &str) -> bool {
        let is_line = match self.err.as_slice() {
            [] => line.is_empty(),
            [text @ .., b'\n'] => !line.is_empty() && text == line.as_bytes(),
            _ => false,
        };
        matches!(status.parse::<u8>(), Ok(status) if status == self.status)
            && self.out.as_slice() == out.as_bytes()
            && is_line
    }
}

/// Does a job, or reports why there is none, with inputs of these texts.
fn performed(alloc: Global, job: &Result<Job, JobFault>, first: &str, second: &str) -> Ended {
    let mut out = Vec::new(alloc);
    let mut err = Vec::new(alloc);
    let status = perform(
        alloc,
        MUCH,
        job,
        &mut FromRead::new(first.as_bytes()),
        &mut FromRead::new(second.as_bytes()),
        &mut ToWrite::new(&mut out),
        &mut ToWrite::new(&mut err),
    );
    Ended { status, out, err }
}

fn canon(alloc: Global, from: Form, to: Form) -> Result<Job, JobFault> {
    Ok(Job::Canon {
        from,
        to,
        path: Word::new(alloc, "-")?,
    })
}

fn show(alloc: Global, from: Form) -> Result<Job, JobFault> {
    Ok(Job::Show {
        from,
        path: Word::new(alloc, "-")?,
    })
}

fn same(alloc: Global, first_format: Form, second_format: Form) -> Result<Job, JobFault> {
    Ok(Job::Same {
        first_format,
        first: Word::new(alloc, "a")?,
        second_format,
        second: Word::new(alloc, "b")?,
    })
}

/// The case of a line, whose parts are separated by `|`.
#[derive(Clone, Copy)]
struct Case<'a> {
    first: &'a str,
    second: &'a str,
    status: &'a str,
    out: &'a str,
    line: &'a str,
}

impl<'a> Case<'a> {
    fn of(text: &'a str) -> Case<'a> {
        let mut parts = text.split('|');
        Case {
            first: parts.next().unwrap_or(""),
            second: parts.next().unwrap_or(""),
            status: parts.next().unwrap_or(""),
            out: parts.next().unwrap_or(""),
            line: parts.next().unwrap_or(""),
        }
    }
}

/// Files, the formats to which they are converted, the exit status, the file that is written, and the line of the error.
const CONVERTED: &str = "small.mps|mps|0|canonical.mps|
small.mps|lp|0|canonical.lp|
small.lp|mps|0|canonical.mps|
small.lp|lp|0|canonical.lp|
cut.lp|lp|2||file: MissingEnd
unfit.mps|lp|2||column 0: NotLp
";

/// Whether a file is converted as the case says.
fn is_converted(alloc: Global, case: Case<'_>) -> bool {
    let job = canon(alloc, format_of(case.first), format_of(case.second));
    performed(alloc, &job, file(case.first), SMALL).is_as(case.status, file(case.out), case.line)
}

#[test]
fn files_are_converted(rt: HostRuntime) {
    for case in CONVERTED.lines() {
        assert!(rt; is_converted(rt.alloc(), Case::of(case)), "at {case}");
    }
}

/// Two files, the exit status, the result, and the line of the error.
const COMPARED: &str = "small.mps|small.lp|0|same|
small.lp|canonical.mps|0|same|
small.mps|canonical.mps|0|same|
small.mps|other.lp|1|not the same|
small.mps|cut.lp|2||second: file: MissingEnd
cut.lp|open.mps|2||first: file: MissingEnd
small.lp|mps.lp|2||second: line 1: BadToken
";

/// What is printed for this outcome.
fn printed(outcome: &str) -> &'static str {
    match outcome {
        "same" => "same\n",
        "not the same" => "not the same\n",
        _ => "",
    }
}

/// Whether two files are compared as the case says.
fn is_compared(alloc: Global, case: Case<'_>) -> bool {
    let job = same(alloc, format_of(case.first), format_of(case.second));
    let ended = performed(alloc, &job, file(case.first), file(case.second));
    ended.is_as(case.status, printed(case.out), case.line)
}

#[test]
fn two_files_are_compared(rt: HostRuntime) {
    for case in COMPARED.lines() {
        assert!(rt; is_compared(rt.alloc(), Case::of(case)), "at {case}");
    }
}

/// Whether the model of an LP text is shown as this text.
fn is_shown(alloc: Global, text: &str, wanted: &str) -> bool {
    let job = show(alloc, Form::Lp);
    performed(alloc, &job, text, "").is(0, wanted, "")
}

#[test]
fn a_file_is_shown(rt: HostRuntime) {
    assert!(rt; is_shown(rt.alloc(), "min c: x st end\n", TINY_SHOWN));
}

/// Whether this reason that there is no job has this exit status, standard output and standard error.
fn is_reported(alloc: Global, fault: JobFault, status: u8, out: &str, err: &str) -> bool {
    performed(alloc, &Err(fault), SMALL, SMALL).is(status, out, err)
}

/// Whether an unknown format is reported so.
fn is_unknown(alloc: Global, format: &str, err: &str) -> Result<bool, AllocError> {
    let fault = JobFault::UnknownFormat(word(alloc, format)?);
    Ok(is_reported(alloc, fault, 3, "", err))
}

/// Whether the text of a usage error is reported unchanged.
fn is_usage(alloc: Global, text: &str) -> Result<bool, AllocError> {
    let fault = JobFault::Usage(word(alloc, text)?);
    Ok(is_reported(alloc, fault, 3, "", text))
}

/// Whether the text of help is printed unchanged.
fn is_help(alloc: Global, text: &str) -> Result<bool, AllocError> {
    let fault = JobFault::Help(word(alloc, text)?);
    Ok(is_reported(alloc, fault, 0, text, ""))
}

#[test]
fn refusals_are_reported(rt: HostRuntime) -> Result<(), Fail> {
    let alloc = rt.alloc();
    let are_reported = [
        is_unknown(alloc, "xml", "unknown format: xml\n")?,
        is_usage(alloc, "error\n")?,
        is_help(alloc, "h")?,
        is_reported(alloc, JobFault::BothInputs, 3, "", "both inputs are -\n"),
        is_reported(alloc, JobFault::OutOfMemory, 5, "", "out of memory\n"),
    ];
    assert_eq!(rt; are_reported, [true; 5]);
    Ok(())
}

fn word(alloc: Global, text: &str) -> Result<Word, AllocError> {
    match Word::new(alloc, text) {
        Ok(word) => Ok(word),
        Err(_) => Err(AllocError),
    }
}

/// How many bytes the output takes before it fails, the exit status, and the line of the error. If it takes all, its flush fails.
const OUTPUTS: [(usize, u8, &str); 4] = [
    (6, 0, ""),
    (5, 4, "write failed\n"),
    (4, 4, "write failed\n"),
    (0, 4, "write failed\n"),
];

/// Whether the comparison of a text with itself, if the output takes only so many bytes, has this exit status, this line of
/// its error, and a part of its result as output.
fn ends_with_room(alloc: Global, room: usize, wanted: u8, line: &str) -> Result<bool, AllocError> {
    let mut out = FailingWriter::new(alloc, room)?;
    let mut err = Vec::new(alloc);
    let status = perform(
        alloc,
        MUCH,
        &same(alloc, Form::Mps, Form::Mps),
        &mut FromRead::new(SMALL.as_bytes()),
        &mut FromRead::new(SMALL.as_bytes()),
        &mut out,
        &mut ToWrite::new(&mut err),
    );
    let has_line = err.as_slice() == line.as_bytes();
    let has_front = b"same\n".starts_with(out.bytes());
    Ok(status == wanted && (has_line && has_front))
}

#[test]
fn an_output_that_fails_is_reported(rt: HostRuntime) -> Result<(), Fail> {
    for (room, status, line) in OUTPUTS {
        assert!(rt;
            ends_with_room(rt.alloc(), room, status, line)?,
            "at {room}"
        );
    }
    Ok(())
}

/// The exit status of a comparison whose first text has no end and whose error stream takes only so many bytes, how many it
/// took, and whether they are a part of the line of the error.
fn ended_with_error_room(alloc: Global, room: usize) -> Result<(u8, usize, bool), AllocError> {
    let mut out = Vec::new(alloc);
    let mut err = FailingWriter::new(alloc, room)?;
    let status = perform(
        alloc,
        MUCH,
        &same(alloc, Form::Mps, Form::Mps),
        &mut FromRead::new(b"ROWS\n".as_slice()),
        &mut FromRead::new(SMALL.as_bytes()),
        &mut ToWrite::new(&mut out),
        &mut err,
    );
    let has_front = b"first: file: MissingEnd\n".starts_with(err.bytes());
    Ok((status, err.bytes().len(), has_front))
}

#[test]
fn a_failing_error_stream_changes_no_status(rt: HostRuntime) -> Result<(), Fail> {
    for room in [0, 3, 7] {
        assert_eq!(rt; ended_with_error_room(rt.alloc(), room)?, (2, room, true));
    }
    Ok(())
}

/// The exit status of a comparison whose second source fails, whether this is its standard error, and whether nothing is
/// printed.
fn ended_without_second(alloc: Global, wanted: &str) -> (u8, bool, bool) {
    let mut out = Vec::new(alloc);
    let mut err = Vec::new(alloc);
    let status = perform(
        alloc,
        MUCH,
        &same(alloc, Form::Mps, Form::Mps),
        &mut FromRead::new(SMALL.as_bytes()),
        &mut FailingReader::new(b"", 1, 1),
        &mut ToWrite::new(&mut out),
        &mut ToWrite::new(&mut err),
    );
    let has_line = err.as_slice() == wanted.as_bytes();
    (status, has_line, out.is_empty())
}

#[test]
fn a_second_source_that_fails_is_reported(rt: HostRuntime) {
    let ended = ended_without_second(rt.alloc(), "second: read failed\n");
    assert_eq!(rt; ended, (4, true, true));
}
