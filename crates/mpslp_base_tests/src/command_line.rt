//! Tests of arguments and the jobs that they request.

use mpslp_command::{Job, JobFault, Word, job};
use mpslp_types::Form;
use std::alloc::{AllocError, Global};
use std::test::Fail;

/// Arguments, and the job that they request. A `;` separates the cases, here and below.
const JOBS: &str = "canon mps lp -|canon mps lp -;
canon lp mps a.lp|canon lp mps a.lp;
canon -- mps mps -a|canon mps mps -a;
same mps a lp b|same mps a lp b;
same mps - mps b|same mps - mps b;
same lp a lp -|same lp a lp -;
show lp -|show lp -";

/// Arguments that are a usage error, and the beginning of the text of the error.
const USAGES: &str = "|usage Normalises ..;
convert mps lp -|usage error: unrecognized subcommand 'convert'
..;
canon|usage error: the following required arguments were not provided:
  <FROM>
  <TO>
  <PATH>
..;
canon mps|usage error: the following required arguments were not provided:
  <TO>
  <PATH>
..;
canon mps mps a b|usage error: unexpected argument 'b' found
..;
canon --lp mps mps a|usage error: unexpected argument '--lp' found
..;
same mps a mps|usage error: the following required arguments were not provided:
  <PATH>
..;
show mps|usage error: the following required arguments were not provided:
  <PATH>
..;
canon xml|usage error: the following required arguments were not provided:
..";

/// Arguments that request a text, and its beginning.
const HELPS: &str = "--help|help Normalises ..;
-h|help Normalises ..;
help|help Normalises ..;
canon --help|help Writes the canonical text of a model file

Usage: mpslp canon <FROM> <TO> <PATH>
..;
help same|help Compares two model files

Usage: mpslp same <FROM> <PATH> <FROM> <PATH>
..;
--version|help mpslp 0.1.0
..";

/// Arguments with an unknown format, and the error for the first such format.
const UNKNOWN: &str = "canon mps xml -|format xml;
canon MPS lp -|format MPS;
same foo - bar -|format foo;
same mps - bar -|format bar;
show a b|format a";

/// The two parts of a case, which `|` separates.
fn parts(case: &str) -> (&str, &str) {
    case.split_once('|').unwrap_or((case, ""))
}

/// The job of the arguments in a line, which are separated by spaces.
fn job_of_line(alloc: Global, line: &str) -> Result<Result<Job, JobFault>, AllocError> {
    let mut words = Vec::new(alloc);
    for word in line.split_ascii_whitespace() {
        words.push(String::from_str(alloc, word)?)?;
    }
    Ok(job(alloc, &words))
}

/// The arguments of a job as one line.
fn line_of(alloc: Global, job: &Job) -> Result<String, AllocError> {
    match job {
        Job::Canon { from, to, path } => format!(in alloc;
            "canon {} {} {}",
            name(*from),
            name(*to),
            path.as_str()
        ),
        Job::Same {
            first_format,
            first,
            second_format,
            second,
        } => format!(in alloc;
            "same {} {} {} {}",
            name(*first_format),
            first.as_str(),
            name(*second_format),
            second.as_str()
        ),
        Job::Show { from, path } => format!(in alloc; "show {} {}", name(*from), path.as_str()),
    }
}

fn name(format: Form) -> &'static str {
    match format {
        Form::Mps => "mps",
        Form::Lp => "lp",
    }
}

/// What is requested instead of a job, as a text: a word for the kind, and the text of help, of an error or of a format.
fn text_of_fault(alloc: Global, fault: &JobFault) -> Result<String, AllocError> {
    match fault {
        JobFault::Help(text) => format!(in alloc; "help {}", text.as_str()),
        JobFault::Usage(text) => format!(in alloc; "usage {}", text.as_str()),
        JobFault::UnknownFormat(word) => format!(in alloc; "format {}", word.as_str()),
        JobFault::BothInputs => String::from_str(alloc, "both inputs"),
        JobFault::OutOfMemory => String::from_str(alloc, "no memory"),
    }
}

/// What the arguments in a line request, as a text.
fn text_of_line(alloc: Global, line: &str) -> Result<String, AllocError> {
    match job_of_line(alloc, line)? {
        Ok(job) => line_of(alloc, &job),
        Err(fault) => text_of_fault(alloc, &fault),
    }
}

/// Whether a text is the wanted one, or begins with it if that one ends with `..`.
fn is_like(found: &str, wanted: &str) -> bool {
    match wanted.strip_suffix("..") {
        Some(front) => found.starts_with(front),
        None => found == wanted,
    }
}

/// Whether what the arguments in a line request is like this text.
fn requests(alloc: Global, line: &str, wanted: &str) -> Result<bool, AllocError> {
    Ok(is_like(text_of_line(alloc, line)?.as_str(), wanted))
}

/// The first of these cases whose arguments do not request what is after them.
fn first_wrong<'a>(alloc: Global, cases: &'a str) -> Result<Option<&'a str>, AllocError> {
    for case in cases.split(';') {
        let (line, wanted) = parts(case);
        if !requests(alloc, line, wanted)? {
            return Ok(Some(case));
        }
    }
    Ok(None)
}

#[test]
fn words_ask_for_jobs(rt: HostRuntime) -> Result<(), Fail> {
    assert_eq!(rt; first_wrong(rt.alloc(), JOBS)?, None);
    Ok(())
}

#[test]
fn words_that_are_no_command_are_reported(rt: HostRuntime) -> Result<(), Fail> {
    assert_eq!(rt; first_wrong(rt.alloc(), USAGES)?, None);
    Ok(())
}

#[test]
fn help_and_version_are_texts(rt: HostRuntime) -> Result<(), Fail> {
    assert_eq!(rt; first_wrong(rt.alloc(), HELPS)?, None);
    Ok(())
}

#[test]
fn the_first_unknown_format_is_reported(rt: HostRuntime) -> Result<(), Fail> {
    assert_eq!(rt; first_wrong(rt.alloc(), UNKNOWN)?, None);
    Ok(())
}

#[test]
fn standard_input_is_read_once(rt: HostRuntime) -> Result<(), Fail> {
    assert!(rt; requests(rt.alloc(), "same mps - lp -", "both inputs")?);
    Ok(())
}

/// Whether an owned copy of this text has the same text.
fn keeps_text(alloc: Global, text: &str) -> bool {
    match Word::new(alloc, text) {
        Ok(word) => word.as_str() == text,
        Err(_) => false,
    }
}

#[test]
fn a_word_has_its_text(rt: HostRuntime) {
    assert!(rt; keeps_text(rt.alloc(), "a word"));
}
