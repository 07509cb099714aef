//! Calls that make a name, a word, or a job of arguments.

use crate::refused::answers::{Answer, put, roomy};
use crate::refused::names::spelled;
use crate::refused::refusing::{refuse, refuse_none};
use mpslp_command::job;
use mpslp_convert::{Form, Job, JobFault, RunFault, Word};
use mpslp_model::{Name, NameFault};
use mpslp_test_devices::FailingWriter;
use mpslp_types::laws::each_name_is_legal;
use std::alloc::{AllocError, Global};

/// Arguments, separated by spaces: each job, and each error.
pub(crate) const COMMAND_LINES: [&str; 8] = [
    "canon mps lp -",
    "same mps a lp -",
    "show lp b",
    "canon mps xml -",
    "same foo - bar -",
    "same mps - lp -",
    "canon mps",
    "--help",
];

fn out_of_memory(alloc: Global) -> Answer {
    Answer::of_fault(&RunFault::OutOfMemory, Vec::new(alloc))
}

/// The name that `Name::new` makes of a word.
pub(crate) fn name(alloc: Global, word: &str, growth: u32) -> Result<Answer, AllocError> {
    refuse(alloc, growth);
    let answer = Name::new(alloc, spelled(word).as_bytes());
    refuse_none(alloc);
    match answer {
        Ok(name) => Ok(Answer::of_text(name.as_bytes().to_vec(alloc)?)),
        Err(NameFault::OutOfMemory) => Ok(out_of_memory(alloc)),
        Err(_) => Ok(Answer::of_text(b"no name".to_vec(alloc)?)),
    }
}

/// The name that `Name::from_legal` makes of the bytes of another one.
pub(crate) fn legal_name(alloc: Global, word: &str, growth: u32) -> Result<Answer, AllocError> {
    let Ok(name) = Name::new(alloc, spelled(word).as_bytes()) else {
        return Ok(Answer::of_text(b"no name".to_vec(alloc)?));
    };
    each_name_is_legal(&name);
    refuse(alloc, growth);
    let answer = Name::from_legal(alloc, name.as_bytes());
    refuse_none(alloc);
    match answer {
        Ok(name) => Ok(Answer::of_text(name.as_bytes().to_vec(alloc)?)),
        Err(_) => Ok(out_of_memory(alloc)),
    }
}

/// The text that `Word::new` makes.
pub(crate) fn word(alloc: Global, growth: u32) -> Result<Answer, AllocError> {
    refuse(alloc, growth);
    let answer = Word::new(alloc, "a word");
    refuse_none(alloc);
    match answer {
        Ok(word) => Ok(Answer::of_text(word.as_str().as_bytes().to_vec(alloc)?)),
        Err(JobFault::OutOfMemory) => Ok(out_of_memory(alloc)),
        Err(_) => Ok(Answer::of_text(b"no word".to_vec(alloc)?)),
    }
}

/// Puts a space and a word.
fn put_word(out: &mut FailingWriter, word: &str) {
    put(out, " ");
    put(out, word);
}

fn put_format(out: &mut FailingWriter, format: Form) {
    match format {
        Form::Mps => put(out, " mps"),
        Form::Lp => put(out, " lp"),
    }
}

/// Puts the arguments of a job.
fn put_job(out: &mut FailingWriter, job: &Job) {
    match job {
        Job::Canon { from, to, path } => {
            put(out, "canon");
            put_format(out, *from);
            put_format(out, *to);
            put_word(out, path.as_str());
        }
        Job::Same {
            first_format,
            first,
            second_format,
            second,
        } => {
            put(out, "same");
            put_format(out, *first_format);
            put_word(out, first.as_str());
            put_format(out, *second_format);
            put_word(out, second.as_str());
        }
        Job::Show { from, path } => {
            put(out, "show");
            put_format(out, *from);
            put_word(out, path.as_str());
        }
    }
}

/// Puts the error of arguments that are not a job.
fn put_fault(out: &mut FailingWriter, fault: &JobFault) {
    match fault {
        JobFault::Help(_) => put(out, "Help"),
        JobFault::Usage(_) => put(out, "Usage"),
        JobFault::UnknownFormat(word) => {
            put(out, "UnknownFormat");
            put_word(out, word.as_str());
        }
        JobFault::BothInputs => put(out, "BothInputs"),
        JobFault::OutOfMemory => put(out, "out of memory"),
    }
}

/// The result of `job`: the arguments of the job, or the error.
pub(crate) fn job_of(alloc: Global, line: &str, growth: u32) -> Result<Answer, AllocError> {
    let mut words = Vec::new(alloc);
    for word in line.split(' ') {
        words.push(String::from_str(alloc, word)?)?;
    }
    let mut out = roomy(alloc)?;
    refuse(alloc, growth);
    let answer = job(alloc, &words);
    refuse_none(alloc);
    match &answer {
        Ok(job) => put_job(&mut out, job),
        Err(fault) => put_fault(&mut out, fault),
    }
    put(&mut out, "\n");
    Answer::of_sink(alloc, matches!(&answer, Err(JobFault::OutOfMemory)), &out)
}
