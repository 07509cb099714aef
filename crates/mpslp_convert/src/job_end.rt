//! How jobs end: the line of an error, and the exit status.

ghost use Rattle.std.specs.Prelude.{◌≡◌, ◌++◌, [], ℕ, List, true, Result, if◌then◌else◌};
ghost use Rattle.mpslp_conversions.specs.FaultLine.{fault_line};
ghost use Rattle.mpslp_convert.specs.Performed.{sink_change, failure_of, input_text, is_of_input, failure_line, comparison_failure, refusal_line, refusal_status, IsReported, IsEnded, IsPrinted, IsRefused, ended_by};

use mpslp_command::JobFault;
use mpslp_conversions::{ConvertFault, RunFault, line_of};
use mpslp_io::{Buffer, Output};
use mpslp_model::{Sink, put_all};

/// The exit status of arguments that are not a job.
const WRONG_WORDS: u8 = 3;

/// The exit status if there was no memory for the arguments.
const NO_MEMORY: u8 = 5;

/// The input that an error belongs to.
#[derive(Clone, Copy)]
pub(crate) enum Input {
    Only,
    First,
    Second,
}

impl Input {
    fn text(self) -> &'static [u8]
        ensures { result.now ≡ input_text self }
    {
        match self {
            Input::Only => b"".as_slice(),
            Input::First => b"first: ".as_slice(),
            Input::Second => b"second: ".as_slice(),
        }
    }
}

/// Why a job was not done.
#[derive(Drop)]
pub(crate) struct Failure {
    input: Input,
    fault: RunFault,
}

impl Failure {
    pub(crate) fn new(input: Input, fault: RunFault) -> Failure
        ensures { result ≡ failure_of input fault }
    {
        Failure { input, fault }
    }

    /// The failure of a comparison.
    pub(crate) fn of_comparison(fault: ConvertFault) -> Failure
        ensures { result ≡ comparison_failure fault }
    {
        match fault {
            ConvertFault::First(fault) => Failure::new(Input::First, RunFault::File(fault)),
            ConvertFault::Second(fault) => Failure::new(Input::Second, RunFault::File(fault)),
            ConvertFault::NotLp(name_at) => Failure::new(Input::Only, RunFault::NotLp(name_at)),
            ConvertFault::OutOfMemory => Failure::new(Input::Only, RunFault::OutOfMemory),
        }
    }
}

/// Whether an error belongs to an input, so that its line names the input.
fn is_of_input(fault: &RunFault) -> bool
    ensures { result ≡ is_of_input fault.now }
{
    matches!(
        fault,
        RunFault::Read | RunFault::TooLong | RunFault::File(_)
    )
}

/// Writes three pieces as one text, as far as the sink takes it, and does not flush.
fn print_line<E: Sink>(err: &mut E, front: &[u8], middle: &[u8], end: &[u8])
    ensures answer { IsReported (sink_change E.Sink err.old err.new) (front.now ++ middle.now ++ end.now) }
    ensures err_stays { E.failed err.old ≡ true → E.failed err.new ≡ true }
{
    let mut buffer = Buffer::new();
    let mut output = Output::new(err, &mut buffer);
    output.put(front);
    output.put(middle);
    output.put(end);
    let _ = output.finish();
}

/// Writes the line of a failure.
fn report_failure<E: Sink>(failure: &Failure, err: &mut E)
    ensures answer { IsReported (sink_change E.Sink err.old err.new) (failure_line failure.now) }
    ensures err_stays { E.failed err.old ≡ true → E.failed err.new ≡ true }
{
    let line = line_of(&failure.fault);
    let input = if is_of_input(&failure.fault) {
        failure.input.text()
    } else {
        b"".as_slice()
    };
    print_line(err, input, line.as_bytes(), b"");
}

/// Returns the exit status of a job, and reports its failure if there is one.
pub(crate) fn status_of_end<E: Sink>(end: &Result<u8, Failure>, err: &mut E) -> u8
    ensures answer { IsEnded (sink_change E.Sink err.old err.new) end.now result }
    ensures err_stays { E.failed err.old ≡ true → E.failed err.new ≡ true }
{
    match end {
        Ok(status) => *status,
        Err(failure) => {
            report_failure(failure, err);
            failure.fault.status()
        }
    }
}

/// Writes a text to a sink, and flushes it once.
pub(crate) fn print<W: Sink>(text: &[u8], out: &mut W) -> Result<(), RunFault>
    ensures answer { IsPrinted (sink_change W.Sink out.old out.new) text.now result }
    ensures out_stays { W.failed out.old ≡ true → W.failed out.new ≡ true }
{
    let mut written = 0;
    if put_all(out, &mut written, text).is_err() {
        return Err(RunFault::Write { written });
    }
    match out.flush() {
        Ok(()) => Ok(()),
        Err(_) => Err(RunFault::Write { written }),
    }
}

/// The end of a job whose last step had this result.
pub(crate) fn ended_by(status: u8, answer: Result<(), RunFault>) -> Result<u8, Failure>
    ensures { result ≡ ended_by status answer }
{
    match answer {
        Ok(()) => Ok(status),
        Err(fault) => Err(Failure::new(Input::Only, fault)),
    }
}

/// Reports why there is no job, and returns the exit status.
pub(crate) fn refuse<W: Sink, E: Sink>(fault: &JobFault, out: &mut W, err: &mut E) -> u8
    ensures answer { IsRefused (sink_change W.Sink out.old out.new) (sink_change E.Sink err.old err.new) fault.now result }
    ensures out_stays { W.failed out.old ≡ true → W.failed out.new ≡ true }
    ensures err_stays { E.failed err.old ≡ true → E.failed err.new ≡ true }
{
    match fault {
        JobFault::Help(text) => {
            let answer = print(text.as_str().as_bytes(), out);
            status_of_end(&ended_by(0, answer), err)
        }
        JobFault::Usage(text) => {
            print_line(err, text.as_str().as_bytes(), b"", b"");
            WRONG_WORDS
        }
        JobFault::UnknownFormat(word) => {
            print_line(err, b"unknown format: ", word.as_str().as_bytes(), b"\n");
            WRONG_WORDS
        }
        JobFault::BothInputs => {
            print_line(err, b"both inputs are -\n", b"", b"");
            WRONG_WORDS
        }
        JobFault::OutOfMemory => {
            print_line(err, b"out of memory\n", b"", b"");
            NO_MEMORY
        }
    }
}
