//! The jobs of the program, between sources and sinks.

ghost use Rattle.std.specs.Prelude.{◌≡◌, ℕ, List, None, true};
ghost use Rattle.mpslp_conversions.specs.Conversions.{IsComparison};
ghost use Rattle.mpslp_conversions.specs.Feeding.{IsModelOrFault};
ghost use Rattle.mpslp_conversions.specs.Runs.{ReadsWithin};
ghost use Rattle.mpslp_conversions.specs.ShownText.{shown_text};
ghost use Rattle.mpslp_convert.specs.Performed.{source_change, sink_change, IsRunDone, IsSaid, IsSecondDone, IsSameDone, IsDone, IsPerformed};
ghost use Rattle.mpslp_write.specs.ByForm.{declares_in, first_fault_in, unfit_in, text_in};

use crate::job_end::{Failure, Input, ended_by, print, refuse, status_of_end};
use mpslp_command::{Job, JobFault};
use mpslp_conversions::{ConvertFault, read_text, run_seeded, show_seeded};
use mpslp_model::{FIXED_SEED, Fault, Format, HashSeed, Model, Sink, Source};
use mpslp_types::Form;
use mpslp_write::{Lp, Mps};
use std::alloc::Global;

/// Writes the canonical text of the model that a source declares.
fn canon<R: Source, W: Sink>(
    alloc: Global,
    seed: HashSeed,
    max_bytes: u64,
    from: Form,
    to: Form,
    source: &mut R,
    out: &mut W,
) -> Result<u8, Failure>
    ensures answer { IsRunDone (declares_in from) (first_fault_in from) (unfit_in to) (text_in to) max_bytes
        (source_change R.Source source.old source.new) (sink_change W.Sink out.old out.new) result }
    ensures source { ReadsWithin R.left R.failed R.count max_bytes source.old source.new }
    ensures out_stays { W.failed out.old ≡ true → W.failed out.new ≡ true }
{
    match (from, to) {
        (Form::Mps, Form::Mps) => ended_by(
            0,
            run_seeded::<Mps, Mps, R, W>(alloc, seed, max_bytes, source, out),
        ),
        (Form::Mps, Form::Lp) => ended_by(
            0,
            run_seeded::<Mps, Lp, R, W>(alloc, seed, max_bytes, source, out),
        ),
        (Form::Lp, Form::Mps) => ended_by(
            0,
            run_seeded::<Lp, Mps, R, W>(alloc, seed, max_bytes, source, out),
        ),
        (Form::Lp, Form::Lp) => ended_by(
            0,
            run_seeded::<Lp, Lp, R, W>(alloc, seed, max_bytes, source, out),
        ),
    }
}

/// Writes the text that shows the model that a source declares.
fn show_in<R: Source, W: Sink>(
    alloc: Global,
    seed: HashSeed,
    max_bytes: u64,
    from: Form,
    source: &mut R,
    out: &mut W,
) -> Result<u8, Failure>
    ensures answer { IsRunDone (declares_in from) (first_fault_in from) (λ m. None) shown_text max_bytes
        (source_change R.Source source.old source.new) (sink_change W.Sink out.old out.new) result }
    ensures source { ReadsWithin R.left R.failed R.count max_bytes source.old source.new }
    ensures out_stays { W.failed out.old ≡ true → W.failed out.new ≡ true }
{
    match from {
        Form::Mps => ended_by(
            0,
            show_seeded::<Mps, R, W>(alloc, seed, max_bytes, source, out),
        ),
        Form::Lp => ended_by(
            0,
            show_seeded::<Lp, R, W>(alloc, seed, max_bytes, source, out),
        ),
    }
}

/// Whether two texts declare the same model, from what was read of each. An error of the first text is reported first.
fn same_of<A: Format, B: Format>(
    one: Result<Model, Fault>,
    other: Result<Model, Fault>,
) -> Result<bool, ConvertFault>
    ensures { (first second : List ℕ) → IsModelOrFault A.declares A.first_fault first one → IsModelOrFault B.declares B.first_fault second other
        → IsComparison A.declares A.first_fault B.declares B.first_fault first second result }
{
    match one {
        Ok(one) => match other {
            Ok(other) => Ok(one.same(&other)),
            Err(fault) => Err(ConvertFault::Second(fault)),
        },
        Err(fault) => Err(ConvertFault::First(fault)),
    }
}

/// Prints the result of a comparison.
fn print_comparison<W: Sink>(same: Result<bool, ConvertFault>, out: &mut W) -> Result<u8, Failure>
    ensures answer { IsSaid (sink_change W.Sink out.old out.new) same result }
    ensures out_stays { W.failed out.old ≡ true → W.failed out.new ≡ true }
{
    match same {
        Ok(true) => ended_by(0, print(b"same\n", out)),
        Ok(false) => ended_by(1, print(b"not the same\n", out)),
        Err(fault) => Err(Failure::of_comparison(fault)),
    }
}

/// Prints whether two sources declare the same model. Both are read to their ends before an error in a text is reported.
fn compare<A: Format, B: Format, R: Source, S: Source, W: Sink>(
    alloc: Global,
    seed: HashSeed,
    max_bytes: u64,
    first: &mut R,
    second: &mut S,
    out: &mut W,
) -> Result<u8, Failure>
    ensures answer { IsSameDone A.declares A.first_fault B.declares B.first_fault max_bytes
        (source_change R.Source first.old first.new) (source_change S.Source second.old second.new) (sink_change W.Sink out.old out.new) result }
    ensures first { ReadsWithin R.left R.failed R.count max_bytes first.old first.new }
    ensures second { ReadsWithin S.left S.failed S.count max_bytes second.old second.new }
    ensures out_stays { W.failed out.old ≡ true → W.failed out.new ≡ true }
{
    let one = match read_text::<A, R>(alloc, seed, max_bytes, first) {
        Ok(one) => one,
        Err(fault) => return Err(Failure::new(Input::First, fault)),
    };
    let other = match read_text::<B, S>(alloc, seed, max_bytes, second) {
        Ok(other) => other,
        Err(fault) => return Err(Failure::new(Input::Second, fault)),
    };
    print_comparison(same_of::<A, B>(one, other), out)
}

/// Prints whether two sources, each in its own format, declare the same model.
fn same<R: Source, S: Source, W: Sink>(
    alloc: Global,
    seed: HashSeed,
    max_bytes: u64,
    first_format: Form,
    second_format: Form,
    first: &mut R,
    second: &mut S,
    out: &mut W,
) -> Result<u8, Failure>
    ensures answer { IsSameDone (declares_in first_format) (first_fault_in first_format) (declares_in second_format) (first_fault_in second_format) max_bytes
        (source_change R.Source first.old first.new) (source_change S.Source second.old second.new) (sink_change W.Sink out.old out.new) result }
    ensures first { ReadsWithin R.left R.failed R.count max_bytes first.old first.new }
    ensures second { ReadsWithin S.left S.failed S.count max_bytes second.old second.new }
    ensures out_stays { W.failed out.old ≡ true → W.failed out.new ≡ true }
{
    match (first_format, second_format) {
        (Form::Mps, Form::Mps) => compare::<Mps, Mps, R, S, W>(
            alloc, seed, max_bytes, first, second, out,
        ),
        (Form::Mps, Form::Lp) => compare::<Mps, Lp, R, S, W>(
            alloc, seed, max_bytes, first, second, out,
        ),
        (Form::Lp, Form::Mps) => compare::<Lp, Mps, R, S, W>(
            alloc, seed, max_bytes, first, second, out,
        ),
        (Form::Lp, Form::Lp) => compare::<Lp, Lp, R, S, W>(
            alloc, seed, max_bytes, first, second, out,
        ),
    }
}

/// Does a job.
fn do_job<R: Source, S: Source, W: Sink>(
    alloc: Global,
    seed: HashSeed,
    max_bytes: u64,
    job: &Job,
    first: &mut R,
    second: &mut S,
    out: &mut W,
) -> Result<u8, Failure>
    ensures answer { IsDone max_bytes
        (source_change R.Source first.old first.new) (source_change S.Source second.old second.new) (sink_change W.Sink out.old out.new) job.now result }
    ensures first { ReadsWithin R.left R.failed R.count max_bytes first.old first.new }
    ensures second { ReadsWithin S.left S.failed S.count max_bytes second.old second.new }
    ensures out_stays { W.failed out.old ≡ true → W.failed out.new ≡ true }
{
    match job {
        Job::Canon { from, to, path: _ } => canon(alloc, seed, max_bytes, *from, *to, first, out),
        Job::Same {
            first_format,
            first: _,
            second_format,
            second: _,
        } => same(
            alloc,
            seed,
            max_bytes,
            *first_format,
            *second_format,
            first,
            second,
            out,
        ),
        Job::Show { from, path: _ } => show_in(alloc, seed, max_bytes, *from, first, out),
    }
}

/// Does a job, or reports why the arguments are not a job, and returns the exit status of the program.
///
/// `canon` is [`run`] and `show` is [`show`], from the first source to `out`. `same` reads the first source to its end and
/// then the second, keeps both models but neither text, and writes `same` or `not the same` to `out`. Its result is that of
/// [`load`](crate::load) of each source and then of [`same_model`](crate::same_model), so an error in a text is reported only
/// after both sources have ended. A requested text (`--help`) is also written to `out`. `out` is flushed once after everything
/// is written. An error is reported on `err` in one line, which is not flushed; without an error nothing is written there.
/// Paths are ignored: the caller opens the inputs.
///
/// | status | when | written to `err` |
/// |---|---|---|
/// | 0 | done; the same model; a requested text | |
/// | 1 | not the same model | |
/// | 2 | a file was rejected | `line 7: DuplicateEntry`, `file: TooLong`, `row 3: NotLp`, .. |
/// | 3 | the arguments are not a job | clap's text, `unknown format: WORD`, `both inputs are -` |
/// | 4 | a read, a write or a flush failed | `read failed`, `write failed` |
/// | 5 | an allocation failed | `out of memory` |
///
/// If there are two inputs, the line of an error that belongs to one of them (a rejected file, one that is too long, a failed
/// read) starts with `first: ` or `second: `. The second source is read only by `same`, after the end of the first. No source
/// is read if the arguments are not a job. A failure of `err` does not change the status.
///
/// From each source at most `max_bytes + 1` bytes are requested, in at most as many calls. `out` is called at most once for
/// each byte of its text, and once to flush it; `err` at most once for each byte of its line. A device that has failed stays
/// failed.
pub fn perform<R: Source, S: Source, W: Sink, E: Sink>(
    alloc: Global,
    max_bytes: u64,
    job: &Result<Job, JobFault>,
    first: &mut R,
    second: &mut S,
    out: &mut W,
    err: &mut E,
) -> u8
    ensures answer { IsPerformed max_bytes
        (source_change R.Source first.old first.new) (source_change S.Source second.old second.new)
        (sink_change W.Sink out.old out.new) (sink_change E.Sink err.old err.new) job.now result }
    ensures first { ReadsWithin R.left R.failed R.count max_bytes first.old first.new }
    ensures second { ReadsWithin S.left S.failed S.count max_bytes second.old second.new }
    ensures out_stays { W.failed out.old ≡ true → W.failed out.new ≡ true }
    ensures err_stays { E.failed err.old ≡ true → E.failed err.new ≡ true }
{
    perform_seeded::<R, S, W, E>(alloc, FIXED_SEED, max_bytes, job, first, second, out, err)
}

/// As [`perform`], with a seed for the hashes of names. Only the time of the call depends on the seed.
pub fn perform_seeded<R: Source, S: Source, W: Sink, E: Sink>(
    alloc: Global,
    seed: HashSeed,
    max_bytes: u64,
    job: &Result<Job, JobFault>,
    first: &mut R,
    second: &mut S,
    out: &mut W,
    err: &mut E,
) -> u8
    ensures answer { IsPerformed max_bytes
        (source_change R.Source first.old first.new) (source_change S.Source second.old second.new)
        (sink_change W.Sink out.old out.new) (sink_change E.Sink err.old err.new) job.now result }
    ensures first { ReadsWithin R.left R.failed R.count max_bytes first.old first.new }
    ensures second { ReadsWithin S.left S.failed S.count max_bytes second.old second.new }
    ensures out_stays { W.failed out.old ≡ true → W.failed out.new ≡ true }
    ensures err_stays { E.failed err.old ≡ true → E.failed err.new ≡ true }
{
    match job {
        Ok(job) => {
            let end = do_job(alloc, seed, max_bytes, job, first, second, out);
            status_of_end(&end, err)
        }
        Err(fault) => refuse(fault, out, err),
    }
}
