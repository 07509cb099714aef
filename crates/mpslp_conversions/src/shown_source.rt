//! The text that shows a model, written between a source and a sink.

ghost use Rattle.std.specs.Prelude.{◌≡◌, ◌+◌, ◌-◌, ◌^◌, ◌≤◌, ℕ, List, true, false, None, min, length, IsOkUnless};
ghost use Rattle.mpslp_model_core.specs.Model.{LinearModel};
ghost use Rattle.mpslp_types.specs.declared.faults.Fault.{Fault};
ghost use Rattle.mpslp_conversions.specs.Conversions.{IsErrUnless};
ghost use Rattle.mpslp_conversions.specs.Runs.{SourceHeld, SourceHeldMore, IsPut, IsRun, TakesAtMost};
ghost use Rattle.mpslp_conversions.specs.ShownText.{shown_text};

use crate::counting_sink::Counter;
use crate::faults::RunFault;
use crate::fed_model::read_model;
use crate::shown_text::write_shown;
use mpslp_model::{FIXED_SEED, Format, HashSeed, Model, Sink, Source, WriteFault};
use std::alloc::Global;

/// The length of the text that shows a model, saturated at 2^64 - 1.
fn shown_len(model: &Model) -> u64
    ensures { result ≡ min (length (shown_text model.now)) (2 ^ 64 - 1) }
{
    let mut counter = Counter::new();
    let Ok(()) = write_shown(model, &mut counter) else {
        unreachable!()
    };
    counter.taken()
}

/// Writes the text that shows a model, and flushes once.
fn show_model<W: Sink>(model: &Model, sink: &mut W) -> Result<(), RunFault>
    ensures answer { IsPut (λ _. None) shown_text W.holds W.failed W.count model.now sink.old sink.new result }
    ensures stays { W.failed sink.old ≡ true → W.failed sink.new ≡ true }
{
    match write_shown(model, sink) {
        Ok(()) => {}
        Err(WriteFault::NotLp(_)) => unreachable!(),
        Err(WriteFault::Write { written }) => return Err(RunFault::Write { written }),
    }
    if sink.flush().is_err() {
        return Err(RunFault::Write {
            written: shown_len(model),
        });
    }
    Ok(())
}

/// Reads a source to its end, and writes to the sink the text that shows the model that its bytes declare in A, flushed once.
/// Its lines are the sense, the objective, the numbers of rows, columns and nonzeros, then each row, then each column with
/// its nonzeros.
///
/// ```text
/// sense minimize
/// objective COST constant 0 offset 0
/// rows 1 columns 1 elements 1
/// row 0 LIM1 L -inf 4 rhs 4 range 0
/// column 0 X continuous 0 inf objective 1
/// entry 0 0 1
/// ```
///
/// The source is read, and the sink is called, as by [`run`](crate::run): nothing is written before all bytes are read and
/// accepted, and the file is not kept in memory.
///
/// # Errors
///
/// The first [`RunFault`] that applies, in the order of its variants, but out of memory where it occurs.
/// [`NotLp`](RunFault::NotLp) is never returned. After [`Write`](RunFault::Write) the sink has taken exactly the reported
/// number of bytes from the start of the text, all of them if only the flush failed. After any other error the sink is
/// unchanged and was not called.
pub fn show<A: Format, R: Source, W: Sink>(
    alloc: Global,
    max_bytes: u64,
    source: &mut R,
    sink: &mut W,
) -> Result<(), RunFault>
    ensures answer { IsRun A.declares A.first_fault (λ _. None) shown_text W.holds W.failed W.count
        (R.left source.old) (R.left source.new) (R.failed source.new) max_bytes sink.old sink.new result }
    ensures accepts { (bytes : List ℕ) (m : LinearModel) → SourceHeld (R.left source.old) (R.failed source.new) max_bytes bytes → A.declares bytes m
        → W.failed sink.new ≡ false → IsOkUnless result RunFault.OutOfMemory }
    ensures too_long { (bytes : List ℕ) → SourceHeldMore (R.left source.old) (R.failed source.new) max_bytes bytes
        → IsErrUnless result RunFault.TooLong RunFault.OutOfMemory }
    ensures refuses { (bytes : List ℕ) (fault : Fault) → SourceHeld (R.left source.old) (R.failed source.new) max_bytes bytes
        → A.first_fault bytes fault → IsErrUnless result (RunFault.File fault) RunFault.OutOfMemory }
    ensures asked { TakesAtMost (max_bytes + 1) (R.left source.old) (R.left source.new) }
    ensures calls { R.count source.new ≤ R.count source.old + max_bytes + 1 }
    ensures source_stays { R.failed source.old ≡ true → R.failed source.new ≡ true }
    ensures sink_stays { W.failed sink.old ≡ true → W.failed sink.new ≡ true }
{
    show_seeded::<A, R, W>(alloc, FIXED_SEED, max_bytes, source, sink)
}

/// As [`show`], with a seed for the hashes of names. Only the time of the call depends on the seed.
pub fn show_seeded<A: Format, R: Source, W: Sink>(
    alloc: Global,
    seed: HashSeed,
    max_bytes: u64,
    source: &mut R,
    sink: &mut W,
) -> Result<(), RunFault>
    ensures answer { IsRun A.declares A.first_fault (λ _. None) shown_text W.holds W.failed W.count
        (R.left source.old) (R.left source.new) (R.failed source.new) max_bytes sink.old sink.new result }
    ensures accepts { (bytes : List ℕ) (m : LinearModel) → SourceHeld (R.left source.old) (R.failed source.new) max_bytes bytes → A.declares bytes m
        → W.failed sink.new ≡ false → IsOkUnless result RunFault.OutOfMemory }
    ensures too_long { (bytes : List ℕ) → SourceHeldMore (R.left source.old) (R.failed source.new) max_bytes bytes
        → IsErrUnless result RunFault.TooLong RunFault.OutOfMemory }
    ensures refuses { (bytes : List ℕ) (fault : Fault) → SourceHeld (R.left source.old) (R.failed source.new) max_bytes bytes
        → A.first_fault bytes fault → IsErrUnless result (RunFault.File fault) RunFault.OutOfMemory }
    ensures asked { TakesAtMost (max_bytes + 1) (R.left source.old) (R.left source.new) }
    ensures calls { R.count source.new ≤ R.count source.old + max_bytes + 1 }
    ensures source_stays { R.failed source.old ≡ true → R.failed source.new ≡ true }
    ensures sink_stays { W.failed sink.old ≡ true → W.failed sink.new ≡ true }
{
    let model = read_model::<A, R>(alloc, seed, max_bytes, source)?;
    show_model(&model, sink)
}
