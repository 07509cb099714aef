//! Reading a model from a source whose bytes are fed to a reader piece by piece.

ghost use Rattle.std.specs.Prelude.{◌≡◌, ◌+◌, ◌≤◌, ◌++◌, ℕ, List, true, OnOk};
ghost use Rattle.mpslp_conversions.specs.Feeding.{IsFedOn, IsModelOf, IsReading, IsTextRead};
ghost use Rattle.mpslp_conversions.specs.Runs.{ReadsWithin, TakesAtMost};

use crate::faults::RunFault;
use crate::source_to_sink::{PIECE, read_piece};
use mpslp_model::{Fault, Format, HashSeed, Model, ModelReader, ReadFault, Source};
use std::alloc::{AllocError, Global};

/// The largest number of bytes of a text that memory can hold.
const LONGEST: u64 = 9_223_372_036_854_775_807;

/// Feeds a piece to the reader, unless an error was found before; the first error is kept.
fn feed_on<P: ModelReader>(
    reader: &mut P,
    fault: &mut Option<Fault>,
    piece: &[u8],
) -> Result<(), AllocError>
    ensures { OnOk result ((bytes : List ℕ) → IsFedOn P.after P.early_fault reader.old fault.old bytes
        → IsFedOn P.after P.early_fault reader.new fault.new (bytes ++ piece.now)) }
{
    if fault.is_some() {
        return Ok(());
    }
    match reader.feed(piece) {
        Ok(()) => Ok(()),
        Err(ReadFault::File(found)) => {
            *fault = Some(found);
            Ok(())
        }
        Err(_) => Err(AllocError),
    }
}

/// The model that all bytes together declare, or the error that was found.
fn finish_fed<P: ModelReader>(reader: P, fault: Option<Fault>) -> Result<Model, RunFault>
    ensures { (bytes : List ℕ) → IsFedOn P.after P.early_fault reader fault bytes → IsModelOf P.declares P.first_fault bytes result }
{
    if let Some(found) = fault {
        return Err(RunFault::File(found));
    }
    match reader.finish_by_columns() {
        Ok(model) => Ok(model),
        Err(ReadFault::File(found)) => Err(RunFault::File(found)),
        Err(_) => Err(RunFault::OutOfMemory),
    }
}

/// Reads the model that the bytes of a source declare, without lists by rows. Reads like [`load`](crate::load), but does not
/// keep the bytes. An error in them is reported only after the source has ended.
pub(crate) fn read_model<A: Format, R: Source>(
    alloc: Global,
    seed: HashSeed,
    max_bytes: u64,
    source: &mut R,
) -> Result<Model, RunFault>
    ensures answer { IsReading A.declares A.first_fault (R.left source.old) (R.left source.new) (R.failed source.new) max_bytes result }
    ensures asked { TakesAtMost (max_bytes + 1) (R.left source.old) (R.left source.new) }
    ensures calls { R.count source.new ≤ R.count source.old + max_bytes + 1 }
    ensures stays { R.failed source.old ≡ true → R.failed source.new ≡ true }
{
    let mut reader = A::Reader::new_seeded(alloc, seed);
    let mut fault = None;
    let mut room = max_bytes;
    let mut buffer = [0u8; PIECE];
    'reads: loop {
        let taken = read_piece(source, &mut room, &mut buffer)?;
        if taken == 0 {
            return finish_fed(reader, fault);
        }
        if feed_on(&mut reader, &mut fault, &buffer[..taken]).is_err() {
            return Err(RunFault::OutOfMemory);
        }
    }
}

/// Reads a source to its end, and returns the model that its bytes declare, or their first error. Reads as [`load`](crate::load)
/// does, and asks for one byte more than `max_bytes` at most, but does not keep the bytes. The model has no lists by rows: before it
/// is written as LP, call [`Model::with_row_lists`].
///
/// # Errors
///
/// As [`load`](crate::load) for a source: [`Read`](RunFault::Read) if the source has failed, [`TooLong`](RunFault::TooLong) if it
/// has more than `max_bytes` bytes, [`OutOfMemory`](RunFault::OutOfMemory), also for a text that no memory can hold. The others are
/// never returned: an error of the file is the result.
pub fn read_text<A: Format, R: Source>(
    alloc: Global,
    seed: HashSeed,
    max_bytes: u64,
    source: &mut R,
) -> Result<Result<Model, Fault>, RunFault>
    ensures answer { IsTextRead A.declares A.first_fault (R.left source.old) (R.left source.new) (R.failed source.new) max_bytes result }
    ensures source { ReadsWithin R.left R.failed R.count max_bytes source.old source.new }
{
    let limit = max_bytes.min(LONGEST);
    match read_model::<A, R>(alloc, seed, limit, source) {
        Ok(model) => Ok(Ok(model)),
        Err(RunFault::File(fault)) => Ok(Err(fault)),
        Err(RunFault::TooLong) if limit < max_bytes => Err(RunFault::OutOfMemory),
        Err(fault) => Err(fault),
    }
}
