//! Conversions between a source and a sink.

ghost use Rattle.std.specs.Prelude.{◌≡◌, ◌+◌, ◌-◌, ◌^◌, ◌≤◌, ℕ, List, true, false, None, Some, min, length, IfOk, OnOk, IsOkUnless};
ghost use Rattle.std.specs.Io.KnownBytes.{IsAtEnd};
ghost use Rattle.mpslp_model_core.specs.Model.{LinearModel};
ghost use Rattle.mpslp_types.specs.declared.faults.Fault.{Fault};
ghost use Rattle.mpslp_types.specs.declared.faults.NameAt.{NameAt};
ghost use Rattle.mpslp_conversions.specs.Conversions.{IsErrUnless};
ghost use Rattle.mpslp_conversions.specs.declared.source_to_sink.TheConstants.{PIECE};
ghost use Rattle.mpslp_conversions.specs.Feeding.{IsReading};
ghost use Rattle.mpslp_conversions.specs.Runs.{SourceHeld, SourceHeldMore, IsPiece, IsLoad, IsPut, IsRun, TakesAtMost};

use crate::counting_sink::Counter;
use crate::faults::RunFault;
use crate::fed_model::read_model;
use mpslp_model::{FIXED_SEED, Format, HashSeed, Model, Sink, Source, WriteFault};
use std::alloc::Global;

/// The maximum number of bytes that one read requests.
pub(crate) const PIECE: usize = 65_536;

/// How many bytes a read of a source requests that may have this many left: one more, so that a longer source is noticed, but at
/// most a piece.
fn bytes_to_ask(room: u64) -> usize
    ensures { result ≡ min (room + 1) PIECE }
{
    if room < PIECE as u64 {
        room as usize + 1
    } else {
        PIECE
    }
}

/// Reads the next piece of a source that may have this many bytes left, and takes its length off them. Returns the length, which is
/// 0 at the end of the source.
///
/// # Errors
///
/// [`Read`](RunFault::Read) if the source has failed, [`TooLong`](RunFault::TooLong) if it has more bytes.
pub(crate) fn read_piece<R: Source>(
    source: &mut R,
    room: &mut u64,
    buffer: &mut [u8; PIECE],
) -> Result<usize, RunFault>
    ensures answer { IsPiece (R.left source.old) (R.left source.new) (R.failed source.new) room.old room.new buffer.new result }
    ensures asked { TakesAtMost (room.old + 1) (R.left source.old) (R.left source.new) }
    ensures calls { R.count source.new ≤ R.count source.old + 1 }
    ensures stays { R.failed source.old ≡ true → R.failed source.new ≡ true }
{
    let ask = bytes_to_ask(*room);
    let taken = match source.read(&mut buffer[..ask]) {
        Ok(taken) => taken,
        Err(_) => return Err(RunFault::Read),
    };
    if taken as u64 > *room {
        return Err(RunFault::TooLong);
    }
    *room -= taken as u64;
    Ok(taken)
}

/// Returns all bytes of a source.
///
/// Reads at most `max_bytes + 1` bytes, in at most `max_bytes + 1` calls. A read of 0 bytes is the end, after which the source
/// is not read again. A source that has failed stays failed.
///
/// # Errors
///
/// [`Read`](RunFault::Read) if and only if the source has failed when the call ends; otherwise
/// [`TooLong`](RunFault::TooLong) if it had more than `max_bytes` bytes left;
/// [`OutOfMemory`](RunFault::OutOfMemory) if an allocation fails. The others are never returned.
pub fn load<R: Source>(alloc: Global, max_bytes: u64, source: &mut R) -> Result<Vec<u8>, RunFault>
    ensures answer { IsLoad (R.left source.old) (R.left source.new) (R.failed source.new) max_bytes result }
    ensures accepts { (bytes : List ℕ) → SourceHeld (R.left source.old) (R.failed source.new) max_bytes bytes → IsOkUnless result RunFault.OutOfMemory }
    ensures too_long { (bytes : List ℕ) → SourceHeldMore (R.left source.old) (R.failed source.new) max_bytes bytes
        → IsErrUnless result RunFault.TooLong RunFault.OutOfMemory }
    ensures end { OnOk result (IsAtEnd (R.left source.new)) }
    ensures asked { TakesAtMost (max_bytes + 1) (R.left source.old) (R.left source.new) }
    ensures calls { R.count source.new ≤ R.count source.old + max_bytes + 1 }
    ensures calls_to_end { IfOk result (λ bytes. R.count source.new ≤ R.count source.old + length bytes.items + 1) }
    ensures stays { R.failed source.old ≡ true → R.failed source.new ≡ true }
{
    let mut bytes = Vec::new(alloc);
    let mut room = max_bytes;
    let mut buffer = [0u8; PIECE];
    'reads: loop {
        let taken = read_piece(source, &mut room, &mut buffer)?;
        if taken == 0 {
            return Ok(bytes);
        }
        if bytes.extend_from_slice(&buffer[..taken]).is_err() {
            return Err(RunFault::OutOfMemory);
        }
    }
}

/// The length of a model's text, saturated at 2^64 - 1.
fn text_len<B: Format>(model: &Model) -> u64
    requires { B.unfit model.now ≡ None }
    ensures { result ≡ min (length (B.text model.now)) (2 ^ 64 - 1) }
{
    let mut counter = Counter::new();
    let Ok(()) = B::write(model, &mut counter) else {
        unreachable!()
    };
    counter.taken()
}

/// Writes the text of a model, and flushes once.
fn put_model<B: Format, W: Sink>(model: &Model, sink: &mut W) -> Result<(), RunFault>
    ensures answer { IsPut B.unfit B.text W.holds W.failed W.count model.now sink.old sink.new result }
    ensures stays { W.failed sink.old ≡ true → W.failed sink.new ≡ true }
{
    match B::write(model, sink) {
        Ok(()) => {}
        Err(WriteFault::NotLp(name_at)) => return Err(RunFault::NotLp(name_at)),
        Err(WriteFault::Write { written }) => return Err(RunFault::Write { written }),
    }
    if sink.flush().is_err() {
        return Err(RunFault::Write {
            written: text_len::<B>(model),
        });
    }
    Ok(())
}

/// Reads the model that the bytes of a source declare in A, and prepares it to be written in B.
fn read_prepared<A: Format, B: Format, R: Source>(
    alloc: Global,
    seed: HashSeed,
    max_bytes: u64,
    source: &mut R,
) -> Result<Model, RunFault>
    ensures answer { IsReading A.declares A.first_fault (R.left source.old) (R.left source.new) (R.failed source.new) max_bytes result }
    ensures asked { TakesAtMost (max_bytes + 1) (R.left source.old) (R.left source.new) }
    ensures calls { R.count source.new ≤ R.count source.old + max_bytes + 1 }
    ensures stays { R.failed source.old ≡ true → R.failed source.new ≡ true }
{
    let model = read_model::<A, R>(alloc, seed, max_bytes, source)?;
    match B::prepare(alloc, model) {
        Ok(model) => Ok(model),
        Err(_) => Err(RunFault::OutOfMemory),
    }
}

/// Reads a source to its end, and writes to the sink the canonical text in B of the model that its bytes declare in A, flushed
/// once.
///
/// The source is read as by [`load`], but the file is not kept in memory: each piece is fed to the reader of A. The first
/// error of the bytes is reported only at the end of the source, so nothing is written before all bytes are read and accepted.
/// The source is at its end after `Ok` and after each error except [`Read`](RunFault::Read), [`TooLong`](RunFault::TooLong)
/// and [`OutOfMemory`](RunFault::OutOfMemory). The sink is called at most once for each byte of the text, and once to flush
/// it. A device that has failed stays failed.
///
/// The contract says what was written if the sink's writer shows its content, as a `Vec` does:
///
/// ```
/// let mut source = FromRead::new(bytes);
/// let mut sink = ToWrite::new(Vec::new(alloc));
/// run::<Mps, Mps, _, _>(alloc, max_bytes, &mut source, &mut sink)?;
/// let text = sink.into_inner();
/// ```
///
/// # Errors
///
/// The first [`RunFault`] that applies, in the order of its variants, but out of memory where it occurs. After
/// [`Write`](RunFault::Write) the sink has taken exactly the reported number of bytes from the start of the text, all of them
/// if only the flush failed. After any other error the sink is unchanged and was not called.
pub fn run<A: Format, B: Format, R: Source, W: Sink>(
    alloc: Global,
    max_bytes: u64,
    source: &mut R,
    sink: &mut W,
) -> Result<(), RunFault>
    ensures answer { IsRun A.declares A.first_fault B.unfit B.text W.holds W.failed W.count
        (R.left source.old) (R.left source.new) (R.failed source.new) max_bytes sink.old sink.new result }
    ensures accepts { (bytes : List ℕ) (m : LinearModel) → SourceHeld (R.left source.old) (R.failed source.new) max_bytes bytes → A.declares bytes m
        → B.unfit m ≡ None → W.failed sink.new ≡ false → IsOkUnless result RunFault.OutOfMemory }
    ensures too_long { (bytes : List ℕ) → SourceHeldMore (R.left source.old) (R.failed source.new) max_bytes bytes
        → IsErrUnless result RunFault.TooLong RunFault.OutOfMemory }
    ensures refuses { (bytes : List ℕ) (fault : Fault) → SourceHeld (R.left source.old) (R.failed source.new) max_bytes bytes
        → A.first_fault bytes fault → IsErrUnless result (RunFault.File fault) RunFault.OutOfMemory }
    ensures cannot_express { (bytes : List ℕ) (m : LinearModel) (name_at : NameAt) → SourceHeld (R.left source.old) (R.failed source.new) max_bytes bytes
        → A.declares bytes m → B.unfit m ≡ Some name_at → IsErrUnless result (RunFault.NotLp name_at) RunFault.OutOfMemory }
    ensures asked { TakesAtMost (max_bytes + 1) (R.left source.old) (R.left source.new) }
    ensures calls { R.count source.new ≤ R.count source.old + max_bytes + 1 }
    ensures source_stays { R.failed source.old ≡ true → R.failed source.new ≡ true }
    ensures sink_stays { W.failed sink.old ≡ true → W.failed sink.new ≡ true }
{
    run_seeded::<A, B, R, W>(alloc, FIXED_SEED, max_bytes, source, sink)
}

/// As [`run`], with a seed for the hashes of names. Only the time of the call depends on the seed.
pub fn run_seeded<A: Format, B: Format, R: Source, W: Sink>(
    alloc: Global,
    seed: HashSeed,
    max_bytes: u64,
    source: &mut R,
    sink: &mut W,
) -> Result<(), RunFault>
    ensures answer { IsRun A.declares A.first_fault B.unfit B.text W.holds W.failed W.count
        (R.left source.old) (R.left source.new) (R.failed source.new) max_bytes sink.old sink.new result }
    ensures accepts { (bytes : List ℕ) (m : LinearModel) → SourceHeld (R.left source.old) (R.failed source.new) max_bytes bytes → A.declares bytes m
        → B.unfit m ≡ None → W.failed sink.new ≡ false → IsOkUnless result RunFault.OutOfMemory }
    ensures too_long { (bytes : List ℕ) → SourceHeldMore (R.left source.old) (R.failed source.new) max_bytes bytes
        → IsErrUnless result RunFault.TooLong RunFault.OutOfMemory }
    ensures refuses { (bytes : List ℕ) (fault : Fault) → SourceHeld (R.left source.old) (R.failed source.new) max_bytes bytes
        → A.first_fault bytes fault → IsErrUnless result (RunFault.File fault) RunFault.OutOfMemory }
    ensures cannot_express { (bytes : List ℕ) (m : LinearModel) (name_at : NameAt) → SourceHeld (R.left source.old) (R.failed source.new) max_bytes bytes
        → A.declares bytes m → B.unfit m ≡ Some name_at → IsErrUnless result (RunFault.NotLp name_at) RunFault.OutOfMemory }
    ensures asked { TakesAtMost (max_bytes + 1) (R.left source.old) (R.left source.new) }
    ensures calls { R.count source.new ≤ R.count source.old + max_bytes + 1 }
    ensures source_stays { R.failed source.old ≡ true → R.failed source.new ≡ true }
    ensures sink_stays { W.failed sink.old ≡ true → W.failed sink.new ≡ true }
{
    let model = read_prepared::<A, B, R>(alloc, seed, max_bytes, source)?;
    put_model::<B, W>(&model, sink)
}
