//! The readers and writers of std as devices.

ghost use Rattle.std.specs.Prelude.{◌≡◌, ◌↔◌, ℕ, List, true, false, Some, IsErr};
ghost use Rattle.mpslp_io.specs.Devices.{one_call_more};

use crate::devices::{IoFailed, Sink, Source};
use std::io::{Read, Write};

/// The calls of a device so far.
#[derive(Clone, Copy)]
struct Calls {
    /// Their number, at most 2^64 - 1.
    count: u64,
    /// Whether one of them failed.
    failed: bool,
}

impl Calls {
    /// No calls.
    fn none() -> Calls
        ensures { result ≡ record { count = 0; failed = false } }
    {
        Calls {
            count: 0,
            failed: false,
        }
    }

    /// Counts one more call. Returns an error if an earlier call failed.
    fn start(&mut self) -> Result<(), IoFailed>
        ensures counted { self.new.count ≡ one_call_more self.old.count }
        ensures kept { self.new.failed ≡ self.old.failed }
        ensures refused { IsErr result ↔ (self.old.failed ≡ true) }
    {
        self.count = self.count.saturating_add(1);
        if self.failed { Err(IoFailed) } else { Ok(()) }
    }

    /// Marks the call that was counted last as failed. All later calls fail, too.
    fn fail(&mut self) -> IoFailed
        ensures { self.new ≡ record self.old { failed = true } }
    {
        self.failed = true;
        IoFailed
    }
}

/// A source that reads from a reader of std. The bytes left are those that the reader has left, if they are known.
#[derive(Drop)]
pub struct FromRead<R> {
    reader: R,
    reads: Calls,
}

impl<R: Read> FromRead<R> {
    /// A source that reads from this reader, from its current position. It has not failed and has no calls.
    pub fn new(reader: R) -> FromRead<R>
        ensures left { ⟦<FromRead<R> as Source>⟧.left result ≡ R.remaining reader }
        ensures works { ⟦<FromRead<R> as Source>⟧.failed result ≡ false }
        ensures fresh { ⟦<FromRead<R> as Source>⟧.count result ≡ 0 }
    {
        FromRead {
            reader,
            reads: Calls::none(),
        }
    }

    /// The reader at its current position: it has the bytes left that the source had.
    pub fn into_inner(self) -> R
        ensures { R.remaining result ≡ ⟦<FromRead<R> as Source>⟧.left self }
    {
        self.reader
    }
}

/// Each `read` reads once, or not at all after a failure. Every error of the reader is a failure, also
/// [`Interrupted`](std::io::ErrorKind::Interrupted). An empty buffer is passed to the reader like any other.
impl<R: Read> Source for FromRead<R> {
    ghost left = { λ s. R.remaining s.reader };

    ghost failed = { λ s. s.reads.failed };

    ghost count = { λ s. s.reads.count };

    fn read(&mut self, buffer: &mut [u8]) -> Result<usize, IoFailed> {
        self.reads.start()?;
        match self.reader.read(buffer) {
            Ok(given) => Ok(given),
            Err(_) => Err(self.reads.fail()),
        }
    }

    fn has_failed(&self) -> bool {
        self.reads.failed
    }

    fn calls(&self) -> u64 {
        self.reads.count
    }
}

/// A sink that writes to a writer of std. It holds the bytes that the writer holds, if they are known.
#[derive(Drop)]
pub struct ToWrite<W> {
    writer: W,
    writes: Calls,
}

impl<W: Write> ToWrite<W> {
    /// A sink that writes to this writer, after what was written before. It has not failed and has no calls.
    pub fn new(writer: W) -> ToWrite<W>
        ensures holds { (bytes : List ℕ) → ⟦<ToWrite<W> as Sink>⟧.holds result bytes ↔ (W.contents writer ≡ Some bytes) }
        ensures works { ⟦<ToWrite<W> as Sink>⟧.failed result ≡ false }
        ensures fresh { ⟦<ToWrite<W> as Sink>⟧.count result ≡ 0 }
    {
        ToWrite {
            writer,
            writes: Calls::none(),
        }
    }

    /// The writer: it holds the bytes that the sink held. It is not flushed.
    pub fn into_inner(self) -> W
        ensures { (bytes : List ℕ) → ⟦<ToWrite<W> as Sink>⟧.holds self bytes ↔ (W.contents result ≡ Some bytes) }
    {
        self.writer
    }
}

/// Each `write` writes once and each `flush` flushes once, or not at all after a failure. Every error of the writer is a
/// failure, also [`Interrupted`](std::io::ErrorKind::Interrupted), and so is a write that accepts 0 bytes of a nonempty
/// piece. The empty piece is passed to the writer like any other.
impl<W: Write> Sink for ToWrite<W> {
    ghost holds = { λ s bytes. W.contents s.writer ≡ Some bytes };

    ghost failed = { λ s. s.writes.failed };

    ghost count = { λ s. s.writes.count };

    #[tactic(auto, using(crate::proofs::DeviceLemmas::appends_some, crate::proofs::DeviceLemmas::keeps_some))]
    fn write(&mut self, piece: &[u8]) -> Result<usize, IoFailed> {
        self.writes.start()?;
        match self.writer.write(piece) {
            Ok(0) if !piece.is_empty() => Err(self.writes.fail()),
            Ok(taken) => Ok(taken),
            Err(_) => Err(self.writes.fail()),
        }
    }

    #[tactic(auto, using(crate::proofs::DeviceLemmas::keeps_some))]
    fn flush(&mut self) -> Result<(), IoFailed> {
        self.writes.start()?;
        match self.writer.flush() {
            Ok(()) => Ok(()),
            Err(_) => Err(self.writes.fail()),
        }
    }

    fn has_failed(&self) -> bool {
        self.writes.failed
    }

    fn calls(&self) -> u64 {
        self.writes.count
    }
}
