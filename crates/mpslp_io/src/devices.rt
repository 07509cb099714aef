//! Devices: sources of bytes and sinks for bytes.
//!
//! Code that reads or writes is generic over [`Source`] and [`Sink`], and proved for every device that meets their
//! contracts. A device counts its calls, and a device that has failed stays failed.

ghost use Rattle.std.specs.Prelude.{◌≡◌, ℕ, ◌≤◌, ◌↔◌, List, Bool, true, length, Option, IfOk, IsErr};
ghost use Rattle.std.specs.Io.KnownBytes.{ReadConsumes};
ghost use Rattle.mpslp_io.specs.Devices.{one_call_more, Takes, KeepsHeld};

use thiserror::Error;

/// A device has failed: a read, a write or a flush failed, in this call or an earlier one.
#[derive(Clone, Copy, Debug, PartialEq, Eq, Error)]
#[error("the device has failed")]
pub struct IoFailed;

/// A source of bytes.
pub trait Source {
    /// The bytes that are left, if they are known.
    ghost left: { Self → Option (List ℕ) };

    /// Whether the source has failed.
    ghost failed: { Self → Bool };

    /// The number of calls of `read` so far, at most 2^64 - 1.
    ghost count: { Self → ℕ };

    /// Reads the next bytes into the start of the buffer, and returns how many: at most the length of the buffer, and 0 for
    /// a nonempty buffer only at the end of the bytes. Returns [`IoFailed`] if and only if the source has failed when the
    /// call ends, in this call or an earlier one; then no bytes were consumed, and the source stays failed. A read into an
    /// empty buffer also counts as a call.
    fn read(&mut self, buffer: &mut [u8]) -> Result<usize, IoFailed>
        ensures bound { IfOk result (λ n. n ≤ length buffer.new) }
        ensures bytes { ReadConsumes (left self.old) (left self.new) result buffer.new }
        ensures fails { IsErr result ↔ (failed self.new ≡ true) }
        ensures stays { failed self.old ≡ true → failed self.new ≡ true }
        ensures counted { count self.new ≡ one_call_more (count self.old) };

    /// Whether the source has failed. Reads nothing.
    fn has_failed(&self) -> bool
        ensures { result ≡ failed self.now };

    /// The number of calls of `read`, including failed ones, at most 2^64 - 1.
    fn calls(&self) -> u64
        ensures { result ≡ count self.now };
}

/// A sink for bytes.
pub trait Sink {
    /// The sink holds these bytes. A sink that keeps only their number, or nothing, may hold many lists of bytes, or none.
    ghost holds: { Self → List ℕ → Type 0 };

    /// Whether the sink has failed.
    ghost failed: { Self → Bool };

    /// The number of calls of `write` and `flush` so far, at most 2^64 - 1.
    ghost count: { Self → ℕ };

    /// Writes a prefix of the piece, and returns its length: at least one byte unless the piece is empty. Returns
    /// [`IoFailed`] if and only if the sink has failed when the call ends, in this call or an earlier one; then nothing was
    /// written, and the sink stays failed. A write of the empty piece also counts as a call.
    fn write(&mut self, piece: &[u8]) -> Result<usize, IoFailed>
        ensures bytes { Takes holds self.old self.new piece.now result }
        ensures fails { IsErr result ↔ (failed self.new ≡ true) }
        ensures stays { failed self.old ≡ true → failed self.new ≡ true }
        ensures counted { count self.new ≡ one_call_more (count self.old) };

    /// Flushes what was written. Returns [`IoFailed`] if and only if the sink has failed when the call ends, in this call or
    /// an earlier one; then it stays failed. In either case the sink holds the same bytes as before.
    fn flush(&mut self) -> Result<(), IoFailed>
        ensures bytes { KeepsHeld holds self.old self.new }
        ensures fails { IsErr result ↔ (failed self.new ≡ true) }
        ensures stays { failed self.old ≡ true → failed self.new ≡ true }
        ensures counted { count self.new ≡ one_call_more (count self.old) };

    /// Whether the sink has failed. Writes and flushes nothing.
    fn has_failed(&self) -> bool
        ensures { result ≡ failed self.now };

    /// The number of calls of `write` and `flush`, including failed ones, at most 2^64 - 1.
    fn calls(&self) -> u64
        ensures { result ≡ count self.now };
}
