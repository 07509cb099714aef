//! A sink that takes a number of bytes and then fails.

ghost use Rattle.std.specs.Prelude.{◌≡◌, ◌==◌, ◌-◌, ◌++◌, ◌↔◌, [], true, false, length, min, take, IfOk, IsErr};
ghost use Rattle.mpslp_io.specs.Devices.{one_call_more, Takes, KeepsHeld};

use mpslp_io::{IoFailed, Sink};
use std::alloc::{AllocError, Global};
use std::marker::Model;

/// Takes and keeps a number of bytes in total; then each call fails, `flush` too.
#[derive(Drop)]
pub struct FailingWriter {
    taken: Vec<u8>,
    /// How many more bytes it takes.
    room: usize,
    failed: bool,
    calls: u64,
}

impl Model for FailingWriter {
    ghost use Rattle.std.specs.Prelude.{◌≡◌, ◌+◌, ◌≤◌, true};
    ghost use Rattle.std.specs.Vec.{vec_capacity, vec_len};
    ghost use Rattle.mpslp_test_devices.specs.Failing.{Taking};

    ghost Value = { Taking };

    ghost view = { λ w. record { taken = w.taken.items; room = w.room; has_failed = w.failed; calls = w.calls } };

    ghost invariant = { λ w. (vec_len w.taken + w.room ≤ vec_capacity w.taken) × (w.failed ≡ true → w.room ≡ 0) };
}

impl FailingWriter {
    /// A writer before its first call. Memory for all `take` bytes is allocated here: later calls allocate nothing.
    ///
    /// # Errors
    ///
    /// [`AllocError`] if this allocation fails.
    pub fn new(alloc: Global, take: usize) -> Result<FailingWriter, AllocError>
        ensures { IfOk result (λ w. w ≡ record { taken = []; room = take; has_failed = false; calls = 0 }) }
    {
        Ok(FailingWriter {
            taken: Vec::with_capacity(alloc, take)?,
            room: take,
            failed: false,
            calls: 0,
        })
    }

    /// The bytes that it took, in order.
    pub fn bytes(&self) -> &[u8]
        ensures { result.now ≡ self.now.taken }
    {
        self.taken.as_slice()
    }
}

/// A write takes as many bytes of the piece as there is room for. If no room is left, each write fails, even of an empty
/// piece, and so does each flush.
impl Sink for FailingWriter {
    ghost holds = { λ w bytes. w.taken ≡ bytes };

    ghost failed = { λ w. w.has_failed };

    ghost count = { λ w. w.calls };

    fn write(&mut self, piece: &[u8]) -> Result<usize, IoFailed>
        ensures bytes { Takes (λ w bytes. w.taken ≡ bytes) self.old self.new piece.now result }
        ensures fails { IsErr result ↔ (self.new.has_failed ≡ true) }
        ensures stays { self.old.has_failed ≡ true → self.new.has_failed ≡ true }
        ensures counted { self.new.calls ≡ one_call_more self.old.calls }
        ensures fails_without_room { self.new.has_failed ≡ (self.old.room == 0) }
        ensures taken { IfOk result (λ n. n ≡ min (length piece.now) self.old.room) }
        ensures grown { self.new.taken ≡ self.old.taken ++ take self.old.room piece.now }
        ensures room { self.new.room ≡ self.old.room - length piece.now }
    {
        self.calls = self.calls.saturating_add(1);
        if self.room == 0 {
            self.failed = true;
            return Err(IoFailed);
        }
        let taken = piece.len().min(self.room);
        let is_full = self.taken.extend_from_slice(&piece[..taken]).is_err();
        prove!(!is_full);
        self.room -= taken;
        Ok(taken)
    }

    fn flush(&mut self) -> Result<(), IoFailed>
        ensures bytes { KeepsHeld (λ w bytes. w.taken ≡ bytes) self.old self.new }
        ensures fails { IsErr result ↔ (self.new.has_failed ≡ true) }
        ensures stays { self.old.has_failed ≡ true → self.new.has_failed ≡ true }
        ensures counted { self.new.calls ≡ one_call_more self.old.calls }
        ensures fails_without_room { self.new.has_failed ≡ (self.old.room == 0) }
        ensures kept { (self.new.taken ≡ self.old.taken) × (self.new.room ≡ self.old.room) }
    {
        self.calls = self.calls.saturating_add(1);
        self.failed = self.room == 0;
        if self.failed { Err(IoFailed) } else { Ok(()) }
    }

    fn has_failed(&self) -> bool {
        self.failed
    }

    fn calls(&self) -> u64 {
        self.calls
    }
}
