//! A source that returns its bytes in small pieces and fails in a chosen read.

ghost use Rattle.std.specs.Prelude.{◌≡◌, ◌==◌, ◌||◌, ◌≤◌, ◌↔◌, List, true, false, length, min, max, Some, IfOk, OnErr, IsErr};
ghost use Rattle.std.specs.Io.KnownBytes.{ReadConsumes};
ghost use Rattle.mpslp_io.specs.Devices.{one_call_more};

use mpslp_io::{IoFailed, Source};
use std::marker::Model;

/// Returns its bytes in pieces, and fails in the chosen read and in all later ones.
#[derive(Drop)]
pub struct FailingReader<'a> {
    left: &'a [u8],
    /// The maximum number of bytes that a read returns, at least 1.
    piece: usize,
    /// The number of the read that fails, or 0 for none.
    fail_at: u64,
    failed: bool,
    calls: u64,
}

impl<'a> Model for FailingReader<'a> {
    ghost use Rattle.std.specs.Prelude.{◌≤◌};
    ghost use Rattle.mpslp_test_devices.specs.Failing.{Giving};

    ghost Value = { Giving };

    ghost view = { λ r. record { left = r.left.now; piece = r.piece; fail_at = r.fail_at; has_failed = r.failed; calls = r.calls } };

    ghost invariant = { λ r. 1 ≤ r.piece };
}

impl<'a> FailingReader<'a> {
    /// A reader before its first read. A read returns at most `piece` bytes, or 1 if `piece` is 0. Read number `fail_at`, counted
    /// from 1, fails; if it is 0, no read fails.
    pub fn new(bytes: &'a [u8], piece: usize, fail_at: u64) -> FailingReader<'a>
        ensures { result ≡ record { left = bytes.now; piece = max piece 1; fail_at = fail_at; has_failed = false; calls = 0 } }
    {
        FailingReader {
            left: bytes,
            piece: piece.max(1),
            fail_at,
            failed: false,
            calls: 0,
        }
    }
}

/// A read returns as many bytes as are left, fit the buffer, and are in a piece. Every read is counted, also those after the
/// failing one. A failing read leaves the bytes and the buffer unchanged.
impl Source for FailingReader<'_> {
    ghost left = { λ r. Some r.left };

    ghost failed = { λ r. r.has_failed };

    ghost count = { λ r. r.calls };

    fn read(&mut self, buffer: &mut [u8]) -> Result<usize, IoFailed>
        ensures bound { IfOk result (λ n. n ≤ length buffer.new) }
        ensures bytes { ReadConsumes (Some self.old.left) (Some self.new.left) result buffer.new }
        ensures fails { IsErr result ↔ (self.new.has_failed ≡ true) }
        ensures stays { self.old.has_failed ≡ true → self.new.has_failed ≡ true }
        ensures counted { self.new.calls ≡ one_call_more self.old.calls }
        ensures fails_at { self.new.has_failed ≡ (self.old.has_failed || one_call_more self.old.calls == self.old.fail_at) }
        ensures given { IfOk result (λ n. n ≡ min (length self.old.left) (min (length buffer.old) self.old.piece)) }
        ensures untouched { OnErr result (buffer.new ≡ buffer.old) }
        ensures kept { (self.new.piece ≡ self.old.piece) × (self.new.fail_at ≡ self.old.fail_at) }
    {
        self.calls = self.calls.saturating_add(1);
        if self.failed || self.calls == self.fail_at {
            self.failed = true;
            return Err(IoFailed);
        }
        let given = self.left.len().min(buffer.len().min(self.piece));
        buffer[..given].copy_from_slice(&self.left[..given]);
        self.left = &self.left[given..];
        Ok(given)
    }

    fn has_failed(&self) -> bool {
        self.failed
    }

    fn calls(&self) -> u64 {
        self.calls
    }
}
