//! A sink that counts the bytes written to it.

ghost use Rattle.std.specs.Prelude.{◌≡◌, ◌-◌, ◌^◌, false, min, length};

use mpslp_model::{IoFailed, Sink};

/// Stores only how many bytes were written. It never fails and allocates nothing.
#[derive(Drop)]
pub(crate) struct Counter {
    /// The count saturates at 2^64 - 1.
    taken: u64,
    calls: u64,
}

impl Counter {
    pub(crate) fn new() -> Counter
        ensures { result.taken ≡ 0 }
    {
        Counter { taken: 0, calls: 0 }
    }

    pub(crate) fn taken(&self) -> u64
        ensures { result ≡ self.now.taken }
    {
        self.taken
    }
}

impl Sink for Counter {
    ghost holds = { λ s bytes. s.taken ≡ min (length bytes) (2 ^ 64 - 1) };

    ghost failed = { λ s. false };

    ghost count = { λ s. s.calls };

    fn write(&mut self, piece: &[u8]) -> Result<usize, IoFailed> {
        self.calls = self.calls.saturating_add(1);
        self.taken = self.taken.saturating_add(piece.len() as u64);
        Ok(piece.len())
    }

    fn flush(&mut self) -> Result<(), IoFailed> {
        self.calls = self.calls.saturating_add(1);
        Ok(())
    }

    fn has_failed(&self) -> bool {
        false
    }

    fn calls(&self) -> u64 {
        self.calls
    }
}
