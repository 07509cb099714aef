//! A sink that stores what is written to it.

ghost use Rattle.std.specs.Prelude.{◌≡◌, [], false};

use mpslp_model::{IoFailed, Sink};
use std::alloc::Global;

/// Takes whole pieces, and fails if there is no memory for one.
#[derive(Drop)]
pub(crate) struct Collected {
    bytes: Vec<u8>,
    failed: bool,
    calls: u64,
}

impl Collected {
    pub(crate) fn new(alloc: Global) -> Collected
        ensures empty { result.bytes.items ≡ [] }
        ensures works { result.failed ≡ false }
    {
        Collected {
            bytes: Vec::new(alloc),
            failed: false,
            calls: 0,
        }
    }

    pub(crate) fn into_bytes(self) -> Vec<u8>
        ensures { result.items ≡ self.bytes.items }
    {
        self.bytes
    }
}

impl Sink for Collected {
    ghost holds = { λ s bytes. s.bytes.items ≡ bytes };

    ghost failed = { λ s. s.failed };

    ghost count = { λ s. s.calls };

    fn write(&mut self, piece: &[u8]) -> Result<usize, IoFailed> {
        self.calls = self.calls.saturating_add(1);
        if self.failed || self.bytes.extend_from_slice(piece).is_err() {
            self.failed = true;
            return Err(IoFailed);
        }
        Ok(piece.len())
    }

    fn flush(&mut self) -> Result<(), IoFailed> {
        self.calls = self.calls.saturating_add(1);
        if self.failed {
            return Err(IoFailed);
        }
        Ok(())
    }

    fn has_failed(&self) -> bool {
        self.failed
    }

    fn calls(&self) -> u64 {
        self.calls
    }
}
