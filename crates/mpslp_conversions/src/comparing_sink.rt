//! A sink that compares what is written to it with a text.

ghost use Rattle.std.specs.Prelude.{◌≡◌, ◌∷◌, ◌++◌, ℕ, List, false, length};
ghost use Rattle.std.specs.Bool.{Decides};
ghost use Rattle.mpslp_conversions.specs.Compared.{Compared};

use mpslp_model::{IoFailed, Sink};

/// Compares what is written with an expected text. It never fails and allocates nothing.
#[derive(Drop)]
pub(crate) struct Comparison<'a> {
    /// The rest of the expected text, unless something else was written.
    rest: &'a [u8],
    /// Something else was written.
    differs: bool,
    calls: u64,
}

impl<'a> Comparison<'a> {
    /// A comparison with this text, before anything is written.
    pub(crate) fn with(wanted: &'a [u8]) -> Comparison<'a>
        ensures { Compared result.differs result.rest.now (length wanted.now ∷ wanted.now) }
    {
        Comparison {
            rest: wanted,
            differs: false,
            calls: 0,
        }
    }

    /// Whether exactly the expected text was written.
    pub(crate) fn is_same(&self) -> bool
        ensures { (wanted text : List ℕ) → Compared self.now.differs self.now.rest.now (length wanted ∷ (wanted ++ text))
            → Decides result (wanted ≡ text) }
    {
        !self.differs && self.rest.is_empty()
    }
}

impl Sink for Comparison<'_> {
    ghost holds = { λ s bytes. Compared s.differs s.rest.now bytes };

    ghost failed = { λ s. false };

    ghost count = { λ s. s.calls };

    fn write(&mut self, piece: &[u8]) -> Result<usize, IoFailed> {
        self.calls = self.calls.saturating_add(1);
        match self.rest.strip_prefix(piece) {
            Some(rest) => self.rest = rest,
            None => self.differs = true,
        }
        Ok(piece.len())
    }

    fn flush(&mut self) -> Result<(), IoFailed> {
        self.calls = self.calls.saturating_add(1);
        Ok(())
    }

    fn has_failed(&self) -> bool {
        false
    }

    fn calls(&self) -> u64 {
        self.calls
    }
}
