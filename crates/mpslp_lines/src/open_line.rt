//! An incomplete line, whose end has not been read yet.

ghost use Rattle.std.specs.Prelude.{◌≡◌, ◌++◌, ◌≤◌, ◌<◌, ◌+◌, ◌↔◌, ℕ, List, [], length, IsTrue, OnOk, MatchOption};
ghost use Rattle.mpslp_lines.specs.OpenLine.{Keeps};

use crate::legal_line::MAX_LINE_LEN;
use std::alloc::{AllocError, Global};
use std::marker::Model;

/// The most bytes that are kept of a line: those of the longest line, and a carriage return that may belong to its end.
const MAX_OPEN_LEN: usize = MAX_LINE_LEN + 1;

/// The bytes of an incomplete line. Of a line that is too long it keeps only this fact.
#[derive(Drop)]
pub(crate) struct OpenLine {
    bytes: Vec<u8>,
    is_too_long: bool,
    ghost few: { length bytes.items ≤ 1048577 },
}

impl Model for OpenLine {
    ghost use Rattle.mpslp_lines.specs.OpenLine.{KeptLine};

    ghost Value = { KeptLine };

    ghost view = { λ l. record { bytes = l.bytes.items; is_too_long = l.is_too_long } };
}

impl OpenLine {
    /// No bytes. Does not allocate.
    pub(crate) fn new(alloc: Global) -> OpenLine
        ensures { Keeps result [] }
    {
        OpenLine {
            bytes: Vec::new(alloc),
            is_too_long: false,
        }
    }

    /// Whether there are no bytes of a line.
    pub(crate) fn is_empty(&self) -> bool
        ensures { IsTrue result ↔ Keeps self.now [] }
    {
        !self.is_too_long && self.bytes.is_empty()
    }

    /// The bytes of the line, unless it is too long even without a carriage return at its end.
    pub(crate) fn bytes(&self) -> Option<&[u8]>
        ensures { (line : List ℕ) → Keeps self.now line → MatchOption result (MAX_LINE_LEN + 1 < length line) (λ bytes. bytes.now ≡ line) }
    {
        if self.is_too_long {
            return None;
        }
        Some(self.bytes.as_slice())
    }

    /// Appends more bytes of the line.
    pub(crate) fn push(&mut self, piece: &[u8]) -> Result<(), AllocError>
        ensures { OnOk result ((line : List ℕ) → Keeps self.old line → Keeps self.new (line ++ piece.now)) }
    {
        if self.is_too_long {
            return Ok(());
        }
        if piece.len() > MAX_OPEN_LEN - self.bytes.len() {
            self.bytes.clear();
            self.is_too_long = true;
            return Ok(());
        }
        self.bytes.extend_from_slice(piece)
    }

    /// Starts a new line.
    pub(crate) fn clear(&mut self)
        ensures { Keeps self.new [] }
    {
        self.bytes.clear();
        self.is_too_long = false;
    }
}
