//! Divides a text that comes in pieces into lines.

ghost use Rattle.std.specs.Prelude.{◌≡◌, ◌∷◌, ℕ, List, [], false, OnOk};
ghost use Rattle.mpslp_model.specs.CompleteLines.{HasNoFeed};
ghost use Rattle.mpslp_model.specs.Formats.{IsAnswerTo};
ghost use Rattle.mpslp_lines.specs.OpenLine.{Keeps};
ghost use Rattle.mpslp_lines.specs.Pieces.{IsFed, WasFed, Feeds, EndsText};

use crate::line_ends::{split_after_last_feed, split_at_first_feed, without_return};
use crate::open_line::OpenLine;
use crate::read_lines::{ReadLines, read_lines, read_one};
use mpslp_model::{HashSeed, Model, ReadFault};
use std::alloc::Global;

/// Reads a text that comes in pieces. Lines that are complete within a piece are read in place, and a line that crosses
/// pieces is put together. After an error the reader must not be used.
///
/// Besides the reader of lines it keeps at most 1,048,577 bytes of an incomplete line, and none after the line that ends the
/// text was read. Pieces after that are accepted and ignored.
#[derive(Drop)]
pub struct PieceReader<L> {
    lines: L,
    open_line: OpenLine,
}

impl<L: ReadLines> PieceReader<L> {
    /// A reader that has read nothing. Does not allocate.
    pub fn new(alloc: Global, seed: HashSeed) -> PieceReader<L>
        ensures { IsFed L.has_read L.at_end result [] }
    {
        PieceReader {
            lines: L::new(alloc, seed),
            open_line: OpenLine::new(alloc),
        }
    }

    /// Keeps bytes of a line that does not end in them.
    fn keep(&mut self, part: &[u8]) -> Result<(), ReadFault>
        requires unended { L.at_end self.old.lines ≡ false }
        requires one_line { HasNoFeed part.now }
        ensures answer { Feeds L.has_read L.at_end L.lines_fault self.old part.now self.new result }
        ensures same { self.new.lines ≡ self.old.lines }
    {
        match self.open_line.push(part) {
            Ok(()) => Ok(()),
            Err(_) => Err(ReadFault::OutOfMemory),
        }
    }

    /// Reads the line that is kept, after its line feed.
    fn end_line(&mut self) -> Result<(), ReadFault>
        requires fed { WasFed L.has_read L.at_end self.old }
        requires unended { L.at_end self.old.lines ≡ false }
        ensures answer { Feeds L.has_read L.at_end L.lines_fault self.old (10 ∷ []) self.new result }
        ensures anew { OnOk result (Keeps self.new.open_line []) }
    {
        match self.open_line.bytes() {
            Some(bytes) => read_one(&mut self.lines, without_return(bytes))?,
            None => return Err(self.lines.refuse_long()),
        }
        self.open_line.clear();
        Ok(())
    }

    /// Reads a piece that begins at the start of a line.
    fn feed_lines(&mut self, piece: &[u8]) -> Result<(), ReadFault>
        requires fed { WasFed L.has_read L.at_end self.old }
        requires unended { L.at_end self.old.lines ≡ false }
        requires anew { Keeps self.old.open_line [] }
        ensures { Feeds L.has_read L.at_end L.lines_fault self.old piece.now self.new result }
    {
        let (complete, rest) = split_after_last_feed(piece);
        read_lines(&mut self.lines, complete)?;
        if self.lines.is_at_end() {
            return Ok(());
        }
        self.keep(rest)
    }

    /// Reads the next piece.
    ///
    /// # Errors
    ///
    /// `File` with the error of the first line that has one, at the piece that completes that line; `OutOfMemory` if an
    /// allocation fails.
    pub fn feed(&mut self, piece: &[u8]) -> Result<(), ReadFault>
        requires { WasFed L.has_read L.at_end self.old }
        ensures { Feeds L.has_read L.at_end L.lines_fault self.old piece.now self.new result }
    {
        if self.lines.is_at_end() {
            return Ok(());
        }
        if self.open_line.is_empty() {
            return self.feed_lines(piece);
        }
        let Some((end, rest)) = split_at_first_feed(piece) else {
            return self.keep(piece);
        };
        self.keep(end)?;
        self.end_line()?;
        if self.lines.is_at_end() {
            return Ok(());
        }
        self.feed_lines(rest)
    }

    /// Reads the last line if it does not end with a line feed.
    fn end_text(&mut self) -> Result<(), ReadFault>
        requires { WasFed L.has_read L.at_end self.old }
        ensures { EndsText L.has_read L.at_end L.first_fault self.old self.new result }
    {
        if self.lines.is_at_end() {
            return Ok(());
        }
        if self.open_line.is_empty() {
            return Ok(());
        }
        match self.open_line.bytes() {
            Some(bytes) => read_one(&mut self.lines, bytes),
            None => Err(self.lines.refuse_long()),
        }
    }

    /// The model that all pieces together declare. It has no lists by rows.
    ///
    /// # Errors
    ///
    /// `File` with their first error; `OutOfMemory` if an allocation fails.
    pub fn finish(mut self) -> Result<Model, ReadFault>
        requires { WasFed L.has_read L.at_end self }
        ensures { (bytes : List ℕ) → IsFed L.has_read L.at_end self bytes → IsAnswerTo L.declares L.first_fault bytes result }
    {
        self.end_text()?;
        let PieceReader { lines, .. } = self;
        lines.finish()
    }
}
