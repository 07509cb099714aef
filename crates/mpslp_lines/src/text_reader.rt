//! A reader of text that comes in pieces, of any format.

use crate::piece_reader::PieceReader;
use crate::read_lines::ReadLines;
use mpslp_model::{HashSeed, ModelReader, ReadFault};
use std::alloc::Global;
use std::marker::Model;

/// A reader of text that comes in pieces of any length. It does not matter where the text is cut: the result is that for the
/// whole text.
#[derive(Drop)]
pub struct TextReader<L: ReadLines> {
    /// `None` after a piece was rejected.
    pieces: Option<PieceReader<L>>,
    alloc: Global,
}

impl<L: ReadLines> Model for TextReader<L> {
    ghost use Rattle.std.specs.Prelude.{Option, IfSome};
    ghost use Rattle.mpslp_lines.specs.declared.piece_reader.PieceReader.{PieceReader};
    ghost use Rattle.mpslp_lines.specs.Pieces.{WasFed, KeepsNothingAfterEnd};

    ghost Value = { Option (PieceReader L) };

    ghost view = { λ reader. reader.pieces };

    ghost invariant = { λ reader. IfSome reader.pieces (λ pieces. WasFed L.has_read L.at_end pieces × KeepsNothingAfterEnd L.at_end pieces) };
}

impl<L: ReadLines> ModelReader for TextReader<L> {
    ghost use Rattle.std.specs.Prelude.{is_some, not};
    ghost use Rattle.mpslp_lines.specs.TextReading.{IsFedAll, IsFaultOfComplete, fed-works, fed-is_clean, complete-is_first};

    ghost after = { IsFedAll L.has_read L.at_end };

    ghost refused = { λ reader. not (is_some reader) };

    ghost declares = { L.declares };

    ghost first_fault = { L.first_fault };

    ghost early_fault = { IsFaultOfComplete L.lines_fault };

    fn new_seeded(alloc: Global, seed: HashSeed) -> TextReader<L> {
        TextReader {
            pieces: Some(PieceReader::new(alloc, seed)),
            alloc,
        }
    }

    fn feed(&mut self, piece: &[u8]) -> Result<(), ReadFault> {
        let Some(mut pieces) = self.pieces.take() else {
            return Err(ReadFault::Failed);
        };
        pieces.feed(piece)?;
        self.pieces = Some(pieces);
        Ok(())
    }

    fn finish(self) -> Result<mpslp_model::Model, ReadFault> {
        let alloc = self.alloc;
        match self.finish_by_columns() {
            Ok(model) => match model.with_row_lists(alloc) {
                Ok(model) => Ok(model),
                Err(_) => Err(ReadFault::OutOfMemory),
            },
            Err(fault) => Err(fault),
        }
    }

    fn finish_by_columns(self) -> Result<mpslp_model::Model, ReadFault> {
        let TextReader { pieces, alloc: _ } = self;
        match pieces {
            Some(pieces) => pieces.finish(),
            None => Err(ReadFault::Failed),
        }
    }

    ghost after_works = { fed-works L.has_read L.at_end };

    ghost after_is_clean = { fed-is_clean L.has_read L.at_end L.lines_fault L.read_is_clean };

    ghost early_is_first = { complete-is_first L.lines_fault L.first_fault L.fault_stays L.fault_is_first };
}
