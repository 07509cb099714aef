//! Reads MPS text line by line.

ghost use Rattle.std.specs.Prelude.{◌≡◌};

use crate::context::LineContext;
use crate::read_line::read_line;
use mpslp_builder::ReaderBuilder;
use mpslp_lines::{LineError, NumberedError, ReadLines, read_fault};
use mpslp_model::{Builder, Fault, FaultKind, HashSeed, Model, ReadFault};
use std::alloc::Global;

/// Reads MPS text line by line.
#[derive(Drop)]
pub struct LineReader {
    alloc: Global,
    context: LineContext,
    builder: ReaderBuilder,
    /// The number of the next line, up to 2^64 - 1.
    number: u64,
}

impl ReadLines for LineReader {
    ghost use Rattle.mpslp_mps.specs.MpsText.{DeclaresMps};
    ghost use Rattle.mpslp_mps.specs.FirstFault.{IsFirstMpsFault};
    ghost use Rattle.mpslp_mps.specs.Fed.{HasRead, is_ended, IsFaultOfLines};
    ghost use Rattle.mpslp_mps.specs.FedLaws.{read-after_end, read-is_clean, lines_fault-stays, lines_fault-is_first};

    ghost has_read = { HasRead };

    ghost at_end = { is_ended };

    ghost lines_fault = { IsFaultOfLines };

    ghost declares = { DeclaresMps };

    ghost first_fault = { IsFirstMpsFault };

    fn new(alloc: Global, seed: HashSeed) -> LineReader {
        LineReader {
            alloc,
            context: LineContext::new(alloc),
            builder: ReaderBuilder {
                draft: Builder::new_seeded(alloc, seed),
            },
            number: 1,
        }
    }

    fn is_at_end(&self) -> bool {
        self.context.is_at_end()
    }

    fn refuse_long(&self) -> ReadFault {
        read_fault(self.number, LineError::Fault(FaultKind::LineTooLong))
    }

    fn read_line(&mut self, line: &[u8]) -> Result<(), NumberedError> {
        match read_line(&mut self.context, &mut self.builder, self.alloc, line) {
            Ok(()) => {}
            Err(error) => {
                let line = self.number;
                return Err(NumberedError { line, error });
            }
        }
        self.context.drop_names_at_end();
        self.number = self.number.saturating_add(1);
        Ok(())
    }

    fn finish(self) -> Result<Model, ReadFault> {
        if !self.is_at_end() {
            return Err(ReadFault::File(Fault {
                kind: FaultKind::MissingEnd,
                line: 0,
                name: None,
            }));
        }
        self.builder.draft.finish_by_columns()
    }

    ghost after_end = { read-after_end };

    ghost read_is_clean = { read-is_clean };

    ghost fault_stays = { lines_fault-stays };

    ghost fault_is_first = { lines_fault-is_first };
}
