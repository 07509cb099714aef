//! Reads LP text line by line.

ghost use Rattle.std.specs.Prelude.{◌≡◌};

use crate::read_line::read_line;
use mpslp_lines::{LineError, NumberedError, ReadLines, read_fault};
use mpslp_lp_grammar::{Context, Place, State};
use mpslp_model::{Fault, FaultKind, HashSeed, Model, ReadFault};
use std::alloc::Global;

/// Reads the lines of LP text one after another.
#[derive(Drop)]
pub struct LineReader {
    context: Context,
    state: State,
    /// The number of the next line, up to 2^64 - 1.
    number: u64,
}

impl LineReader {
    /// The context, without the state, which is dropped here and not on each path of `finish`.
    fn into_context(self) -> Context
        ensures { result ≡ self.context }
    {
        self.context
    }
}

impl ReadLines for LineReader {
    ghost use Rattle.mpslp_lp.specs.LpText.{DeclaresLp};
    ghost use Rattle.mpslp_lp.specs.FirstFault.{IsFirstLpFault};
    ghost use Rattle.mpslp_lp.specs.Fed.{HasRead, is_ended, IsFaultOfLines};
    ghost use Rattle.mpslp_lp.specs.FedLaws.{read-after_end, read-is_clean, lines_fault-stays, lines_fault-is_first};

    ghost has_read = { HasRead };

    ghost at_end = { is_ended };

    ghost lines_fault = { IsFaultOfLines };

    ghost declares = { DeclaresLp };

    ghost first_fault = { IsFirstLpFault };

    fn new(alloc: Global, seed: HashSeed) -> LineReader {
        LineReader {
            context: Context::start(alloc, seed),
            state: State::Between(Place::AtStart),
            number: 1,
        }
    }

    fn is_at_end(&self) -> bool {
        self.state.is_at_end()
    }

    fn refuse_long(&self) -> ReadFault {
        read_fault(self.number, LineError::Fault(FaultKind::LineTooLong))
    }

    fn read_line(&mut self, line: &[u8]) -> Result<(), NumberedError> {
        match read_line(&mut self.context, &mut self.state, line) {
            Ok(()) => {}
            Err(error) => {
                let line = self.number;
                return Err(NumberedError { line, error });
            }
        }
        self.number = self.number.saturating_add(1);
        Ok(())
    }

    fn finish(self) -> Result<Model, ReadFault> {
        let is_at_end = self.is_at_end();
        let context = self.into_context();
        if !is_at_end {
            return Err(ReadFault::File(Fault {
                kind: FaultKind::MissingEnd,
                line: 0,
                name: None,
            }));
        }
        context.into_builder().finish_by_columns()
    }

    ghost after_end = { read-after_end };

    ghost read_is_clean = { read-is_clean };

    ghost fault_stays = { lines_fault-stays };

    ghost fault_is_first = { lines_fault-is_first };
}
