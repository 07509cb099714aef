//! The readers of the formats, for text that comes in pieces.
//!
//! `MpsReader` and `LpReader` are one type with an argument, and the kit does not accept such a type as the reader of a format
//! (see docs/DECISIONS.md). So each format has a type of its own around its reader.

use mpslp_lp::LpReader;
use mpslp_model::{HashSeed, Model, ModelReader, ReadFault};
use mpslp_mps::MpsReader;
use std::alloc::Global;

/// The reader of [`Mps`](crate::Mps).
#[derive(Drop)]
pub struct MpsFormatReader {
    reader: MpsReader,
}

impl ModelReader for MpsFormatReader {
    ghost use Rattle.std.specs.Prelude.{is_some, not};
    ghost use Rattle.mpslp_mps.specs.MpsText.{DeclaresMps};
    ghost use Rattle.mpslp_mps.specs.FirstFault.{IsFirstMpsFault};
    ghost use Rattle.mpslp_mps.specs.Fed.{HasRead, is_ended, IsFaultOfLines};
    ghost use Rattle.mpslp_mps.specs.FedLaws.{read-is_clean, lines_fault-stays, lines_fault-is_first};
    ghost use Rattle.mpslp_lines.specs.TextReading.{IsFedAll, IsFaultOfComplete, fed-works, fed-is_clean, complete-is_first};

    ghost after = { λ r. IsFedAll HasRead is_ended r.reader };

    ghost refused = { λ r. not (is_some r.reader) };

    ghost declares = { DeclaresMps };

    ghost first_fault = { IsFirstMpsFault };

    ghost early_fault = { IsFaultOfComplete IsFaultOfLines };

    fn new_seeded(alloc: Global, seed: HashSeed) -> MpsFormatReader {
        MpsFormatReader {
            reader: MpsReader::new_seeded(alloc, seed),
        }
    }

    fn feed(&mut self, piece: &[u8]) -> Result<(), ReadFault> {
        self.reader.feed(piece)
    }

    fn finish(self) -> Result<Model, ReadFault> {
        let MpsFormatReader { reader } = self;
        reader.finish()
    }

    fn finish_by_columns(self) -> Result<Model, ReadFault> {
        let MpsFormatReader { reader } = self;
        reader.finish_by_columns()
    }

    ghost after_works = { λ r. fed-works HasRead is_ended r.reader };

    ghost after_is_clean = { λ r. fed-is_clean HasRead is_ended IsFaultOfLines read-is_clean r.reader };

    ghost early_is_first = { complete-is_first IsFaultOfLines IsFirstMpsFault lines_fault-stays lines_fault-is_first };
}

/// The reader of [`Lp`](crate::Lp).
#[derive(Drop)]
pub struct LpFormatReader {
    reader: LpReader,
}

impl ModelReader for LpFormatReader {
    ghost use Rattle.std.specs.Prelude.{is_some, not};
    ghost use Rattle.mpslp_lp.specs.LpText.{DeclaresLp};
    ghost use Rattle.mpslp_lp.specs.FirstFault.{IsFirstLpFault};
    ghost use Rattle.mpslp_lp.specs.Fed.{HasRead, is_ended, IsFaultOfLines};
    ghost use Rattle.mpslp_lp.specs.FedLaws.{read-is_clean, lines_fault-stays, lines_fault-is_first};
    ghost use Rattle.mpslp_lines.specs.TextReading.{IsFedAll, IsFaultOfComplete, fed-works, fed-is_clean, complete-is_first};

    ghost after = { λ r. IsFedAll HasRead is_ended r.reader };

    ghost refused = { λ r. not (is_some r.reader) };

    ghost declares = { DeclaresLp };

    ghost first_fault = { IsFirstLpFault };

    ghost early_fault = { IsFaultOfComplete IsFaultOfLines };

    fn new_seeded(alloc: Global, seed: HashSeed) -> LpFormatReader {
        LpFormatReader {
            reader: LpReader::new_seeded(alloc, seed),
        }
    }

    fn feed(&mut self, piece: &[u8]) -> Result<(), ReadFault> {
        self.reader.feed(piece)
    }

    fn finish(self) -> Result<Model, ReadFault> {
        let LpFormatReader { reader } = self;
        reader.finish()
    }

    fn finish_by_columns(self) -> Result<Model, ReadFault> {
        let LpFormatReader { reader } = self;
        reader.finish_by_columns()
    }

    ghost after_works = { λ r. fed-works HasRead is_ended r.reader };

    ghost after_is_clean = { λ r. fed-is_clean HasRead is_ended IsFaultOfLines read-is_clean r.reader };

    ghost early_is_first = { complete-is_first IsFaultOfLines IsFirstLpFault lines_fault-stays lines_fault-is_first };
}
