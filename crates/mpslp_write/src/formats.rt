//! The formats of model files.

ghost use Rattle.std.specs.Prelude.{None};
ghost use Rattle.mpslp_mps.specs.MpsText.{DeclaresMps};
ghost use Rattle.mpslp_mps.specs.FirstFault.{IsFirstMpsFault};
ghost use Rattle.mpslp_lp.specs.LpText.{DeclaresLp};
ghost use Rattle.mpslp_lp.specs.FirstFault.{IsFirstLpFault};
ghost use Rattle.mpslp_mps_text.specs.CanonicalMps.{canonical_mps};
ghost use Rattle.mpslp_mps_laws.proofs.MpsFormat as mps_laws;
ghost use Rattle.mpslp_lp_text.specs.CanonicalLp.{canonical_lp};
ghost use Rattle.mpslp_lp_text.specs.Unfit.{unfit};
ghost use Rattle.mpslp_lp_laws.proofs.LpFormat as lp_laws;

use crate::readers::{LpFormatReader, MpsFormatReader};
use mpslp_lp::read_lp_seeded;
use mpslp_lp_write::{first_unfit_name, write_lp};
use mpslp_model::{Format, HashSeed, Model, ReadFault, Sink, WriteFault};
use mpslp_mps::read_mps_seeded;
use mpslp_mps_write::write_mps;
use std::alloc::{AllocError, Global};

/// MPS as in the CPLEX file format reference, in the profile of `docs/FORMATS.md`. It can express every model.
#[derive(Clone, Copy, Debug)]
pub struct Mps;

/// The bytes of a file declare a model by `DeclaresMps` and have a first error by `IsFirstMpsFault`. The text of a model is
/// `canonical_mps`.
impl Format for Mps {
    ghost declares = { DeclaresMps };

    ghost first_fault = { IsFirstMpsFault };

    ghost text = { canonical_mps };

    ghost unfit = { λ m. None };

    type Reader = MpsFormatReader;

    fn read_seeded(alloc: Global, seed: HashSeed, bytes: &[u8]) -> Result<Model, ReadFault> {
        read_mps_seeded(alloc, seed, bytes)
    }

    fn expressible(model: &Model) -> bool {
        let _every = model;
        true
    }

    fn prepare(_alloc: Global, model: Model) -> Result<Model, AllocError> {
        Ok(model)
    }

    fn write<W: Sink>(model: &Model, sink: &mut W) -> Result<(), WriteFault> {
        write_mps(model, sink)
    }

    ghost text_declares = { mps_laws.text_declares };

    ghost one_model = { mps_laws.one_model };

    ghost declared_sound = { mps_laws.declared_sound };

    ghost no_fault = { mps_laws.no_fault };

    ghost one_fault = { mps_laws.one_fault };

    ghost reader_declares = { λ bytes m declared. declared };

    ghost reader_faults = { λ bytes fault first. first };
}

/// LP as in the CPLEX file format reference, in the profile of `docs/FORMATS.md`. It can express every model whose names are
/// all LP names.
#[derive(Clone, Copy, Debug)]
pub struct Lp;

/// The bytes of a file declare a model by `DeclaresLp` and have a first error by `IsFirstLpFault`. The text of a model is
/// `canonical_lp`. `unfit` is the first name that is not an LP name.
impl Format for Lp {
    ghost declares = { DeclaresLp };

    ghost first_fault = { IsFirstLpFault };

    ghost text = { canonical_lp };

    ghost unfit = { unfit };

    type Reader = LpFormatReader;

    fn read_seeded(alloc: Global, seed: HashSeed, bytes: &[u8]) -> Result<Model, ReadFault> {
        read_lp_seeded(alloc, seed, bytes)
    }

    fn expressible(model: &Model) -> bool {
        first_unfit_name(model).is_none()
    }

    fn prepare(alloc: Global, model: Model) -> Result<Model, AllocError> {
        model.with_row_lists(alloc)
    }

    fn write<W: Sink>(model: &Model, sink: &mut W) -> Result<(), WriteFault> {
        write_lp(model, sink)
    }

    ghost text_declares = { lp_laws.text_declares };

    ghost one_model = { lp_laws.one_model };

    ghost declared_sound = { lp_laws.declared_sound };

    ghost no_fault = { lp_laws.no_fault };

    ghost one_fault = { lp_laws.one_fault };

    ghost reader_declares = { λ bytes m declared. declared };

    ghost reader_faults = { λ bytes fault first. first };
}
