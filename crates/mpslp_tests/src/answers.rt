//! A small model in both formats, and texts of results.

use mpslp_convert::{RunFault, report};
use mpslp_model::{Format, Model, ReadFault, Sink, ToWrite};
use mpslp_write::Mps;
use std::alloc::Global;

/// A limit above the length of every input here.
pub(crate) const MUCH: u64 = 4_000_000;

pub(crate) const SMALL: &str = "NAME          SMALL
ROWS
 N  COST
 L  LIM1
 G  MYG
COLUMNS
    X  COST  1.0  LIM1  1
    Y  COST  2  MYG  1.50
RHS
    RHS  LIM1  4  MYG  1
ENDATA
";

pub(crate) const SMALL_CANONICAL: &str = "NAME
ROWS
 N  COST
 L  LIM1
 G  MYG
COLUMNS
    X  COST  1
    X  LIM1  1
    Y  COST  2
    Y  MYG  1.5
RHS
    RHS  LIM1  4
    RHS  MYG  1
ENDATA
";

pub(crate) const SMALL_LP: &str = "\\ the same model
MIN
COST: 2Y + X
s.t.
MYG: 1.5 Y => 1
LIM1: X
 <= 4
END
";

pub(crate) const SMALL_CANONICAL_LP: &str = "Minimize
 COST:
  + 1 X
  + 2 Y
Subject To
 LIM1:
  + 1 X
  <= 4
 MYG:
  + 1.5 Y
  >= 1
End
";

/// What a run has written, followed by the line of its error.
pub(crate) fn text_of_run(answer: Result<(), RunFault>, written: Vec<u8>) -> Vec<u8> {
    let mut sink = ToWrite::new(written);
    if let Err(fault) = answer {
        let _ = report(&fault, &mut sink);
    }
    sink.into_inner()
}

/// The canonical MPS text of a model.
fn written(alloc: Global, model: &Model) -> Vec<u8> {
    let mut sink = ToWrite::new(Vec::new(alloc));
    match Mps::write(model, &mut sink) {
        Ok(()) => sink.into_inner(),
        Err(_) => Vec::new(alloc),
    }
}

/// The canonical MPS text of a model, or the line of the error.
pub(crate) fn text_of_read(alloc: Global, answer: Result<Model, ReadFault>) -> Vec<u8> {
    match answer {
        Ok(model) => written(alloc, &model),
        Err(ReadFault::File(fault)) => text_of_run(Err(RunFault::File(fault)), Vec::new(alloc)),
        Err(_) => text_of_run(Err(RunFault::OutOfMemory), Vec::new(alloc)),
    }
}
