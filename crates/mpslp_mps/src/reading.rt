//! Reading MPS text as a whole.

ghost use Rattle.mpslp_mps.specs.ReadAnswer.{ReadsMps};

use crate::reader::MpsReader;
use mpslp_model::{FIXED_SEED, HashSeed, Model, ReadFault, read_whole_seeded};
use std::alloc::Global;

/// Reads the model that an MPS text declares.
///
/// The text may be any bytes of any length. Lines are read up to that of ENDATA; the text after it is ignored. A line has at
/// most [`MAX_LINE_LEN`](crate::MAX_LINE_LEN) bytes, a name or a number at most 255 bytes, and a decimal at most 36 digits.
/// Every line that is legal in the CPLEX file format reference and in this profile is read as the reference says;
/// `docs/FORMATS.md` has each rule.
///
/// # Errors
///
/// `File` with the first error of the text: that of the first line that has one, without a name. Of several errors of one
/// line, the one whose kind comes first in [`FaultKind`](mpslp_model::FaultKind) is reported. If no line has an error, the
/// error is `MissingEnd`, or that of [`Builder::finish`](mpslp_model::Builder::finish) for the whole file, on line 0.
/// `OutOfMemory` if an allocation fails. Never `Failed`.
pub fn read_mps(alloc: Global, text: &[u8]) -> Result<Model, ReadFault>
    ensures { ReadsMps text.now result }
{
    read_mps_seeded(alloc, FIXED_SEED, text)
}

/// As [`read_mps`], with a seed for the hashes of names. Only the time of the call depends on the seed.
pub fn read_mps_seeded(alloc: Global, seed: HashSeed, text: &[u8]) -> Result<Model, ReadFault>
    ensures { ReadsMps text.now result }
{
    read_whole_seeded::<MpsReader>(alloc, seed, text)
}
