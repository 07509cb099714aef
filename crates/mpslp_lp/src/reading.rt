//! Reads LP text as a whole.

ghost use Rattle.mpslp_lp.specs.ReadAnswer.{ReadsLp};

use crate::reader::LpReader;
use mpslp_model::{FIXED_SEED, HashSeed, Model, ReadFault, read_whole_seeded};
use std::alloc::Global;

/// Reads the model that an LP text declares.
///
/// The text may be any bytes of any length. Lines are read up to that of `end`; the text after it is ignored. A line has at
/// most [`MAX_LINE_LEN`](crate::MAX_LINE_LEN) bytes, comments included, a name or a number at most 255 bytes, and a decimal
/// at most 36 digits. A statement may span lines, but a token may not.
///
/// # Errors
///
/// `File` with the first error of the text: that of the first line that has one, without a name. On a line, the errors that
/// lines and tokens have wherever they are come first, the least in the order of [`FaultKind`]; then the first token that
/// causes an error decides. If no line has an error, the error is `MissingEnd`, or that of [`Builder::finish`] for the whole
/// file, on line 0. `OutOfMemory` if an allocation fails. Never `Failed`.
pub fn read_lp(alloc: Global, text: &[u8]) -> Result<Model, ReadFault>
    ensures { ReadsLp text.now result }
{
    read_lp_seeded(alloc, FIXED_SEED, text)
}

/// As [`read_lp`], with a seed for the hashes of names. Only the time of the call depends on the seed.
pub fn read_lp_seeded(alloc: Global, seed: HashSeed, text: &[u8]) -> Result<Model, ReadFault>
    ensures { ReadsLp text.now result }
{
    read_whole_seeded::<LpReader>(alloc, seed, text)
}
