//! Names of each length that matters: up to 16 bytes need no memory of their own, longer ones do.

use mpslp_model::{BuildFault, Name};
use std::alloc::Global;

/// The word for the longest name in the calls of this program, which are printed with this word.
const LONG: &str = "LONG";

/// A name of 255 bytes, the longest one.
const LONGEST: &str = "\
llllllllllllllllllllllllllllllllllllllllllllllllllllllllllllllllllllllllllllllllllllllllllllllllllll\
llllllllllllllllllllllllllllllllllllllllllllllllllllllllllllllllllllllllllllllllllllllllllllllllllll\
lllllllllllllllllllllllllllllllllllllllllllllllllllllll";

/// Words for names, with their lengths in bytes: the shortest one that needs memory is the third one.
pub(crate) const NAMES: [(&str, &str); 4] = [
    ("6 bytes", "a.name"),
    ("16 bytes", "sixteen.letters_"),
    ("17 bytes", "seventeen.letters"),
    ("255 bytes", LONG),
];

/// The name of a word in a call: the longest one for `LONG`, and the word itself for any other.
pub(crate) fn spelled(word: &str) -> &str {
    if word == LONG { LONGEST } else { word }
}

/// The name of a word in a call.
pub(crate) fn named(alloc: Global, word: &str) -> Result<Name, BuildFault> {
    match Name::new(alloc, spelled(word).as_bytes()) {
        Ok(name) => Ok(name),
        Err(_) => Err(BuildFault::OutOfMemory),
    }
}
