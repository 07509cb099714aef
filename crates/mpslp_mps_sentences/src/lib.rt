//! MPS text said once more, as a whole, in a crate of its own, since no other crate is then proved again when it changes.
//!
//! It is about the headers, and the lines of each section together.
//! `specs/TextInWords.antt` says which bytes are MPS text. `specs/FaultsInWords.antt` and, for RHS, RANGES and BOUNDS,
//! `specs/ValueFaultsInWords.antt` say on which lines errors are, in terms of the lines before. The crate has no code other
//! than the laws.
#![tactic(auto)]

pub mod laws;
