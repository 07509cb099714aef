//! The tokens of a line of LP text and its words, apart from the reader so that they are proved beside the builder.
//!
//! The definitions are in `specs/`: the tokens of a line and reserved words (`Token`), tokens by stages (`Scan`), and what
//! holds of every line (`Laws`).
//!
//! [`tokens_of`] divides a line into tokens, in one pass and without allocating. [`class_of`] returns what a word means. The
//! grammar is in `mpslp_lp_grammar`.
#![tactic(auto)]

pub mod laws;
mod relations;
mod scan;
mod tokens;
mod words;

pub use relations::Relation;
pub use tokens::{Token, TokenKind, Tokens, next_token, tokens_of};
pub use words::{Section, SectionWord, WordClass, class_of, is_word};
