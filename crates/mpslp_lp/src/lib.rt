//! LP text: what it declares, and the first error of text that declares no model.
//!
//! The tokens of a line are defined in `mpslp_lp_tokens`, the grammar and its states in `mpslp_lp_grammar`. The definitions in
//! `specs/` are those of a whole text (`LpText`, `FirstFault`), of lines read one after another (`LineByLine`), and of what was
//! read of a text that comes in pieces (`Fed`).
//!
//! [`LpReader`] reads text in pieces: it takes the tokens of each line, going from state to state, and takes plain
//! phrases at once (`plain_phrases`). [`read_lp`] reads a whole text. [`tokens_of`] divides a line into tokens.
#![tactic(auto)]

pub mod laws;
mod line_reader;
mod plain_bounds;
mod plain_names;
mod plain_phrases;
mod plain_row_starts;
mod plain_rows;
mod plain_terms;
mod plain_tokens;
mod read_line;
mod reader;
mod reading;

pub use mpslp_lines::MAX_LINE_LEN;
pub use mpslp_lp_tokens::{Section, Token, TokenKind, Tokens, next_token, tokens_of};
pub use reader::LpReader;
pub use reading::{read_lp, read_lp_seeded};
