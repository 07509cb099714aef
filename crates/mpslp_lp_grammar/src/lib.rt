//! The grammar of LP text: which tokens may follow one another, and what they declare.
//!
//! The format follows the CPLEX file format reference. The definitions are in `specs/`: what the grammar sees of a token,
//! and the lexical errors of a token and of a line (`Terminal`), the grammar by its rules (`Rules`, `Phrase`, `Items`, `Rows`,
//! `Grammar`), and the same grammar token by token, in terms of what a reader keeps (`TokenByToken`, `AfterToken`,
//! `FirstToken`, `TokenStep`).
//!
//! [`classify`] returns what the grammar sees of a token, or the lexical error of the token. [`step`] takes a token, going from
//! one [`State`] to the next, and passes what it declares to the builder in the [`Context`]. [`laws`] has that both
//! definitions of the grammar agree. `mpslp_lp` takes the tokens of lines.
#![tactic(auto)]

mod answers;
mod bounds;
mod context;
mod first_token;
mod given_limit;
mod items;
pub mod laws;
mod lp_builder;
mod rows;
mod sections_seen;
mod sides;
mod signs;
mod states;
mod terminals;
mod token_step;

pub use bounds::{declare_bound, declare_free};
pub use context::Context;
pub use first_token::declare_listed;
pub use given_limit::GivenLimit;
pub use items::declare_objective_term;
pub use rows::{declare_row, fits_left, fits_second, row_without_terms};
pub use sides::{flip, limit_of_terminal};
pub use signs::Sign;
pub use states::{ListSection, PartialRow, Place, State};
pub use terminals::{TerminalKind, TerminalToken, classify, classify_found};
pub use token_step::step;
