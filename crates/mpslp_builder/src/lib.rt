//! The builder of models: what is declared, by names, and when a declaration is rejected.
#![tactic(auto)]

mod builder;
mod entries;
pub mod laws;
mod reader_builder;
mod row_terms;
mod tables;

pub use builder::Builder;
pub use entries::{Entries, Entry};
pub use reader_builder::ReaderBuilder;
pub use row_terms::RowTerms;
