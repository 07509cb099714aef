//! Models of linear and mixed-integer programs, and the declarations that mean them.
//!
//! Readers of both formats, and callers who build a model by hand, make declarations to a [`Builder`]: rows, columns,
//! coefficients, bounds. Its [`finish`](Builder::finish) returns the [`Model`] that they mean, or the error if they mean none.
//! This crate re-exports what users need of the crates below it, so a user names only this crate.
//!
//! The trait [`Format`] states what a format of model files guarantees. The devices that formats are written to are those of
//! `mpslp_io`, and are re-exported here: [`Source`], [`Sink`], [`put_all`] and related types.
#![tactic(auto)]

mod formats;
pub mod laws;
mod readers;

pub use formats::Format;
pub use mpslp_builder::Builder;
pub use mpslp_io::{FromRead, IoFailed, Sink, Source, ToWrite, put_all};
pub use mpslp_model_core::{
    ColumnBounds, ColumnEntries, Columns, Model, RowEntries, RowLimits, Rows,
};
pub use mpslp_types::{
    BuildFault, FIXED_SEED, Fault, FaultKind, HashSeed, Kind, Limit, MAX_NAME_LEN, Name, NameAt,
    NameFault, ReadFault, RowType, Sense, WriteFault,
};
pub use readers::{ModelReader, read_whole_seeded};
