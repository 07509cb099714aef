//! Models with their accessors, and the limits of rows and bounds of columns.
//!
//! A [`Model`] stores its [`ModelParts`]: rows and columns in byte order of their names, and the coefficients of each column in
//! the order of their row numbers, those of all columns in one vector. So access by number is an index, and access by name is a
//! binary search. Numbers are packed, because a model has many; most rows and columns need no box ([`ModelRow`],
//! [`ModelBounds`]).
//!
//! What is declared of a row or a column ([`RowDefinition`], [`DeclaredColumn`]) is here too, with the limits and bounds that it
//! means, and with its errors.
#![tactic(auto)]

mod bounds;
mod by_row;
mod columns;
mod iterators;
mod joined;
pub mod laws;
mod limits;
mod model;
mod model_columns;
mod model_row;
mod packed;
mod row_entries;
mod row_names;
mod sides;

pub use bounds::{ColumnFault, DeclaredColumn, kind_of_column_fault};
pub use iterators::{ColumnEntries, Columns, Rows};
pub use limits::{
    RowDefinition, RowFault, is_faulty_row, kind_of_row_fault, limits_of, plain_limits, row_has,
};
pub use model::{Model, ModelParts};
pub use model_columns::{ColumnSpan, ModelColumns};
pub use model_row::{ModelBounds, ModelRow};
pub use packed::{PackedColumn, PackedLimit, PackedRow};
pub use row_entries::RowEntries;
pub use sides::{ColumnBounds, RowLimits};
