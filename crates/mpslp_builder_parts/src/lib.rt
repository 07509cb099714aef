//! What a builder stores by number: what is declared of each row and column, the coefficients of a column by row number, and
//! the byte order of names, which determines the final numbers of the rows.
//!
//! Entries are sorted by small keys of their names and then moved, so no name is copied.
#![tactic(auto)]

mod coefficient_log;
mod column_table;
mod declared_bounds;
mod grouping;
mod known_pairs;
mod model_rows_and_columns;
mod moving;
mod order;
mod pair_set;
mod parts;
mod ranks;
mod row_parts;

pub use column_table::{ColumnTable, Inserted};
pub use declared_bounds::DeclaredBounds;
pub use known_pairs::StoredColumn;
pub use model_rows_and_columns::{ordered, row_of};
pub use order::order_of;
pub use parts::{ColumnDefinition, ObjectiveParts, Property};
pub use ranks::ranks_of;
pub use row_parts::RowParts;
