//! Rows and columns by number, in the order of their declarations, with the coefficients of each column.

mod changes;
mod facts;
pub(crate) mod file_faults;
pub(crate) mod hints;
pub(crate) mod lines;
pub(crate) mod names;
mod row_terms;
pub(crate) mod targets;

ghost use Rattle.std.specs.Prelude.{◌≡◌, ◌<◌};
ghost use Rattle.mpslp_builder.specs.Calls.{row_key_of, IsOnceEach, IsEmptyTables};

use crate::tables::hints::Hints;
use indexmap::IndexMap;
use mpslp_builder_parts::{ColumnTable, ObjectiveParts, RowParts};
use mpslp_types::{HashSeed, Name};
use std::alloc::Global;

/// A map by names, which their bytes find, in the order of insertion.
pub(crate) type NameMap<V> = IndexMap<Name, V, HashSeed>;

/// The objective, rows and columns.
#[derive(Debug, Drop)]
pub(crate) struct Tables {
    pub(crate) objective: Option<ObjectiveParts>,
    pub(crate) rows: NameMap<RowParts>,
    pub(crate) columns: ColumnTable,
    /// The index of the row that was used last. It only speeds up look-ups, so any number is correct.
    pub(crate) recent_row: usize,
    /// The number of the column that was used last. It only speeds up look-ups, so any number is correct.
    pub(crate) recent: usize,
    /// The numbers that columns of terms probably have. They only speed up look-ups, so any are correct.
    pub(crate) hints: Hints,
}

/// The objective or a row, which share one set of names.
#[derive(Clone, Copy)]
pub(crate) enum RowRef {
    /// The objective.
    Objective,
    /// The row at this index.
    Row(usize),
}

impl RowRef {
    /// The number by which coefficients refer to it.
    pub(crate) fn number(self) -> u32
        requires { row_key_of self < 4294967296 }
        ensures { result ≡ row_key_of self }
    {
        match self {
            RowRef::Objective => 0,
            RowRef::Row(index) => index as u32 + 1,
        }
    }
}

impl Tables {
    /// Tables without declarations.
    pub(crate) fn new(alloc: Global, seed: HashSeed) -> Tables
        ensures { IsEmptyTables result }
    {
        Tables {
            objective: None,
            rows: IndexMap::with_hasher(alloc, seed),
            columns: ColumnTable::new(alloc, seed),
            recent_row: 0,
            recent: 0,
            hints: Hints::new(alloc),
        }
    }

    /// No map has two entries of one name. Every `IndexMap` guarantees that, so nothing is tested.
    pub(crate) fn each_name_occurs_once(&self)
        ensures { IsOnceEach self.now }
    {
        let _rows = self.rows.len();
        let _columns = self.columns.len();
    }
}
