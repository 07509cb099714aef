//! Iterators over the rows and the columns of a model, and over the coefficients of a column. Contracts see each as the list of
//! what it has left. Those over the coefficients of a row are in `row_entries.rt`.

ghost use Rattle.std.specs.Prelude.{◌≡◌, IfSome, Some, length, map};
ghost use Rattle.std.specs.Iterator.{YieldsFirst, YieldsFirstBy, UpTo, at_most, item_count};
ghost use Rattle.std.specs.Iterator.SizeHint.{IsWithinCount};
ghost use Rattle.std.specs.List.{All};
ghost use Rattle.mpslp_model_core.specs.Iterators.{IsOfRow, entry_of_cell};
ghost use Rattle.mpslp_model_core.specs.ModelColumns.{span_bounds};
ghost use Rattle.mpslp_model_core.specs.Numbered.{each_part};

use crate::columns::index_of_row_number;
use crate::model_columns::ColumnSpan;
use crate::model_row::ModelRow;
use crate::sides::{ColumnBounds, RowLimits};
use mpslp_decimal::{Decimal, PackedDecimal};
use mpslp_types::Name;
use std::iter::FusedIterator;
use std::marker::Model;
use std::slice;

/// The rows of a model in byte order of their names, each as its name and its limits. [`Model::rows`](crate::Model::rows) makes
/// it.
#[derive(Drop)]
pub struct Rows<'a> {
    rows: slice::Iter<'a, (Name, ModelRow)>,
}

impl<'a> Model for Rows<'a> {
    ghost use Rattle.std.specs.Prelude.{ℕ, List};
    ghost use Rattle.std.specs.Slice.Iter.{iter_rest};
    ghost use Rattle.mpslp_model_core.specs.Model.{Row};

    ghost Value = { List (List ℕ × Row) };

    ghost view = { λ rows. iter_rest rows.rows };
}

impl<'a> Rows<'a> {
    /// The rows of these entries.
    pub(crate) fn of(rows: &'a [(Name, ModelRow)]) -> Rows<'a>
        ensures { result ≡ rows.now }
    {
        Rows { rows: rows.iter() }
    }
}

impl<'a> Iterator for Rows<'a> {
    type Item = (&'a Name, RowLimits);

    ghost next_gives = { YieldsFirstBy (λ row. (row.0.now, row.1)) (λ rows. rows) };

    ghost remaining = { item_count (λ rows. rows) };

    fn next(&mut self) -> Option<(&'a Name, RowLimits)> {
        let row = self.rows.next()?;
        Some((&row.0, row.1.limits()))
    }

    fn size_hint(&self) -> (usize, Option<usize>)
        ensures lower { IsWithinCount result.0 (at_most (length self.now)) }
        ensures upper { IfSome result.1 (UpTo (at_most (length self.now))) }
        ensures exact { result ≡ (length self.now, Some (length self.now)) }
    {
        let rows = self.len();
        (rows, Some(rows))
    }
}

impl<'a> ExactSizeIterator for Rows<'a> {
    fn len(&self) -> usize {
        self.rows.len()
    }
}

impl<'a> FusedIterator for Rows<'a> {}

/// The columns of a model in byte order of their names, each as its name, and its type and bounds.
/// [`Model::columns`](crate::Model::columns) makes it.
#[derive(Drop)]
pub struct Columns<'a> {
    columns: slice::Iter<'a, (Name, ColumnSpan)>,
}

impl<'a> Model for Columns<'a> {
    ghost use Rattle.std.specs.Prelude.{ℕ, List};
    ghost use Rattle.std.specs.Slice.Iter.{iter_rest};
    ghost use Rattle.mpslp_model_core.specs.Model.{Column};
    ghost use Rattle.mpslp_model_core.specs.ModelColumns.{span_bounds};
    ghost use Rattle.mpslp_model_core.specs.Numbered.{each_part};

    ghost Value = { List (List ℕ × Column) };

    ghost view = { λ columns. each_part span_bounds (iter_rest columns.columns) };
}

impl<'a> Columns<'a> {
    /// The columns of these entries.
    pub(crate) fn of(columns: &'a [(Name, ColumnSpan)]) -> Columns<'a>
        ensures { result ≡ each_part span_bounds columns.now }
    {
        Columns {
            columns: columns.iter(),
        }
    }
}

impl<'a> Iterator for Columns<'a> {
    type Item = (&'a Name, ColumnBounds);

    ghost next_gives = { YieldsFirstBy (λ column. (column.0.now, column.1)) (λ columns. columns) };

    ghost remaining = { item_count (λ columns. columns) };

    fn next(&mut self) -> Option<(&'a Name, ColumnBounds)> {
        let column = self.columns.next()?;
        Some((&column.0, column.1.bounds.bounds()))
    }

    fn size_hint(&self) -> (usize, Option<usize>)
        ensures lower { IsWithinCount result.0 (at_most (length self.now)) }
        ensures upper { IfSome result.1 (UpTo (at_most (length self.now))) }
        ensures exact { result ≡ (length self.now, Some (length self.now)) }
    {
        let columns = self.len();
        (columns, Some(columns))
    }
}

impl<'a> ExactSizeIterator for Columns<'a> {
    fn len(&self) -> usize {
        self.columns.len()
    }
}

impl<'a> FusedIterator for Columns<'a> {}

/// The nonzero coefficients of a column in the order of rows, without the objective's, each as the number of its row and its
/// value. [`Model::column_entries`](crate::Model::column_entries) makes it.
#[derive(Drop)]
pub struct ColumnEntries<'a> {
    cells: slice::Iter<'a, (u32, PackedDecimal)>,
}

impl<'a> Model for ColumnEntries<'a> {
    ghost use Rattle.std.specs.Prelude.{ℕ, List, map};
    ghost use Rattle.std.specs.List.{All};
    ghost use Rattle.std.specs.Slice.Iter.{iter_rest};
    ghost use Rattle.mpslp_decimal.specs.Decimal.{Number};
    ghost use Rattle.mpslp_model_core.specs.Iterators.{IsOfRow, entry_of_cell};

    ghost Value = { List (ℕ × Number) };

    ghost view = { λ entries. map entry_of_cell (iter_rest entries.cells) };

    ghost invariant = { λ entries. All IsOfRow (iter_rest entries.cells) };
}

impl<'a> ColumnEntries<'a> {
    /// These coefficients, each of a row.
    pub(crate) fn of(cells: &'a [(u32, PackedDecimal)]) -> ColumnEntries<'a>
        requires { All IsOfRow cells.now }
        ensures { result ≡ map entry_of_cell cells.now }
    {
        ColumnEntries {
            cells: cells.iter(),
        }
    }
}

impl<'a> Iterator for ColumnEntries<'a> {
    type Item = (usize, Decimal);

    ghost next_gives = { YieldsFirst (λ entries. entries) };

    ghost remaining = { item_count (λ entries. entries) };

    fn next(&mut self) -> Option<(usize, Decimal)> {
        let cell = self.cells.next()?;
        Some((index_of_row_number(cell.0), cell.1.value()))
    }

    fn size_hint(&self) -> (usize, Option<usize>)
        ensures lower { IsWithinCount result.0 (at_most (length self.now)) }
        ensures upper { IfSome result.1 (UpTo (at_most (length self.now))) }
        ensures exact { result ≡ (length self.now, Some (length self.now)) }
    {
        let entries = self.len();
        (entries, Some(entries))
    }
}

impl<'a> ExactSizeIterator for ColumnEntries<'a> {
    fn len(&self) -> usize {
        self.cells.len()
    }
}

impl<'a> FusedIterator for ColumnEntries<'a> {}
