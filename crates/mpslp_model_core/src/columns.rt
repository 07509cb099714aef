//! Columns with their coefficients by row number.
//!
//! The objective has the number 0, so its coefficient comes first, if a column has one. The row at index `i` has the number
//! `i + 1` here.

ghost use Rattle.std.specs.Prelude.{◌≡◌, ◌<◌, ◌&&◌, ◌+◌, IsTrue, Some, length, suc, unwrap_or};
ghost use Rattle.std.specs.List.{list_all};
ghost use Rattle.std.specs.Ordering.{nat_cmp};
ghost use Rattle.std.specs.FinMap.{find, is_sorted};
ghost use Rattle.std.specs.Cmp.Lexicographic.{pointwise};
ghost use Rattle.mpslp_decimal.specs.Decimal.{zero_number};
ghost use Rattle.mpslp_model_core.specs.ByRow.{has_number};
ghost use Rattle.mpslp_model_core.specs.Same.{same_cell, same_named_column, same_at};
ghost use Rattle.mpslp_model_core.specs.Columned.{row_cells, count_row_cells, column_entries};

use crate::model_columns::ModelColumns;
use crate::sides::is_same_number;
use mpslp_decimal::{Decimal, PackedDecimal};
use mpslp_types::{Query, find_entry};
use std::cmp::Ordering;

/// The index of a row in the model. It may exceed the row numbers of all coefficients.
#[derive(Clone, Copy)]
struct RowIndex {
    row: usize,
}

impl Query<u32> for RowIndex {
    ghost key = { λ index. suc index.row };

    fn compare(&self, other: &u32) -> Ordering {
        (self.row as u128 + 1).cmp(&(*other as u128))
    }
}

/// The coefficients without that of the objective.
pub(crate) fn row_cells(cells: &[(u32, PackedDecimal)]) -> &[(u32, PackedDecimal)]
    requires { IsTrue (is_sorted nat_cmp cells.now) }
    ensures { result.now ≡ row_cells cells.now }
{
    match cells {
        [] => cells,
        [first, rows @ ..] if first.0 == 0 => rows,
        [..] => cells,
    }
}

/// The coefficient of the objective, or 0 if there is none.
pub(crate) fn objective_value(cells: &[(u32, PackedDecimal)]) -> Decimal
    requires { IsTrue (is_sorted nat_cmp cells.now) }
    ensures { result ≡ unwrap_or (find nat_cmp 0 cells.now) zero_number }
{
    match cells {
        [] => Decimal::zero(),
        [first, ..] if first.0 == 0 => first.1.value(),
        [..] => Decimal::zero(),
    }
}

/// The coefficient of the row at this index in the model, or 0 if there is none.
pub(crate) fn value_at(cells: &[(u32, PackedDecimal)], row: usize) -> Decimal
    requires { IsTrue (is_sorted nat_cmp cells.now) }
    ensures { result ≡ unwrap_or (find nat_cmp (suc row) cells.now) zero_number }
{
    match find_entry(cells, &RowIndex { row }) {
        Some(value) => value.value(),
        None => Decimal::zero(),
    }
}

/// Whether there is a coefficient of the row at this index in the model.
pub(crate) fn has_value_at(cells: &[(u32, PackedDecimal)], row: usize) -> bool
    requires { IsTrue (is_sorted nat_cmp cells.now) }
    ensures { result ≡ has_number (suc row) cells.now }
{
    find_entry(cells, &RowIndex { row }).is_some()
}

/// The number of coefficients in all columns, without those of the objective.
pub(crate) fn count_elements(columns: &ModelColumns) -> u128
    requires { IsTrue (list_all (λ column. is_sorted nat_cmp column.1.cells) columns.now) }
    ensures { result ≡ count_row_cells columns.now }
{
    let mut count = 0;
    for j in 0..columns.len() {
        count += row_cells(columns.cells_at(j)).len() as u128;
    }
    count
}

/// Whether two coefficients have the same number and the same value.
fn is_same_cell(own: &(u32, PackedDecimal), other: &(u32, PackedDecimal)) -> bool
    ensures { result ≡ same_cell own.now other.now }
{
    own.0 == other.0 && is_same_number(own.1.value(), other.1.value())
}

/// Whether the coefficients are the same.
fn are_same_cells(own: &[(u32, PackedDecimal)], other: &[(u32, PackedDecimal)]) -> bool
    ensures { result ≡ pointwise same_cell own.now other.now }
{
    for (cell, counterpart) in own.iter().zip(other) {
        if !is_same_cell(cell, counterpart) {
            return false;
        }
    }
    own.len() == other.len()
}

/// Whether the columns of number `j` have the same name, type, bounds and coefficients.
fn is_same_column(own: &ModelColumns, other: &ModelColumns, j: usize) -> bool
    requires own { j < length own.now }
    requires other { j < length other.now }
    ensures { Some result ≡ same_at j (column_entries own.now) (column_entries other.now) }
{
    own.name_at(j) == other.name_at(j)
        && (own.bounds_at(j) == other.bounds_at(j)
            && are_same_cells(own.cells_at(j), other.cells_at(j)))
}

/// Whether the columns are the same.
pub(crate) fn same_columns(own: &ModelColumns, other: &ModelColumns) -> bool
    ensures { result ≡ pointwise same_named_column (column_entries own.now) (column_entries other.now) }
{
    if own.len() != other.len() {
        return false;
    }
    for j in 0..own.len() {
        if !is_same_column(own, other, j) {
            return false;
        }
    }
    true
}

/// The index of the row to which a coefficient's number refers.
pub(crate) fn index_of_row_number(number: u32) -> usize
    requires { 0 < number }
    ensures { result + 1 ≡ number }
{
    number as usize - 1
}
