//! The columns of a model, with the coefficients of all of them in one vector.

ghost use Rattle.std.specs.Prelude.{◌≡◌, ◌<◌, IsTrue, Some, length, position, slice_get};
ghost use Rattle.std.specs.List.{All};
ghost use Rattle.std.specs.Option.{option_map};
ghost use Rattle.std.specs.FinMap.{is_sorted};
ghost use Rattle.mpslp_types.specs.Name.{same_bytes, bytes_cmp};
ghost use Rattle.mpslp_model_core.specs.ModelColumns.{IsWithin, span_cells, columns_of};
ghost use Rattle.mpslp_model_core.specs.ModelParts.{bounds_in};
ghost use Rattle.mpslp_model_core.specs.Numbered.{each_part};

use crate::iterators::Columns;
use crate::model::index_of;
use crate::model_row::ModelBounds;
use crate::sides::ColumnBounds;
use mpslp_decimal::PackedDecimal;
use mpslp_types::{Name, entry_at};
use std::marker::Model;

/// Where the coefficients of a column are in the vector of all, and its type and bounds. The builder counts coefficients by numbers
/// of 32 bits, so these indices have no more.
#[derive(Debug, Drop)]
pub struct ColumnSpan {
    /// Its type and bounds.
    pub bounds: ModelBounds,
    /// The index of its first coefficient.
    pub start: u32,
    /// The index after its last coefficient.
    pub end: u32,
}

const _: () = prove!(size_of::<ColumnSpan>() == 32);

/// The columns of a model in byte order of their names, with the coefficients of all of them in one vector. So there is no
/// allocation for each column, and coefficients that are read one after another are next to one another.
///
/// Contracts see the list of the columns' names, each with the type and bounds of its column, and its coefficients by row number.
/// The objective has the number 0, and the row at index `i` has `i + 1` here.
#[derive(Debug, Drop)]
pub struct ModelColumns {
    columns: Vec<(Name, ColumnSpan)>,
    cells: Vec<(u32, PackedDecimal)>,
}

impl Model for ModelColumns {
    ghost use Rattle.std.specs.Prelude.{ℕ, List, length};
    ghost use Rattle.std.specs.List.{All};
    ghost use Rattle.mpslp_model_core.specs.ModelColumns.{ModelColumn, IsWithin, columns_of};

    ghost Value = { List (List ℕ × ModelColumn) };

    ghost view = { λ c. columns_of c.columns.items c.cells.items };

    ghost invariant = { λ c. All (λ column. IsWithin (length c.cells.items) column.1) c.columns.items };
}

/// The coefficients of a column, from those of all columns.
fn cells_of<'a>(cells: &'a [(u32, PackedDecimal)], span: &ColumnSpan) -> &'a [(u32, PackedDecimal)]
    requires { IsWithin (length cells.now) span.now }
    ensures { result.now ≡ span_cells cells.now span.now }
{
    &cells[span.start as usize..span.end as usize]
}

impl ModelColumns {
    /// Makes the columns of their names and places, and of the coefficients of all of them. Each place must be within these.
    pub fn of(columns: Vec<(Name, ColumnSpan)>, cells: Vec<(u32, PackedDecimal)>) -> ModelColumns
        requires { All (λ column. IsWithin (length cells.items) column.1) columns.items }
        ensures { result ≡ columns_of columns.items cells.items }
    {
        ModelColumns { columns, cells }
    }

    /// The number of columns.
    pub(crate) fn len(&self) -> usize
        ensures { result ≡ length self.now }
    {
        self.columns.as_slice().len()
    }

    /// The name of the column of number `j`.
    pub(crate) fn name_at(&self, j: usize) -> &Name
        requires { j < length self.now }
        ensures { option_map (λ column. column.0) (slice_get self.now j) ≡ Some result.now }
    {
        &entry_at(&self.columns, j).0
    }

    /// The type and bounds of the column of number `j`.
    pub(crate) fn bounds_at(&self, j: usize) -> ColumnBounds
        requires { j < length self.now }
        ensures { option_map (λ column. column.1.bounds) (slice_get self.now j) ≡ Some result }
    {
        entry_at(&self.columns, j).1.bounds.bounds()
    }

    /// The coefficients of the column of number `j`.
    pub(crate) fn cells_at(&self, j: usize) -> &[(u32, PackedDecimal)]
        requires { j < length self.now }
        ensures { option_map (λ column. column.1.cells) (slice_get self.now j) ≡ Some result.now }
    {
        cells_of(&self.cells, &entry_at(&self.columns, j).1)
    }

    /// The number of the column of this name. The columns must be in the order of their names.
    pub(crate) fn index_of(&self, name: &[u8]) -> Option<usize>
        requires { IsTrue (is_sorted bytes_cmp self.now) }
        ensures { result ≡ position (λ column. same_bytes name.now column.0) self.now }
    {
        index_of(&self.columns, name)
    }

    /// The columns in the order of their numbers, each as its name, and its type and bounds.
    pub(crate) fn iter(&self) -> Columns<'_>
        ensures { result ≡ each_part bounds_in self.now }
    {
        Columns::of(&self.columns)
    }
}
