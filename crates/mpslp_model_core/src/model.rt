//! Models and their accessors.

ghost use Rattle.std.specs.Prelude.{◌≡◌, ◌<◌, IfOk, IsTrue, Some, length, map, position, slice_get};
ghost use Rattle.std.specs.Option.{option_map};
ghost use Rattle.mpslp_decimal.specs.Decimal.{negated};
ghost use Rattle.std.specs.Bool.{Decides};
ghost use Rattle.std.specs.FinMap.{entries, is_sorted};
ghost use Rattle.mpslp_types.specs.Name.{same_bytes, bytes_cmp};
ghost use Rattle.mpslp_model_core.specs.Same.{IsSameObjective};
ghost use Rattle.mpslp_model_core.specs.ModelParts.{linear_model, AreModelParts};
ghost use Rattle.mpslp_model_core.specs.Views.{row_names, column_names, rows_of, columns_of, num_rows, num_columns, num_elements, row_name, column_name, row_index, column_index, row_sense, right_hand_side, row_range, coefficient_at, column_elements, numbered_elements, row_columns, row_elements};
ghost use Rattle.mpslp_model_core.specs.Model.{is_integer_column};

use crate::by_row::{
    RowLists, column_with, count_columns_with, element_at, elements_by_row, row_list,
};
use crate::columns::{
    count_elements, index_of_row_number, objective_value, row_cells, same_columns, value_at,
};
use crate::iterators::{ColumnEntries, Columns, Rows};
use crate::model_columns::ModelColumns;
use crate::model_row::ModelRow;
use crate::row_entries::RowEntries;
use crate::row_names::{RowNames, name_at, names_of};
use crate::sides::{ColumnBounds, RowLimits};
use mpslp_decimal::Decimal;
use mpslp_types::{Kind, Limit, Name, Sense, entry_at, find_index};
use std::alloc::{AllocError, Global};
use std::marker;

/// Whether the rows are the same.
fn same_rows(a: &[(Name, ModelRow)], b: &[(Name, ModelRow)]) -> bool
    ensures { Decides result (a.now ≡ b.now) }
{
    a == b
}

/// What a [`Model`] is made of.
#[derive(Debug, Drop)]
pub struct ModelParts {
    /// Whether the objective is minimized or maximized.
    pub sense: Sense,
    /// The name of the objective.
    pub objective: Name,
    /// The constant of the objective.
    pub constant: Decimal,
    /// The rows in byte order of their names.
    pub rows: Vec<(Name, ModelRow)>,
    /// The columns in byte order of their names.
    pub columns: ModelColumns,
}

/// A linear or mixed-integer model. Contracts see it as a value, and it is always well-formed: it has at least one column,
/// some value meets the limits of each row and the bounds of each column, the bounds suit the column's type, and each
/// coefficient is nonzero and has an existing column and an existing row or the objective.
///
/// Rows and columns are numbered from 0, in byte order of their names. The objective is not a row.
#[derive(Debug, Drop)]
pub struct Model {
    pub(crate) parts: ModelParts,
    /// Where the coefficients of each row are, in the order of their columns, once this was made.
    by_row: Option<RowLists>,
    /// The names of the rows in one text.
    row_names: RowNames,
}

impl marker::Model for Model {
    ghost use Rattle.mpslp_model_core.specs.Model.{LinearModel};
    ghost use Rattle.mpslp_model_core.specs.ModelCode.{linear_model_code};

    ghost Value = { LinearModel };

    ghost coded = { linear_model_code };

    ghost use Rattle.mpslp_model_core.specs.ModelParts.{linear_model};
    ghost use Rattle.mpslp_model_core.specs.ByRow.{AreIndexed};

    ghost view = { λ m. linear_model m.parts };

    ghost invariant = { λ m. AreIndexed m.parts m.by_row m.row_names };
}

/// The index of the entry of this name. The entries must be in the order of their names.
pub(crate) fn index_of<X>(entries: &[(Name, X)], name: &[u8]) -> Option<usize>
    requires { IsTrue (is_sorted bytes_cmp entries.now) }
    ensures { result ≡ position (λ entry. same_bytes name.now entry.0) entries.now }
{
    find_index(entries, &name)
}

impl Model {
    /// Makes a model of its parts and the text of the names of rows, without lists by rows.
    ///
    /// # Errors
    ///
    /// [`AllocError`] if there is no memory for the text.
    pub fn of_parts(alloc: Global, parts: ModelParts) -> Result<Model, AllocError>
        requires { AreModelParts parts }
        ensures { IfOk result (λ model. model ≡ linear_model parts) }
    {
        let row_names = names_of(alloc, &parts.rows)?;
        Ok(Model {
            parts,
            by_row: None,
            row_names,
        })
    }

    /// The same model with lists by rows: with them [`Model::row_len`] and [`Model::row_entry`] take constant time, and LP is
    /// written in time proportional to its coefficients. They take 8 bytes of memory for a row or a coefficient. Makes nothing if
    /// the model has them.
    ///
    /// # Errors
    ///
    /// [`AllocError`] if there is no memory for the lists, or there are more than 4,294,967,296 columns.
    pub fn with_row_lists(self, alloc: Global) -> Result<Model, AllocError>
        ensures { IfOk result (λ model. model ≡ self) }
    {
        if self.by_row.is_some() {
            return Ok(self);
        }
        let Model {
            parts,
            by_row: _,
            row_names,
        } = self;
        let lists = elements_by_row(alloc, parts.rows.as_slice().len(), &parts.columns)?;
        Ok(Model {
            parts,
            by_row: Some(lists),
            row_names,
        })
    }

    /// The number of rows, without the objective.
    pub fn num_rows(&self) -> usize
        ensures { result ≡ num_rows self.now }
    {
        self.parts.rows.as_slice().len()
    }

    /// The number of columns.
    pub fn num_cols(&self) -> usize
        ensures { result ≡ num_columns self.now }
    {
        self.parts.columns.len()
    }

    /// The number of nonzero coefficients, without those of the objective.
    pub fn num_elements(&self) -> u128
        ensures { result ≡ num_elements self.now }
    {
        count_elements(&self.parts.columns)
    }

    /// The name of the objective.
    pub fn objective_name(&self) -> &Name
        ensures { result.now ≡ self.now.objective }
    {
        &self.parts.objective
    }

    /// Whether the objective is minimized or maximized.
    pub fn objective_sense(&self) -> Sense
        ensures { result ≡ self.now.sense }
    {
        self.parts.sense
    }

    /// The constant of the objective.
    pub fn objective_constant(&self) -> Decimal
        ensures { result ≡ self.now.constant }
    {
        self.parts.constant
    }

    /// The negated constant of the objective.
    pub fn objective_offset(&self) -> Decimal
        ensures { result ≡ negated self.now.constant }
    {
        self.parts.constant.negate()
    }

    /// The rows in the order of their numbers, each as its name and its limits. The objective is not a row.
    pub fn rows(&self) -> Rows<'_>
        ensures { result ≡ entries self.now.rows }
    {
        Rows::of(&self.parts.rows)
    }

    /// The columns in the order of their numbers, each as its name, and its type and bounds.
    pub fn columns(&self) -> Columns<'_>
        ensures { result ≡ entries self.now.columns }
    {
        self.parts.columns.iter()
    }

    /// The name of the row of number `i`.
    pub fn row_name(&self, i: usize) -> &Name
        requires { i < num_rows self.now }
        ensures { slice_get (row_names self.now) i ≡ Some result.now }
    {
        &entry_at(&self.parts.rows, i).0
    }

    /// The bytes of the name of the row of number `i`. The names are one after another here, so this reads less memory than
    /// [`Model::row_name`].
    pub fn row_name_bytes(&self, i: usize) -> &[u8]
        requires { i < num_rows self.now }
        ensures { slice_get (row_names self.now) i ≡ Some result.now }
    {
        name_at(&self.row_names, i)
    }

    /// The name of the column of number `j`.
    pub fn column_name(&self, j: usize) -> &Name
        requires { j < num_columns self.now }
        ensures { slice_get (column_names self.now) j ≡ Some result.now }
    {
        self.parts.columns.name_at(j)
    }

    /// The number of the row with this name. The objective has none.
    pub fn row_index(&self, name: &[u8]) -> Option<usize>
        ensures { result ≡ row_index self.now name.now }
    {
        index_of(&self.parts.rows, name)
    }

    /// The number of the column with this name.
    pub fn column_index(&self, name: &[u8]) -> Option<usize>
        ensures { result ≡ column_index self.now name.now }
    {
        self.parts.columns.index_of(name)
    }

    /// The row of number `i`.
    fn row_at(&self, i: usize) -> &ModelRow
        requires { i < num_rows self.now }
        ensures { slice_get (rows_of self.now) i ≡ Some result.now }
    {
        &entry_at(&self.parts.rows, i).1
    }

    /// The limits of the row of number `i`.
    fn row_limits(&self, i: usize) -> RowLimits
        requires { i < num_rows self.now }
        ensures { slice_get (rows_of self.now) i ≡ Some result }
    {
        self.row_at(i).limits()
    }

    /// The type and bounds of the column of number `j`.
    fn column_bounds(&self, j: usize) -> ColumnBounds
        requires { j < num_columns self.now }
        ensures { slice_get (columns_of self.now) j ≡ Some result }
    {
        self.parts.columns.bounds_at(j)
    }

    /// The lower limit of the row of number `i`.
    pub fn row_lower(&self, i: usize) -> Limit
        requires { i < num_rows self.now }
        ensures { option_map (λ row. row.lower) (slice_get (rows_of self.now) i) ≡ Some result }
    {
        self.row_limits(i).lower
    }

    /// The upper limit of the row of number `i`.
    pub fn row_upper(&self, i: usize) -> Limit
        requires { i < num_rows self.now }
        ensures { option_map (λ row. row.upper) (slice_get (rows_of self.now) i) ≡ Some result }
    {
        self.row_limits(i).upper
    }

    /// The limits of the row of number `i` as a letter: `N` no limit, `L` only an upper limit, `G` only a lower limit, `E` both
    /// limits equal, `R` two different limits.
    pub fn row_sense(&self, i: usize) -> u8
        requires { i < num_rows self.now }
        ensures { option_map row_sense (slice_get (rows_of self.now) i) ≡ Some result }
    {
        self.row_at(i).sense()
    }

    /// The upper limit of the row of number `i` if it is finite, otherwise the lower one, otherwise 0.
    pub fn right_hand_side(&self, i: usize) -> Decimal
        requires { i < num_rows self.now }
        ensures { option_map right_hand_side (slice_get (rows_of self.now) i) ≡ Some result }
    {
        self.row_at(i).right_hand_side()
    }

    /// The distance between the limits of the row of number `i`, or 0 if one is infinite.
    pub fn row_range(&self, i: usize) -> Decimal
        requires { i < num_rows self.now }
        ensures { option_map row_range (slice_get (rows_of self.now) i) ≡ Some result }
    {
        self.row_at(i).range()
    }

    /// The lower bound of the column of number `j`.
    pub fn col_lower(&self, j: usize) -> Limit
        requires { j < num_columns self.now }
        ensures { option_map (λ column. column.lower) (slice_get (columns_of self.now) j) ≡ Some result }
    {
        self.column_bounds(j).lower
    }

    /// The upper bound of the column of number `j`.
    pub fn col_upper(&self, j: usize) -> Limit
        requires { j < num_columns self.now }
        ensures { option_map (λ column. column.upper) (slice_get (columns_of self.now) j) ≡ Some result }
    {
        self.column_bounds(j).upper
    }

    /// The type of the column of number `j`.
    pub fn column_kind(&self, j: usize) -> Kind
        requires { j < num_columns self.now }
        ensures { option_map (λ column. column.kind) (slice_get (columns_of self.now) j) ≡ Some result }
    {
        self.column_bounds(j).kind
    }

    /// Whether the column of number `j` is integer.
    pub fn is_integer(&self, j: usize) -> bool
        requires { j < num_columns self.now }
        ensures { option_map is_integer_column (slice_get (columns_of self.now) j) ≡ Some result }
    {
        match self.column_bounds(j).kind {
            Kind::Integer => true,
            Kind::Continuous | Kind::Semi => false,
        }
    }

    /// The objective coefficient of the column of number `j`; 0 if it has none.
    pub fn objective_coefficient(&self, j: usize) -> Decimal
        requires { j < num_columns self.now }
        ensures { result ≡ coefficient_at self.now self.now.objective (column_name self.now j) }
    {
        objective_value(self.parts.columns.cells_at(j))
    }

    /// The coefficient of the row of number `i` in the column of number `j`; 0 if there is none.
    pub fn coefficient(&self, i: usize, j: usize) -> Decimal
        requires row { i < num_rows self.now }
        requires column { j < num_columns self.now }
        ensures { result ≡ coefficient_at self.now (row_name self.now i) (column_name self.now j) }
    {
        value_at(self.parts.columns.cells_at(j), i)
    }

    /// Whether sense, objective name and constant are the same.
    fn has_same_objective(&self, other: &Model) -> bool
        ensures { Decides result (IsSameObjective self.now other.now) }
    {
        self.parts.sense == other.parts.sense
            && self.parts.objective == other.parts.objective
            && self.parts.constant == other.parts.constant
    }

    /// Whether both models are the same: the sense, the name and the constant of the objective, the names of rows and columns,
    /// their limits, bounds and types, and all coefficients. Numbers are compared by value.
    pub fn same(&self, other: &Model) -> bool
        ensures { Decides result (self.now ≡ other.now) }
    {
        self.has_same_objective(other)
            && (same_rows(&self.parts.rows, &other.parts.rows)
                && same_columns(&self.parts.columns, &other.parts.columns))
    }

    /// The number of nonzero coefficients in the column of number `j`, without the objective's. Takes constant time.
    pub fn column_len(&self, j: usize) -> usize
        requires { j < num_columns self.now }
        ensures { result ≡ length (column_elements self.now (column_name self.now j)) }
    {
        row_cells(self.parts.columns.cells_at(j)).len()
    }

    /// Nonzero coefficient number `k` of the column of number `j`, in the order of rows, without the objective's: the number of
    /// the row, and the value. Takes constant time.
    pub fn entry(&self, j: usize, k: usize) -> (usize, Decimal)
        requires column { j < num_columns self.now }
        requires entry { k < length (column_elements self.now (column_name self.now j)) }
        ensures { slice_get (numbered_elements self.now (column_name self.now j)) k ≡ Some (Some result.0, result.1) }
    {
        let cell = entry_at(row_cells(self.parts.columns.cells_at(j)), k);
        (index_of_row_number(cell.0), cell.1.value())
    }

    /// The nonzero coefficients of the column of number `j` in the order of rows, without the objective's: for each the number of
    /// the row, and the value.
    pub fn column_entries(&self, j: usize) -> ColumnEntries<'_>
        requires { j < num_columns self.now }
        ensures { map (λ entry. (Some entry.0, entry.1)) result ≡ numbered_elements self.now (column_name self.now j) }
    {
        ColumnEntries::of(row_cells(self.parts.columns.cells_at(j)))
    }

    /// The number of nonzero coefficients in the row of number `i`. Takes constant time if the model has lists by rows, and else
    /// searches in all columns.
    pub fn row_len(&self, i: usize) -> usize
        requires { i < num_rows self.now }
        ensures { result ≡ length (row_columns self.now (row_name self.now i)) }
    {
        match &self.by_row {
            Some(lists) => row_list(lists, i).len(),
            None => count_columns_with(&self.parts.columns, i),
        }
    }

    /// Nonzero coefficient number `k` of the row of number `i`, in the order of columns: the number of the column, and the value.
    /// Takes constant time if the model has lists by rows, and else searches in all columns.
    #[inline(always)]
    pub fn row_entry(&self, i: usize, k: usize) -> (usize, Decimal)
        requires row { i < num_rows self.now }
        requires entry { k < length (row_columns self.now (row_name self.now i)) }
        ensures column { slice_get (row_columns self.now (row_name self.now i)) k ≡ Some result.0 }
        ensures value { result.1 ≡ coefficient_at self.now (row_name self.now i) (column_name self.now result.0) }
    {
        let Some(lists) = &self.by_row else {
            let j = column_with(&self.parts.columns, i, k);
            return (j, self.coefficient(i, j));
        };
        let element = element_at(lists, i, k);
        let j = element.column as usize;
        let cell = entry_at(self.parts.columns.cells_at(j), element.place as usize);
        (j, cell.1.value())
    }

    /// The nonzero coefficients of the row of number `i` in the order of columns: for each the number of the column, and the
    /// value. Each takes constant time if the model has lists by rows. Without them each is searched in all columns, so that a
    /// row with many coefficients, or all rows, take quadratic time: call [`with_row_lists`](Self::with_row_lists) first.
    pub fn row_entries(&self, i: usize) -> RowEntries<'_>
        requires { i < num_rows self.now }
        ensures { result ≡ row_elements self.now (row_name self.now i) }
    {
        RowEntries::of(self, i)
    }
}
