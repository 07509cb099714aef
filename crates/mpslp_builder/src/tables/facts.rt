//! What is declared of the objective, of a row or of a column, by number.

ghost use Rattle.std.specs.Prelude.{◌≡◌, ◌||◌, None, false, is_some};
ghost use Rattle.std.specs.Ordering.{nat_cmp};
ghost use Rattle.std.specs.FinMap.{find};
ghost use Rattle.mpslp_builder.specs.Declaration.{is_free_definition, is_definition_by_limits};
ghost use Rattle.mpslp_builder.specs.Consistency.{has_objective_rhs};
ghost use Rattle.mpslp_builder.specs.Tables.{draft, IsNumbered};
ghost use Rattle.mpslp_builder.specs.Calls.{row_satisfies, has_rhs_at, column_satisfies, cells_at};

use crate::tables::{RowRef, Tables};

impl Tables {
    /// Whether the objective has a right-hand side, which is its negated constant.
    pub(crate) fn has_objective_rhs(&self) -> bool
        requires { IsNumbered self.now }
        ensures { result ≡ has_objective_rhs (draft None None self.now) }
    {
        self.each_name_occurs_once();
        match &self.objective {
            Some(objective) => objective.rhs.is_some(),
            None => false,
        }
    }

    /// Whether the right-hand side is declared, as such, by the limits of the row, or by the constant of the objective.
    pub(crate) fn has_rhs(&self, place: RowRef, has_constant: bool) -> bool
        ensures { result ≡ has_rhs_at self.now has_constant place }
    {
        match place {
            RowRef::Objective => match &self.objective {
                Some(objective) => objective.rhs.is_some() || has_constant,
                None => false,
            },
            RowRef::Row(index) => match self.rows.get_index(index) {
                Some((_key, row)) => row.has_rhs() || row.has_limits(),
                None => false,
            },
        }
    }

    /// Whether the range is declared, as such or by the limits of the row.
    pub(crate) fn has_range(&self, place: RowRef) -> bool
        ensures { result ≡ row_satisfies self.now place (λ objective. false) (λ row. is_some row.range || is_definition_by_limits row.definition) }
    {
        match place {
            RowRef::Objective => false,
            RowRef::Row(index) => match self.rows.get_index(index) {
                Some((_key, row)) => row.has_range() || row.has_limits(),
                None => false,
            },
        }
    }

    /// Whether this is a row of type N. The objective does not count.
    pub(crate) fn is_free(&self, place: RowRef) -> bool
        ensures { result ≡ row_satisfies self.now place (λ objective. false) (λ row. is_free_definition row.definition) }
    {
        match place {
            RowRef::Objective => false,
            RowRef::Row(index) => match self.rows.get_index(index) {
                Some((_key, row)) => row.is_free(),
                None => false,
            },
        }
    }

    /// Whether the column of a number has a coefficient in the row of a number.
    pub(crate) fn has_cell(&self, column: usize, row: u32) -> bool
        ensures { result ≡ is_some (find nat_cmp row (cells_at self.now column)) }
    {
        self.columns.has_cell(column, row)
    }

    /// Whether the lower bound of the column of a number is declared.
    pub(crate) fn has_lower(&self, column: usize) -> bool
        ensures { result ≡ column_satisfies self.now column (λ parts. is_some parts.sides.lower) }
    {
        match self.columns.definition_at(column) {
            Some(definition) => definition.sides.has_lower(),
            None => false,
        }
    }

    /// Whether the upper bound of the column of a number is declared.
    pub(crate) fn has_upper(&self, column: usize) -> bool
        ensures { result ≡ column_satisfies self.now column (λ parts. is_some parts.sides.upper) }
    {
        match self.columns.definition_at(column) {
            Some(definition) => definition.sides.has_upper(),
            None => false,
        }
    }

    /// Whether the column of a number is declared marked, integer or binary.
    pub(crate) fn is_integer(&self, column: usize) -> bool
        ensures { result ≡ column_satisfies self.now column (λ parts. parts.marked || (parts.integer || parts.binary)) }
    {
        match self.columns.definition_at(column) {
            Some(definition) => definition.marked || (definition.integer || definition.binary),
            None => false,
        }
    }

    /// Whether the column of a number is declared semi-continuous.
    pub(crate) fn is_semi(&self, column: usize) -> bool
        ensures { result ≡ column_satisfies self.now column (λ parts. parts.semi) }
    {
        match self.columns.definition_at(column) {
            Some(definition) => definition.semi,
            None => false,
        }
    }
}
