//! What each declaration changes in the tables, by number.

ghost use Rattle.std.specs.Prelude.{◌≡◌, ◌<◌, IsTrue, OnOk, OnErr, Some, None, true, false, if◌then◌else◌, suc, is_some};
ghost use Rattle.std.specs.Ordering.{nat_cmp};
ghost use Rattle.std.specs.FinMap.{find};
ghost use Rattle.indexmap.specs.IndexMap.{index_map_len};
ghost use Rattle.mpslp_types.specs.declared.faults.BuildFault.TheVariants.{DuplicateRow, OutOfMemory};
ghost use Rattle.mpslp_builder.specs.Declaration.{has_row};
ghost use Rattle.mpslp_builder.specs.Tables.{draft};
ghost use Rattle.mpslp_builder.specs.Calls.{row_key_of, row_name, column_name, has_limits, cells_at, with_cell, with_bounds, with_property, IsSameTables, PutsIfFree, HasObjective, AddsRow, HasRowChanged, HasColumnChanged, HasRhsPut};

use crate::tables::{RowRef, Tables};
use mpslp_builder_parts::{ObjectiveParts, Property, RowParts};
use mpslp_decimal::{Decimal, PackedDecimal};
use mpslp_types::{BuildFault, Limit, Name};
use std::alloc::AllocError;

/// The maximum number of rows: they and the objective have numbers of 32 bits.
const MOST_ROWS: usize = 4_294_967_294;

impl Tables {
    /// Names the objective.
    pub(crate) fn name_objective(&mut self, name: Name)
        ensures { HasObjective self.old (record { name = name; rhs = None }) self.new }
    {
        self.objective = Some(ObjectiveParts { name, rhs: None });
    }

    /// Whether one more row can be numbered.
    fn has_room(&self) -> bool
        ensures { IsTrue result → index_map_len self.now.rows < MOST_ROWS }
    {
        self.rows.len() < MOST_ROWS
    }

    /// The error of a row that cannot be added.
    fn fault_of_row(&self, name: &[u8]) -> BuildFault
        ensures { result ≡ (if has_row (draft None None self.now) name.now then DuplicateRow else OutOfMemory) }
    {
        if self.has_row(name) {
            BuildFault::DuplicateRow
        } else {
            BuildFault::OutOfMemory
        }
    }

    /// Adds a row. Most names are new, so the row is looked up and added at once.
    pub(crate) fn add_row(&mut self, name: Name, parts: RowParts) -> Result<(), BuildFault>
        ensures { AddsRow self.old name parts result self.new }
    {
        if self.is_objective(name.as_bytes()) || !self.has_room() {
            return Err(self.fault_of_row(name.as_bytes()));
        }
        let Ok((index, old)) = self.rows.insert_full(name, parts) else {
            return Err(BuildFault::OutOfMemory);
        };
        self.recent_row = index;
        let Some(old) = old else {
            return Ok(());
        };
        let (_key, row) = self.rows.pair_mut(index);
        *row = old;
        Err(BuildFault::DuplicateRow)
    }

    /// Stores a coefficient, unless the column has one in the row. Returns whether it was stored.
    pub(crate) fn put_if_free(
        &mut self,
        column: usize,
        row: u32,
        value: Decimal,
    ) -> Result<bool, AllocError>
        requires { is_some (column_name self.old column) ≡ true }
        ensures { PutsIfFree self.old column row value result self.new }
    {
        self.recent_row = row.saturating_sub(1) as usize;
        self.recent = column;
        self.columns.put_if_free(column, row, value)
    }

    /// Stores a coefficient at a free place.
    pub(crate) fn put_cell(
        &mut self,
        column: usize,
        row: u32,
        value: Decimal,
    ) -> Result<(), AllocError>
        requires column { is_some (column_name self.old column) ≡ true }
        requires absent { find nat_cmp row (cells_at self.old column) ≡ None }
        ensures ok { OnOk result (HasColumnChanged self.old column (with_cell row value) self.new) }
        ensures err { OnErr result (IsSameTables self.old self.new) }
    {
        self.put_if_free(column, row, value)?;
        Ok(())
    }

    /// Stores the right-hand side of the row at an index, which must be declared by its type.
    fn put_row_rhs(&mut self, index: usize, value: Decimal)
        requires there { is_some (row_name self.old (suc index)) ≡ true }
        requires typed { has_limits self.old (RowRef.Row index) ≡ false }
        ensures { HasRowChanged self.old index (λ row. record row { rhs = Some value }) self.new }
    {
        self.recent_row = index;
        let (_key, row) = self.rows.pair_mut(index);
        row.put_rhs(value);
    }

    /// Stores the right-hand side of the objective.
    fn put_objective_rhs(&mut self, value: Decimal)
        requires { is_some self.old.objective ≡ true }
        ensures { HasRhsPut self.old RowRef.Objective value self.new }
    {
        if let Some(objective) = &mut self.objective {
            objective.rhs = Some(PackedDecimal::of(value));
        }
    }

    /// Stores the right-hand side of the objective, or of a row, which must be declared by its type.
    pub(crate) fn put_rhs(&mut self, place: RowRef, value: Decimal)
        requires there { is_some (row_name self.old (row_key_of place)) ≡ true }
        requires typed { has_limits self.old place ≡ false }
        ensures { HasRhsPut self.old place value self.new }
    {
        match place {
            RowRef::Objective => self.put_objective_rhs(value),
            RowRef::Row(index) => self.put_row_rhs(index, value),
        }
    }

    /// Stores the range of the row at an index, which must be declared by its type.
    pub(crate) fn put_range(&mut self, index: usize, value: Decimal)
        requires there { is_some (row_name self.old (suc index)) ≡ true }
        requires typed { has_limits self.old (RowRef.Row index) ≡ false }
        ensures { HasRowChanged self.old index (λ row. record row { range = Some value }) self.new }
    {
        self.recent_row = index;
        let (_key, row) = self.rows.pair_mut(index);
        row.put_range(value);
    }

    /// Adds a property to what is declared of a column.
    pub(crate) fn put_property(&mut self, column: usize, property: Property)
        requires { is_some (column_name self.old column) ≡ true }
        ensures { HasColumnChanged self.old column (with_property property) self.new }
    {
        self.recent = column;
        self.columns.add_property(column, property);
    }

    /// Stores the given bounds of a column.
    pub(crate) fn put_bounds(
        &mut self,
        column: usize,
        lower: Option<Limit>,
        upper: Option<Limit>,
    ) -> Result<(), AllocError>
        requires { is_some (column_name self.old column) ≡ true }
        ensures ok { OnOk result (HasColumnChanged self.old column (with_bounds lower upper) self.new) }
        ensures err { OnErr result (IsSameTables self.old self.new) }
    {
        self.recent = column;
        self.columns.put_bounds(column, lower, upper)
    }
}
