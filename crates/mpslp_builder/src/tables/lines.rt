//! A line of a column by number: its column, that it is marked, and its coefficients.

ghost use Rattle.std.specs.Prelude.{◌≡◌, ◌≢◌, ◌&&◌, ◌++◌, ℕ, List, IfSome, OnErr, OnOk, None, Some, false, true, is_some};
ghost use Rattle.std.specs.List.{flat_map};
ghost use Rattle.std.specs.Ordering.{nat_cmp};
ghost use Rattle.std.specs.FinMap.{find};
ghost use Rattle.mpslp_types.specs.Name.{is_mps_name};
ghost use Rattle.mpslp_types.specs.Lists.{when};
ghost use Rattle.mpslp_builder.specs.Declaration.{declare_marked};
ghost use Rattle.mpslp_builder.specs.ColumnLine.{mark_declared, entries_declared, parts_declared};
ghost use Rattle.mpslp_builder.specs.Tables.{IsNumbered};
ghost use Rattle.mpslp_builder.specs.Calls.{row_name, column_name, column_satisfies, cells_at, IsSameTables};
ghost use Rattle.mpslp_builder.specs.LineTables.{AreRows, AreKnownRows, AreFree, IsLinePlace, IsFreeLine, AreDeclaredOfColumn, HasPartOfColumn, IsEntryDeclared, Follows, Starts};

use crate::entries::Entries;
use crate::tables::Tables;
use mpslp_builder_parts::{Inserted, Property};
use mpslp_decimal::Decimal;
use mpslp_decimal::laws::each_value_is_a_decimal;
use mpslp_types::Name;
use std::alloc::{AllocError, Global};

/// The numbers of the rows of one or two coefficients. If there is only one, both are its number.
#[derive(Clone, Copy)]
pub(crate) struct RowNumbers {
    pub(crate) first: u32,
    pub(crate) second: u32,
}

/// Where the coefficients of a line belong, by numbers.
#[derive(Clone, Copy)]
pub(crate) struct LinePlace {
    pub(crate) column: usize,
    pub(crate) rows: RowNumbers,
}

impl Tables {
    /// The numbers of the rows of these coefficients, if all are declared and no two are the same.
    pub(crate) fn row_numbers(&self, entries: &Entries<'_>) -> Option<RowNumbers>
        requires { IsNumbered self.now }
        ensures rows { IfSome result (λ rows. AreRows self.now entries.now rows) }
        ensures single { IfSome result (λ rows. entries.now.second ≡ None → rows.second ≡ rows.first) }
        ensures found { AreKnownRows self.now entries.now → is_some result ≡ true }
    {
        let Some(first) = self.row_number(entries.first.row) else {
            return None;
        };
        let Some(entry) = &entries.second else {
            return Some(RowNumbers {
                first,
                second: first,
            });
        };
        let Some(second) = self.row_number(entry.row) else {
            return None;
        };
        if second == first {
            return None;
        }
        Some(RowNumbers { first, second })
    }

    /// Whether the column of a number has no coefficient in these rows.
    fn are_free(&self, column: usize, rows: RowNumbers) -> bool
        ensures free { result ≡ true → AreFree self.now column rows }
        ensures found { AreFree self.now column rows → result ≡ true }
    {
        if self.has_cell(column, rows.first) {
            return false;
        }
        rows.second == rows.first || !self.has_cell(column, rows.second)
    }

    /// Where these coefficients of a declared column belong, if nothing is against their declarations.
    pub(crate) fn next_place(
        &self,
        column: &[u8],
        is_marked: bool,
        entries: &Entries<'_>,
    ) -> Option<LinePlace>
        requires { IsNumbered self.now }
        ensures place { IfSome result (λ place. IsLinePlace self.now column.now is_marked entries.now place) }
        ensures found { IsFreeLine self.now column.now is_marked entries.now → is_some result ≡ true }
    {
        self.each_name_occurs_once();
        let Some(column) = self.column_number(column) else {
            return None;
        };
        if is_marked && self.is_semi(column) {
            return None;
        }
        let Some(rows) = self.row_numbers(entries) else {
            return None;
        };
        if !self.are_free(column, rows) {
            return None;
        }
        Some(LinePlace { column, rows })
    }

    /// Adds a column without coefficients, if no column has this name. Returns whether the column of this name is new, and its number.
    /// Most names are new, so the column is looked up and added at once.
    pub(crate) fn start_column(&mut self, name: Name) -> Result<Inserted, AllocError>
        requires numbered { IsNumbered self.old }
        requires legal { is_mps_name name ≡ true }
        ensures kept { Follows self.old self.new }
        ensures rows { self.new.rows.entries ≡ self.old.rows.entries }
        ensures started { Starts self.old name result self.new }
    {
        let inserted = self.columns.insert(name)?;
        self.recent = inserted.number();
        Ok(inserted)
    }

    /// Marks a column, if its line is in an integer block.
    fn mark_if(&mut self, column: usize, is_marked: bool)
        requires numbered { IsNumbered self.old }
        requires column { is_some (column_name self.old column) ≡ true }
        requires apart { (is_marked && column_satisfies self.old column (λ parts. parts.semi)) ≡ false }
        ensures kept { Follows self.old self.new }
        ensures declared { AreDeclaredOfColumn self.old column (mark_declared is_marked) self.new }
        ensures cells { cells_at self.new column ≡ cells_at self.old column }
    {
        self.each_name_occurs_once();
        if is_marked {
            self.put_property(column, Property::Marked);
        }
    }

    /// Stores a coefficient at a free place.
    pub(crate) fn put_value(
        &mut self,
        column: usize,
        row: u32,
        value: Decimal,
    ) -> Result<(), AllocError>
        requires numbered { IsNumbered self.old }
        requires column { is_some (column_name self.old column) ≡ true }
        requires row { is_some (row_name self.old row) ≡ true }
        requires absent { find nat_cmp row (cells_at self.old column) ≡ None }
        ensures kept { Follows self.old self.new }
        ensures rows { self.new.rows.entries ≡ self.old.rows.entries }
        ensures ok { OnOk result (IsEntryDeclared self.old column row value self.new) }
        ensures cells { (other : ℕ) → other ≢ row → find nat_cmp other (cells_at self.new column) ≡ find nat_cmp other (cells_at self.old column) }
        ensures err { OnErr result (IsSameTables self.old self.new) }
    {
        each_value_is_a_decimal(value);
        self.each_name_occurs_once();
        self.put_cell(column, row, value)
    }

    /// Stores one or two coefficients at free places. If the second one fails, the first one is stored.
    fn put_entries(
        &mut self,
        column: usize,
        rows: RowNumbers,
        entries: &Entries<'_>,
    ) -> Result<(), AllocError>
        requires numbered { IsNumbered self.old }
        requires column { is_some (column_name self.old column) ≡ true }
        requires rows { AreRows self.old entries.now rows }
        requires free { AreFree self.old column rows }
        ensures kept { Follows self.old self.new }
        ensures ok { OnOk result (AreDeclaredOfColumn self.old column (entries_declared entries.now) self.new) }
        ensures err { OnErr result (HasPartOfColumn self.old column (entries_declared entries.now) self.new) }
    {
        self.put_value(column, rows.first, entries.first.value)?;
        if let Some(entry) = &entries.second {
            self.put_value(column, rows.second, entry.value)?;
        }
        Ok(())
    }

    /// Marks a column, if its line is in an integer block, and stores its coefficients. If an allocation fails, a first part of
    /// this is done.
    pub(crate) fn put_line(
        &mut self,
        column: usize,
        is_marked: bool,
        rows: RowNumbers,
        entries: &Entries<'_>,
    ) -> Result<(), AllocError>
        requires numbered { IsNumbered self.old }
        requires column { is_some (column_name self.old column) ≡ true }
        requires apart { (is_marked && column_satisfies self.old column (λ parts. parts.semi)) ≡ false }
        requires rows { AreRows self.old entries.now rows }
        requires free { AreFree self.old column rows }
        ensures kept { Follows self.old self.new }
        ensures ok { OnOk result (AreDeclaredOfColumn self.old column (parts_declared is_marked entries.now) self.new) }
        ensures err { OnErr result (HasPartOfColumn self.old column (parts_declared is_marked entries.now) self.new) }
    {
        self.mark_if(column, is_marked);
        self.put_entries(column, rows, entries)
    }
}
