//! The columns by number, each with its name, its definition and its coefficients.

ghost use Rattle.std.specs.Prelude.{◌≡◌, ◌<◌, ◌↔◌, ℕ, [], IsTrue, IfOk, IfSome, OnOk, OnErr, None, Some, true, is_some, length, slice_get, slice_index, option_copied};
ghost use Rattle.std.specs.List.{All};
ghost use Rattle.std.specs.Option.{option_map};
ghost use Rattle.std.specs.Ordering.{nat_cmp};
ghost use Rattle.std.specs.FinMap.{find};
ghost use Rattle.mpslp_types.specs.Name.{bytes_cmp};
ghost use Rattle.mpslp_model_core.specs.ModelColumns.{IsWithin, span_bounds, span_cells};
ghost use Rattle.mpslp_model_core.specs.Numbered.{IsOnce, each_part};
ghost use Rattle.mpslp_builder_parts.specs.Parts.{cells_of, no_part, parts_with, with_cell, with_bounds, with_property, definition_in, bounds_of, moved_in};
ghost use Rattle.mpslp_builder_parts.specs.CoefficientLog.{IsLog};
ghost use Rattle.mpslp_builder_parts.specs.Grouping.{HaveNumbers};
ghost use Rattle.mpslp_builder_parts.specs.ColumnTable.{name_in, cells_in_column, number_inserted, Inserts, IsChanged, PutsIfFree, PutsAtOnce};
ghost use Rattle.mpslp_builder_parts.specs.StoredColumns.{parts_of, definition_of_stored, last_of, IsWhole};

use crate::coefficient_log::CoefficientLog;
use crate::grouping::places_of;
use crate::known_pairs::{
    Columns, KnownPairs, MOST_COLUMNS, StoredColumn, ask, drop_known, forget_pairs, has_cell,
    is_last_row, is_ready, last_of, note_put, prepare, put_known,
};
use crate::moving::{at_places, in_order_between, nonzero_first, renumbered};
use crate::parts::{ColumnDefinition, Property};
use indexmap::IndexMap;
use mpslp_decimal::{Decimal, PackedDecimal};
use mpslp_model_core::{ColumnSpan, ModelBounds};
use mpslp_types::{HashSeed, Limit, Name, NameBytes};
use std::alloc::{AllocError, Global};
use std::marker::Model;

/// The column of a name that was inserted: whether it is new, and its number.
#[derive(Clone, Copy, Debug)]
pub enum Inserted {
    /// No column had the name, so one was added. It has this number.
    New(usize),
    /// The column of this number had the name already.
    There(usize),
}

impl Inserted {
    /// The number of the column, new or not.
    pub fn number(self) -> usize
        ensures { result ≡ number_inserted self }
    {
        match self {
            Inserted::New(number) => number,
            Inserted::There(number) => number,
        }
    }
}

/// The columns by number, in the order of their declarations. Contracts see the name of each, what is declared of it and its
/// coefficients.
#[derive(Debug, Drop)]
pub struct ColumnTable {
    alloc: Global,
    columns: Columns,
    log: CoefficientLog,
    known: KnownPairs,
}

impl Model for ColumnTable {
    ghost use Rattle.mpslp_builder_parts.specs.ColumnTable.{ColumnEntries};
    ghost use Rattle.mpslp_builder_parts.specs.StoredColumns.{entries_of, IsKnown};

    ghost Value = { ColumnEntries };

    ghost view = { λ table. entries_of table.log table.columns.entries };

    ghost invariant = { λ table. IsKnown table.columns.entries table.log table.known };
}

/// Where the coefficients of a column are, and its type and bounds.
fn span_between(
    alloc: Global,
    definition: ColumnDefinition,
    start: u32,
    end: u32,
) -> Result<ColumnSpan, AllocError>
    ensures bounds { IfOk result (λ span. span.bounds ≡ bounds_of (parts_with [] definition)) }
    ensures start { IfOk result (λ span. span.start ≡ start) }
    ensures end { IfOk result (λ span. span.end ≡ end) }
{
    let bounds = ModelBounds::of(alloc, definition.declared().bounds())?;
    Ok(ColumnSpan { bounds, start, end })
}

/// The columns of a model with their names and the final row numbers, in the order in which they were declared, and the coefficients
/// of all of them.
///
/// Coefficients are grouped and renumbered before the columns are sorted, while the columns are in memory in the order of their
/// declarations. In the other order each access would be far from the one before it.
fn columns_in(
    alloc: Global,
    columns: Columns,
    log: CoefficientLog,
    ranks: &[u32],
) -> Result<(Vec<(Name, ColumnSpan)>, Vec<(u32, PackedDecimal)>), AllocError>
    requires log { IsLog log }
    requires numbers { HaveNumbers log.earlier (last_of columns.entries) }
    requires known { All (λ column. IsWhole log column.1) columns.entries }
    requires within { All (λ column. All (λ cell. cell.0 < length ranks.now) (cells_of column.1)) (each_part (parts_of log) columns.entries) }
    requires apart { (n m : ℕ) → n < length ranks.now → m < length ranks.now → slice_index ranks.now n ≡ slice_index ranks.now m → n ≡ m }
    ensures bounds { IfOk result (λ made. each_part span_bounds made.0.items ≡ each_part bounds_of (each_part (parts_of log) columns.entries)) }
    ensures cells { IfOk result (λ made. each_part (span_cells made.1.items) made.0.items ≡ each_part (moved_in ranks.now) (each_part (parts_of log) columns.entries)) }
    ensures places { IfOk result (λ made. All (λ column. IsWithin (length made.1.items) column.1) made.0.items) }
{
    let (cells, links) = log.into_parts();
    let (places, ends) = places_of(alloc, &columns, links)?;
    let mut cells = renumbered(at_places(cells, places), ranks);
    let mut made = Vec::with_capacity(alloc, columns.len())?;
    let mut start = 0;
    let mut number = 0;
    for (name, column) in columns {
        let end = ends[number];
        let (grouped, kept) = nonzero_first(cells, start as usize, end as usize);
        cells = in_order_between(grouped, start as usize, kept);
        let span = span_between(alloc, column.definition, start, kept as u32)?;
        made.push((name, span))?;
        start = end;
        number += 1;
    }
    Ok((made, cells))
}

impl ColumnTable {
    /// No columns. Allocates nothing.
    pub fn new(alloc: Global, seed: HashSeed) -> ColumnTable
        ensures { result.entries ≡ [] }
    {
        ColumnTable {
            alloc,
            columns: IndexMap::with_hasher(alloc, seed),
            log: CoefficientLog::new(alloc),
            known: KnownPairs::new(alloc),
        }
    }

    /// The number of columns.
    pub fn len(&self) -> usize
        ensures len { result ≡ length self.now.entries }
        ensures once { IsOnce (each_part cells_of self.now.entries) }
    {
        self.columns.len()
    }

    /// Whether there are no columns.
    pub fn is_empty(&self) -> bool
        ensures { IsTrue result ↔ (length self.now.entries ≡ 0) }
    {
        self.columns.is_empty()
    }

    /// The name of the column of a number.
    pub fn name_at(&self, column: usize) -> Option<&Name>
        ensures { option_copied result ≡ name_in self.now column }
    {
        match self.columns.get_index(column) {
            Some((name, _stored)) => Some(name),
            None => None,
        }
    }

    /// The number of the column of this name, which is looked up by its hash.
    pub fn number_of(&self, name: &[u8]) -> Option<usize>
        ensures number { IfSome result (λ i. name_in self.now i ≡ Some name.now) }
        ensures found { is_some result ≡ is_some (find bytes_cmp name.now (each_part no_part self.now.entries)) }
    {
        match self.columns.get_full(NameBytes { bytes: name }) {
            Some((number, _key, _stored)) => Some(number),
            None => None,
        }
    }

    /// What is declared of the column of a number, apart from its name and its coefficients.
    pub fn definition_at(&self, column: usize) -> Option<&ColumnDefinition>
        ensures { option_copied result ≡ option_map (λ e. definition_in e.1) (slice_get self.now.entries column) }
    {
        match self.columns.get_index(column) {
            Some((_name, stored)) => Some(&stored.definition),
            None => None,
        }
    }

    /// Whether the column of a number has a coefficient in the row of a number.
    pub fn has_cell(&self, column: usize, row: u32) -> bool
        ensures { result ≡ is_some (find nat_cmp row (cells_in_column self.now column)) }
    {
        let told = ask(&self.columns, &self.log, &self.known, column, row);
        has_cell(&self.columns, &self.log, &self.known, column, row, told)
    }

    /// Whether the last coefficient of the column of a number is in the row of a number. This reads only the column.
    #[inline(always)]
    pub fn is_last_row(&self, column: usize, row: u32) -> bool
        ensures { IsTrue result → is_some (find nat_cmp row (cells_in_column self.now column)) ≡ true }
    {
        is_last_row(&self.columns, &self.log, &self.known, column, row)
    }

    /// Adds a column of which only the name is declared, if no column has this name. Returns whether the column of this name is new, and
    /// its number. The name is looked up only once.
    ///
    /// # Errors
    ///
    /// [`AllocError`] if the allocation fails. Then nothing changes, and the name is dropped.
    pub fn insert(&mut self, name: Name) -> Result<Inserted, AllocError>
        ensures { Inserts self.old name result self.new }
    {
        let count = self.len();
        let stored = StoredColumn {
            last: 0,
            last_row: 0,
            definition: ColumnDefinition::new(),
        };
        let (number, old) = self.columns.insert_full(name, stored)?;
        let Some(old) = old else {
            return Ok(Inserted::New(count));
        };
        let (_name, stored) = self.columns.pair_mut(number);
        *stored = old;
        Ok(Inserted::There(number))
    }

    /// Puts a coefficient of the column of a number, if the last coefficients of the column and of the row tell that there is none of
    /// both, and nothing has to be allocated. Returns whether it was put, as most are. If not, nothing changes.
    #[inline(always)]
    fn put_at_once(&mut self, column: usize, row: u32, value: Decimal) -> bool
        requires { is_some (name_in self.old column) ≡ true }
        ensures { PutsAtOnce self.old column row value result self.new }
    {
        if !is_ready(&self.columns, &self.log, &self.known, column, row) {
            return false;
        }
        let last = last_of(&self.columns, column);
        let Some(place) = self.log.push_within_room(last, row, value) else {
            return false;
        };
        note_put(&mut self.columns, &mut self.known, column, row, last, place);
        true
    }

    /// Puts a coefficient of the column of a number, unless it has one in the row, in any case: it searches for it and allocates if it
    /// has to. Returns whether it was put.
    ///
    /// # Errors
    ///
    /// Those of [`put_if_free`](Self::put_if_free). Then nothing changes.
    #[inline(never)]
    fn put_any_if_free(
        &mut self,
        column: usize,
        row: u32,
        value: Decimal,
    ) -> Result<bool, AllocError>
        requires { is_some (name_in self.old column) ≡ true }
        ensures { PutsIfFree self.old column row value result self.new }
    {
        let told = ask(&self.columns, &self.log, &self.known, column, row);
        if has_cell(&self.columns, &self.log, &self.known, column, row, told) {
            return Ok(false);
        }
        if column >= MOST_COLUMNS {
            return Err(AllocError);
        }
        prepare(
            self.alloc,
            &self.columns,
            &self.log,
            &mut self.known,
            row,
            told,
        )?;
        put_known(&mut self.known, column as u32, row)?;
        let last = last_of(&self.columns, column);
        let place = match self.log.push(last, row, value) {
            Ok(place) => place,
            Err(error) => {
                forget_pairs(&mut self.known);
                return Err(error);
            }
        };
        note_put(&mut self.columns, &mut self.known, column, row, last, place);
        Ok(true)
    }

    /// Puts a coefficient of the column of a number, unless it has one in the row. Returns whether it was put. The column and the row
    /// are looked at only once.
    ///
    /// # Errors
    ///
    /// [`AllocError`] if the allocation fails, for a column of number 4,294,967,295 or more, or for as many coefficients: their
    /// places would not fit. Then nothing changes.
    #[inline(always)]
    pub fn put_if_free(
        &mut self,
        column: usize,
        row: u32,
        value: Decimal,
    ) -> Result<bool, AllocError>
        requires { is_some (name_in self.old column) ≡ true }
        ensures { PutsIfFree self.old column row value result self.new }
    {
        if self.put_at_once(column, row, value) {
            return Ok(true);
        }
        self.put_any_if_free(column, row, value)
    }

    /// Stores the given bounds of the column of a number.
    ///
    /// # Errors
    ///
    /// [`AllocError`] if there is no memory for its first bound. Then nothing changes.
    pub fn put_bounds(
        &mut self,
        column: usize,
        lower: Option<Limit>,
        upper: Option<Limit>,
    ) -> Result<(), AllocError>
        requires { is_some (name_in self.old column) ≡ true }
        ensures ok { OnOk result (IsChanged column (with_bounds lower upper) self.old self.new) }
        ensures err { OnErr result (self.new.entries ≡ self.old.entries) }
    {
        let alloc = self.alloc;
        let (_name, stored) = self.columns.pair_mut(column);
        stored.definition.sides.put(alloc, lower, upper)
    }

    /// Adds a property to what is declared of the column of a number.
    pub fn add_property(&mut self, column: usize, property: Property)
        requires { is_some (name_in self.old column) ≡ true }
        ensures { IsChanged column (with_property property) self.old self.new }
    {
        let (_name, stored) = self.columns.pair_mut(column);
        stored.definition.add(property);
    }

    /// The name of the column of a number, moved out without a copy.
    pub fn take_name(self, column: usize) -> Option<Name>
        ensures { result ≡ name_in self column }
    {
        let mut columns = self.columns;
        match columns.swap_remove_index(column) {
            Some((taken, _stored)) => Some(taken),
            None => None,
        }
    }

    /// The columns by name, for what goes over all of them. Their order is that of their numbers.
    pub fn stored(&self) -> &IndexMap<Name, StoredColumn, HashSeed>
        ensures { each_part definition_of_stored result.now.entries ≡ each_part definition_in self.now.entries }
    {
        &self.columns
    }

    /// The columns of a model with their names and the final row numbers, in the order of their numbers, and the coefficients of all
    /// of them.
    ///
    /// # Errors
    ///
    /// [`AllocError`] if an allocation fails.
    pub fn into_columns(
        self,
        ranks: &[u32],
    ) -> Result<(Vec<(Name, ColumnSpan)>, Vec<(u32, PackedDecimal)>), AllocError>
        requires within { All (λ column. All (λ cell. cell.0 < length ranks.now) column.1.cells) self.entries }
        requires apart { (n m : ℕ) → n < length ranks.now → m < length ranks.now → slice_index ranks.now n ≡ slice_index ranks.now m → n ≡ m }
        ensures bounds { IfOk result (λ made. each_part span_bounds made.0.items ≡ each_part bounds_of self.entries) }
        ensures cells { IfOk result (λ made. each_part (span_cells made.1.items) made.0.items ≡ each_part (moved_in ranks.now) self.entries) }
        ensures places { IfOk result (λ made. All (λ column. IsWithin (length made.1.items) column.1) made.0.items) }
    {
        let ColumnTable {
            alloc,
            columns,
            log,
            known,
        } = self;
        drop_known(known);
        columns_in(alloc, columns, log, ranks)
    }
}
