//! The builder of a reader, with calls that are cheaper than those of [`Builder`], and of which some leave a part of their declarations after an error.

ghost use Rattle.std.specs.Prelude.{◌≡◌, ◌≢◌, [], Ok, OnErr, false, true};
ghost use Rattle.std.specs.List.{flat_map};
ghost use Rattle.mpslp_builder.specs.Declaration.{has_column};
ghost use Rattle.mpslp_builder.specs.Refusal.{refusals_in_turn};
ghost use Rattle.mpslp_builder.specs.ColumnLine.{line_declared, IsRefusedLine, TakesLine};
ghost use Rattle.mpslp_builder.specs.RowTerms.{term_declared, DeclaresInTurn};
ghost use Rattle.mpslp_builder.specs.Stopped.{HasFirstPart, IsStopped};

use crate::builder::Builder;
use crate::entries::Entries;
use crate::row_terms::RowTerms;
use mpslp_builder_parts::Inserted;
use mpslp_decimal::Decimal;
use mpslp_types::{BuildFault, Name};

/// A [`Builder`] that a reader fills. Each of its calls does what several calls of the builder do, and looks each row up only once:
/// [`next_line`](Self::next_line) and [`first_line`](Self::first_line) for a line of COLUMNS, which look the column up only once too,
/// [`row_term`](Self::row_term) and [`row_terms`](Self::row_terms) for the terms of a row of LP.
///
/// After an error of such a call the draft has a first part of its declarations and is otherwise unchanged. A reader drops the draft
/// then: it returns `Failed` from then on. So `mpslp_model`, which passes [`Builder`] on to users, does not re-export this type.
#[derive(Drop)]
pub struct ReaderBuilder {
    /// What has been declared. It takes all other declarations.
    pub draft: Builder,
}

impl ReaderBuilder {
    /// Declares one or two coefficients of a column that is declared already, and that it is marked if it is in an integer block
    /// of an MPS file. It does what [`marked`](crate::Builder::marked) and [`coefficient`](crate::Builder::coefficient) do, and
    /// looks each name up only once.
    ///
    /// Returns `false`, and changes nothing, if the column is not declared or one of these calls, made in turn, would be
    /// rejected, and for no other reason. Those calls return the error.
    ///
    /// # Errors
    ///
    /// Only `OutOfMemory`. Then a first part of these declarations is made.
    pub fn next_line(
        &mut self,
        column: &[u8],
        is_marked: bool,
        entries: &Entries<'_>,
    ) -> Result<bool, BuildFault>
        ensures taken { TakesLine self.old.draft (line_declared is_marked column.now entries.now) result self.new.draft }
        ensures stopped { OnErr result (HasFirstPart self.old.draft (line_declared is_marked column.now entries.now) self.new.draft) }
        ensures there { result ≡ Ok true → has_column self.old.draft column.now ≡ true }
        ensures refused { result ≡ Ok false → has_column self.old.draft column.now ≡ true → IsRefusedLine self.old.draft is_marked column.now entries.now }
    {
        let draft = &mut self.draft;
        let Some(place) = draft.tables.next_place(column, is_marked, entries) else {
            return Ok(false);
        };
        draft
            .tables
            .put_line(place.column, is_marked, place.rows, entries)?;
        Ok(true)
    }

    /// Declares a new column with one or two coefficients, and that it is marked if it is in an integer block of an MPS file. It
    /// does what [`column`](crate::Builder::column), [`marked`](crate::Builder::marked) and
    /// [`coefficient`](crate::Builder::coefficient) do, and looks each row up only once.
    ///
    /// Returns `false`, and changes nothing, if the column is declared already or one of these calls, made in turn, would be
    /// rejected, and for no other reason. Those calls return the error. The name is then dropped.
    ///
    /// # Errors
    ///
    /// Only `OutOfMemory`. Then a first part of these declarations is made.
    pub fn first_line(
        &mut self,
        name: Name,
        is_marked: bool,
        entries: &Entries<'_>,
    ) -> Result<bool, BuildFault>
        ensures taken { TakesLine self.old.draft (line_declared is_marked name entries.now) result self.new.draft }
        ensures stopped { OnErr result (HasFirstPart self.old.draft (line_declared is_marked name entries.now) self.new.draft) }
        ensures absent { result ≡ Ok true → has_column self.old.draft name ≡ false }
        ensures refused { result ≡ Ok false → has_column self.old.draft name ≡ false → IsRefusedLine self.old.draft is_marked name entries.now }
    {
        let draft = &mut self.draft;
        let Some(rows) = draft.tables.row_numbers(entries) else {
            return Ok(false);
        };
        let inserted = draft.tables.start_column(name)?;
        match inserted {
            Inserted::New(column) => {
                draft.tables.put_line(column, is_marked, rows, entries)?;
                Ok(true)
            }
            Inserted::There(_column) => Ok(false),
        }
    }

    /// Declares a column, and its coefficient of a row or of the objective. It does what [`column`](crate::Builder::column) and
    /// [`coefficient`](crate::Builder::coefficient) do, and looks the row up only once. If the column is declared already, the name is
    /// dropped.
    ///
    /// # Errors
    ///
    /// The first error of these calls: `UnknownRow`, `DuplicateEntry` or `OutOfMemory`. After `UnknownRow` nothing is declared, after
    /// `DuplicateEntry` the column is, and after `OutOfMemory` it may be.
    pub fn row_term(&mut self, row: &[u8], column: Name, value: Decimal) -> Result<(), BuildFault>
        ensures declared { DeclaresInTurn self.old.draft (term_declared row.now (column, value)) result self.new.draft }
        ensures stopped { IsStopped self.old.draft (term_declared row.now (column, value)) result self.new.draft }
        ensures rows { self.new.draft.rows ≡ self.old.draft.rows }
    {
        let draft = &mut self.draft;
        let Some(number) = draft.tables.row_number(row) else {
            return Err(BuildFault::UnknownRow);
        };
        let guess = draft.tables.recent.saturating_add(1);
        draft.tables.declare_own_term(number, column, guess, value)
    }

    /// Declares the terms of a row in order: each column, and its coefficient. It does what
    /// [`column`](crate::Builder::column) and [`coefficient`](crate::Builder::coefficient) do, and looks the row up only once.
    ///
    /// # Errors
    ///
    /// The first error of these calls, in order: `UnknownRow`, `DuplicateEntry` or `OutOfMemory`. After `UnknownRow` nothing is
    /// declared, after `DuplicateEntry` the declarations before the one with the error are made, and after `OutOfMemory` a first part of
    /// the declarations.
    pub fn row_terms(&mut self, row: &[u8], terms: &RowTerms) -> Result<(), BuildFault>
        ensures declared { DeclaresInTurn self.old.draft (flat_map (term_declared row.now) terms.now) result self.new.draft }
        ensures stopped { IsStopped self.old.draft (flat_map (term_declared row.now) terms.now) result self.new.draft }
        ensures rows { self.new.draft.rows ≡ self.old.draft.rows }
    {
        if terms.is_empty() {
            return Ok(());
        }
        let draft = &mut self.draft;
        match draft.tables.row_number(row) {
            Some(number) => draft.tables.declare_terms(draft.alloc, number, terms),
            None => Err(BuildFault::UnknownRow),
        }
    }
}
