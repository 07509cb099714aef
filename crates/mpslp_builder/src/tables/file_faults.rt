//! Whole-file errors of a builder's declarations.
//!
//! Rows and columns are in the order of their declarations, and an error is reported for the first name in byte order that
//! has it. So the search keeps the least name so far, and allocates nothing.

ghost use Rattle.std.specs.Prelude.{◌≡◌, ◌<◌, Bool, [], length};
ghost use Rattle.std.specs.List.{list_any};
ghost use Rattle.std.specs.Option.{option_and_then, option_map, ForSome};
ghost use Rattle.mpslp_builder_parts.specs.Parts.{parts_with};
ghost use Rattle.mpslp_builder.specs.FileFault.{file_fault};
ghost use Rattle.mpslp_builder.specs.Tables.{draft, IsNumbered};
ghost use Rattle.mpslp_builder.specs.FaultFound.{row_fails, column_fails, is_wrong_row, is_wrong_column, is_below, least_name, entry_name, first_row_fault, first_column_fault, fault_found, IsThere};

use crate::tables::{NameMap, Tables};
use mpslp_builder_parts::{RowParts, StoredColumn};
use mpslp_model_core::{ColumnFault, RowFault, is_faulty_row, row_has};

/// What may have errors of the kinds `F`.
pub(crate) trait Faulty<F> {
    ghost fails: { F → Self → Bool };

    ghost is_wrong: { Self → Bool };

    /// Whether it has this error.
    fn has_fault(&self, fault: F) -> bool
        ensures { result ≡ fails fault self.now };

    /// Whether it has any of these errors.
    fn is_faulty(&self) -> bool
        ensures { result ≡ is_wrong self.now };
}

impl Faulty<RowFault> for RowParts {
    ghost fails = { row_fails };

    ghost is_wrong = { is_wrong_row };

    fn has_fault(&self, fault: RowFault) -> bool {
        row_has(
            fault,
            &self.definition(),
            self.rhs_or_zero(),
            &self.range_value(),
        )
    }

    fn is_faulty(&self) -> bool {
        is_faulty_row(&self.definition(), self.rhs_or_zero(), &self.range_value())
    }
}

impl Faulty<ColumnFault> for StoredColumn {
    ghost fails = { λ fault column. column_fails fault (parts_with [] column.definition) };

    ghost is_wrong = { λ column. is_wrong_column (parts_with [] column.definition) };

    fn has_fault(&self, fault: ColumnFault) -> bool {
        self.definition.declared().has_fault(fault)
    }

    fn is_faulty(&self) -> bool {
        self.definition.declared().is_faulty()
    }
}

/// Whether any entry has an error. Most files have none, and then one scan of the entries is enough.
fn has_faulty<F, V: Faulty<F>>(entries: &NameMap<V>) -> bool
    ensures { result ≡ list_any (λ e. V.is_wrong e.1) entries.now.entries }
{
    let mut index = entries.len();
    while index > 0 {
        index -= 1;
        if let Some((_name, parts)) = entries.get_index(index) {
            if parts.is_faulty() {
                return true;
            }
        }
    }
    false
}

/// Whether a name is below that of the entry at an index, or there is no such index.
fn is_below<V>(entries: &NameMap<V>, name: &[u8], least: Option<usize>) -> bool
    ensures { result ≡ is_below name.now (option_and_then (entry_name entries.now.entries) least) }
{
    match least {
        Some(index) => match entries.get_index(index) {
            Some((other, _parts)) => name.cmp(other.as_bytes()).is_lt(),
            None => true,
        },
        None => true,
    }
}

/// The index of the entry that has this error and the least name.
fn least_faulty<F: Copy, V: Faulty<F>>(entries: &NameMap<V>, fault: F) -> Option<usize>
    ensures name { option_and_then (entry_name entries.now.entries) result ≡ least_name (V.fails fault) entries.now.entries }
    ensures there { ForSome result (λ i. i < length entries.now.entries) }
{
    let mut least = None;
    let mut index = entries.len();
    while index > 0 {
        index -= 1;
        if let Some((name, parts)) = entries.get_index(index) {
            if parts.has_fault(fault) && is_below(entries, name.as_bytes(), least) {
                least = Some(index);
            }
        }
    }
    least
}

/// A whole-file error and its place.
#[derive(Clone, Copy)]
pub(crate) enum FoundFault {
    /// There is no column.
    NoColumns,
    /// The row at this index has this error, and no row of a lesser name has it.
    Row(RowFault, usize),
    /// The column at this index has this error, and no column of a lesser name has it.
    Column(ColumnFault, usize),
}

impl Tables {
    /// The first of these errors that a row has, with the row of the least name that has it.
    fn first_fault_of_rows(&self, faults: &[RowFault]) -> Option<FoundFault>
        requires { IsNumbered self.now }
        ensures fault { option_map (fault_found self.now) result ≡ first_row_fault (draft None None self.now) faults.now }
        ensures there { ForSome result (IsThere self.now) }
    {
        self.each_name_occurs_once();
        if !has_faulty(&self.rows) {
            return None;
        }
        for fault in faults {
            if let Some(at) = least_faulty(&self.rows, *fault) {
                return Some(FoundFault::Row(*fault, at));
            }
        }
        None
    }

    /// The first of these errors that a column has, with the column of the least name that has it.
    fn first_fault_of_columns(&self, faults: &[ColumnFault]) -> Option<FoundFault>
        ensures fault { option_map (fault_found self.now) result ≡ first_column_fault (draft None None self.now) faults.now }
        ensures there { ForSome result (IsThere self.now) }
    {
        self.each_name_occurs_once();
        if !has_faulty(self.columns.stored()) {
            return None;
        }
        for fault in faults {
            if let Some(at) = least_faulty(self.columns.stored(), *fault) {
                return Some(FoundFault::Column(*fault, at));
            }
        }
        None
    }

    /// The first whole-file error.
    pub(crate) fn first_fault(&self) -> Option<FoundFault>
        requires { IsNumbered self.now }
        ensures fault { option_map (fault_found self.now) result ≡ file_fault (draft None None self.now) }
        ensures there { ForSome result (IsThere self.now) }
    {
        if self.columns.is_empty() {
            return Some(FoundFault::NoColumns);
        }
        let of_rows = self.first_fault_of_rows(&[
            RowFault::InfiniteLimit,
            RowFault::RangeInexact,
            RowFault::LimitTooLarge,
            RowFault::LimitsCrossed,
        ]);
        if of_rows.is_some() {
            return of_rows;
        }
        self.first_fault_of_columns(&[
            ColumnFault::NegativeUpper,
            ColumnFault::BoundsCrossed,
            ColumnFault::BinaryBounds,
            ColumnFault::SemiBounds,
        ])
    }
}
