//! Which rows and columns are declared, and their numbers: look-ups by name.

ghost use Rattle.std.specs.Prelude.{◌≡◌, IsTrue, IfSome, Some, None, suc, is_some};
ghost use Rattle.mpslp_types.specs.Name.{same_bytes};
ghost use Rattle.mpslp_builder.specs.Declaration.{has_row, has_column, has_name, is_objective, is_free_row};
ghost use Rattle.mpslp_builder.specs.Tables.{draft, IsNumbered};
ghost use Rattle.mpslp_builder.specs.Calls.{row_key_of, row_name, column_name, IsSameTables};

use crate::tables::{RowRef, Tables};
use mpslp_types::NameBytes;

/// Whether two names are the same. Their last bytes are compared first, because most names that differ have other ones.
pub(crate) fn is_same_name(name: &[u8], other: &[u8]) -> bool
    ensures { result ≡ same_bytes name.now other.now }
{
    match (name, other) {
        ([.., last], [.., other_last]) if last != other_last => false,
        _ => name == other,
    }
}

/// Whether two names are the same, where most that are asked for are. Those of 8 to 16 bytes are compared in two parts, which overlap.
#[inline(always)]
fn have_same_bytes(name: &[u8], other: &[u8]) -> bool
    ensures { result ≡ same_bytes name.now other.now }
{
    if name.len() != other.len() {
        return false;
    }
    if name.len() > 16 {
        return name == other;
    }
    let Some(end) = name.last_chunk::<8>() else {
        return name == other;
    };
    let Some(other_end) = other.last_chunk::<8>() else {
        return name == other;
    };
    if *end != *other_end {
        return false;
    }
    let Some(start) = name.first_chunk::<8>() else {
        return name == other;
    };
    let Some(other_start) = other.first_chunk::<8>() else {
        return name == other;
    };
    *start == *other_start
}

impl Tables {
    /// Whether the objective has been named.
    pub(crate) fn has_objective(&self) -> bool
        ensures { result ≡ is_some self.now.objective }
    {
        self.objective.is_some()
    }

    /// Whether the objective has this name.
    pub(crate) fn is_objective(&self, name: &[u8]) -> bool
        ensures { result ≡ is_objective (draft None None self.now) name.now }
    {
        match &self.objective {
            Some(objective) => name == objective.name.as_bytes(),
            None => false,
        }
    }

    /// Whether a row has this name; the objective does not count.
    fn is_row(&self, name: &[u8]) -> bool
        ensures { result ≡ has_name (draft None None self.now).rows name.now }
    {
        self.rows.contains_key(NameBytes { bytes: name })
    }

    /// Whether a row, or the objective, has this name. It is looked up by its hash at once, because most names that are asked for
    /// here are new.
    pub(crate) fn has_row(&self, name: &[u8]) -> bool
        ensures { result ≡ has_row (draft None None self.now) name.now }
    {
        self.is_objective(name) || self.is_row(name)
    }

    /// Whether a row of this name is declared with type N. The objective does not count.
    pub(crate) fn is_free_row(&self, name: &[u8]) -> bool
        ensures { result ≡ is_free_row (draft None None self.now) name.now }
    {
        match self.rows.get(NameBytes { bytes: name }) {
            Some(row) => row.is_free(),
            None => false,
        }
    }

    /// Whether a column has this name.
    pub(crate) fn has_column(&self, name: &[u8]) -> bool
        ensures { result ≡ has_column (draft None None self.now) name.now }
    {
        self.column_number(name).is_some()
    }

    /// Whether the row at an index has this name.
    fn is_row_at(&self, index: usize, name: &[u8]) -> bool
        ensures { IsTrue result → row_name self.now (suc index) ≡ Some name.now }
    {
        match self.rows.get_index(index) {
            Some((key, _row)) => is_same_name(key.as_bytes(), name),
            None => false,
        }
    }

    /// The row of this name, or the objective. The row that was used last and the one after it are compared first, which saves a
    /// look-up if rows are used in the order of their declarations.
    pub(crate) fn row_ref(&self, name: &[u8]) -> Option<RowRef>
        ensures place { IfSome result (λ place. row_name self.now (row_key_of place) ≡ Some name.now) }
        ensures found { is_some result ≡ has_row (draft None None self.now) name.now }
    {
        if self.is_objective(name) {
            return Some(RowRef::Objective);
        }
        if self.is_row_at(self.recent_row, name) {
            return Some(RowRef::Row(self.recent_row));
        }
        let next = self.recent_row.saturating_add(1);
        if self.is_row_at(next, name) {
            return Some(RowRef::Row(next));
        }
        match self.rows.get_full(NameBytes { bytes: name }) {
            Some((index, _key, _row)) => Some(RowRef::Row(index)),
            None => None,
        }
    }

    /// The number of the row of this name, or of the objective.
    pub(crate) fn row_number(&self, row: &[u8]) -> Option<u32>
        requires { IsNumbered self.now }
        ensures number { IfSome result (λ number. row_name self.now number ≡ Some row.now) }
        ensures found { is_some result ≡ has_row (draft None None self.now) row.now }
    {
        match self.row_ref(row) {
            Some(place) => Some(place.number()),
            None => None,
        }
    }

    /// Whether the column of a number has this name.
    pub(crate) fn is_column(&self, column: usize, name: &[u8]) -> bool
        ensures { IsTrue result → column_name self.now column ≡ Some name.now }
    {
        match self.columns.name_at(column) {
            Some(own) => have_same_bytes(own.as_bytes(), name),
            None => false,
        }
    }

    /// The number of the column of this name. The column that was used last and the one after it are compared first, which
    /// saves a look-up if columns are used in the order of their declarations.
    pub(crate) fn column_number(&self, name: &[u8]) -> Option<usize>
        ensures number { IfSome result (λ i. column_name self.now i ≡ Some name.now) }
        ensures found { is_some result ≡ has_column (draft None None self.now) name.now }
    {
        if self.is_column(self.recent, name) {
            return Some(self.recent);
        }
        let next = self.recent.saturating_add(1);
        if self.is_column(next, name) {
            return Some(next);
        }
        self.column_by_hash(name)
    }

    /// The number of the column of this name, which is looked up by its hash.
    pub(crate) fn column_by_hash(&self, name: &[u8]) -> Option<usize>
        ensures number { IfSome result (λ i. column_name self.now i ≡ Some name.now) }
        ensures found { is_some result ≡ has_column (draft None None self.now) name.now }
    {
        self.columns.number_of(name)
    }

    /// Whether a column has this name. The column is then the one that was used last, so that the next look-up finds it at once.
    pub(crate) fn find_column(&mut self, name: &[u8]) -> bool
        ensures found { result ≡ has_column (draft None None self.old) name.now }
        ensures same { IsSameTables self.old self.new }
    {
        match self.column_number(name) {
            Some(number) => {
                self.recent = number;
                true
            }
            None => false,
        }
    }
}
