//! The iterator over the coefficients of a row.

ghost use Rattle.std.specs.Prelude.{◌≡◌, ◌<◌, IfSome, Some, length};
ghost use Rattle.std.specs.Iterator.{YieldsFirst, UpTo, at_most, item_count};
ghost use Rattle.std.specs.Iterator.SizeHint.{IsWithinCount};
ghost use Rattle.mpslp_model_core.specs.Views.{num_rows, row_elements, row_name};

use crate::model::Model;
use mpslp_decimal::Decimal;
use std::iter::FusedIterator;
use std::marker;

/// The nonzero coefficients of a row in the order of columns, each as the number of its column and its value. Contracts see it as
/// the list of those that are left. [`Model::row_entries`] makes it. Each takes constant time if the model has lists by rows,
/// which [`Model::with_row_lists`] makes, and else a search in all columns.
#[derive(Drop)]
pub struct RowEntries<'a> {
    model: &'a Model,
    row: usize,
    /// How many of them have been returned.
    next: usize,
    /// How many there are.
    count: usize,
}

impl<'a> marker::Model for RowEntries<'a> {
    ghost use Rattle.std.specs.Prelude.{ℕ, List, drop};
    ghost use Rattle.mpslp_decimal.specs.Decimal.{Number};
    ghost use Rattle.mpslp_model_core.specs.Iterators.{AreCounted};
    ghost use Rattle.mpslp_model_core.specs.Views.{row_elements, row_name};

    ghost Value = { List (ℕ × Number) };

    ghost view = { λ entries. drop entries.next (row_elements entries.model.now (row_name entries.model.now entries.row)) };

    ghost invariant = { λ entries. AreCounted entries.model.now entries.row entries.next entries.count };
}

impl<'a> RowEntries<'a> {
    /// The coefficients of the row of number `i`.
    pub(crate) fn of(model: &'a Model, i: usize) -> RowEntries<'a>
        requires { i < num_rows model.now }
        ensures { result ≡ row_elements model.now (row_name model.now i) }
    {
        RowEntries {
            model,
            row: i,
            next: 0,
            count: model.row_len(i),
        }
    }
}

impl<'a> Iterator for RowEntries<'a> {
    type Item = (usize, Decimal);

    ghost next_gives = { YieldsFirst (λ entries. entries) };

    ghost remaining = { item_count (λ entries. entries) };

    fn next(&mut self) -> Option<(usize, Decimal)> {
        if self.next == self.count {
            return None;
        }
        let entry = self.model.row_entry(self.row, self.next);
        self.next += 1;
        Some(entry)
    }

    fn size_hint(&self) -> (usize, Option<usize>)
        ensures lower { IsWithinCount result.0 (at_most (length self.now)) }
        ensures upper { IfSome result.1 (UpTo (at_most (length self.now))) }
        ensures exact { result ≡ (length self.now, Some (length self.now)) }
    {
        let entries = self.len();
        (entries, Some(entries))
    }
}

impl<'a> ExactSizeIterator for RowEntries<'a> {
    fn len(&self) -> usize {
        self.count - self.next
    }
}

impl<'a> FusedIterator for RowEntries<'a> {}
