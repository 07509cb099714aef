//! The coefficients of a log, grouped by their columns.

ghost use Rattle.std.specs.Prelude.{IfOk, length};
ghost use Rattle.mpslp_builder_parts.specs.Grouping.{HaveNumbers, ArePlaced};
ghost use Rattle.mpslp_builder_parts.specs.StoredColumns.{last_of};

use crate::known_pairs::{Columns, last_of};
use std::alloc::{AllocError, Global};

/// Returns where each coefficient is once all are grouped by their columns, those of a column in the order in which they were put,
/// and where the group of each column ends.
///
/// `links` has beside each coefficient the place of the one before it in its column, as in the log. Only these are followed, so no
/// coefficient is read, and their vector becomes that of the places.
///
/// # Errors
///
/// [`AllocError`] if there is no memory for the ends, or if there are more than 4,294,967,295 coefficients: their places would not
/// fit.
pub(crate) fn places_of(
    alloc: Global,
    columns: &Columns,
    links: Vec<u32>,
) -> Result<(Vec<u32>, Vec<u32>), AllocError>
    requires { HaveNumbers links.items (last_of columns.now.entries) }
    ensures { IfOk result (λ placed. ArePlaced links.items (last_of columns.now.entries) (length columns.now.entries) placed.0.items placed.1.items) }
{
    let mut places = links;
    let mut next = places.len();
    if next > u32::MAX as usize {
        return Err(AllocError);
    }
    let mut column = columns.len();
    let mut ends = vec![in alloc; 0u32; column]?;
    while column > 0 {
        column -= 1;
        ends[column] = next as u32;
        let mut at = last_of(columns, column);
        while at > 0 {
            let index = at as usize - 1;
            at = places[index];
            next -= 1;
            places[index] = next as u32;
        }
    }
    Ok((places, ends))
}
