//! The names of all rows in one text.
//!
//! A writer of columns reads the name of a row for each coefficient. In one text these reads miss the cache less often than in
//! the entries of the rows, each of which refers to a name elsewhere.

ghost use Rattle.std.specs.Prelude.{◌≡◌, ◌≤◌, ◌<◌, IfOk, length, min, suc, slice_index, sum_by};
ghost use Rattle.mpslp_model_core.specs.RowNames.{name_in, AreNames};

use crate::joined::part_at;
use crate::model_row::ModelRow;
use mpslp_types::Name;
use std::alloc::{AllocError, Global};

/// The names of all rows, one after another.
#[derive(Debug, Drop)]
pub(crate) struct RowNames {
    /// Where each name starts in `text`, and where the last one ends.
    starts: Vec<usize>,
    /// The bytes of all names.
    text: Vec<u8>,
}

/// How many bytes all names have, or the maximum if that does not fit.
fn count_bytes(rows: &[(Name, ModelRow)]) -> usize
    ensures { result ≡ min usize.MAX (sum_by (λ row. length row.0) rows.now) }
{
    let mut count = 0usize;
    for row in rows {
        count = count.saturating_add(row.0.as_bytes().len());
    }
    count
}

/// The names of the rows in one text.
///
/// # Errors
///
/// [`AllocError`] if there is no memory for the text.
pub(crate) fn names_of(alloc: Global, rows: &[(Name, ModelRow)]) -> Result<RowNames, AllocError>
    ensures { IfOk result (λ names. AreNames rows.now names) }
{
    let mut text = Vec::with_capacity(alloc, count_bytes(rows))?;
    let mut starts = Vec::with_capacity(alloc, rows.len().saturating_add(1))?;
    starts.push(0)?;
    for row in rows {
        text.extend_from_slice(row.0.as_bytes())?;
        starts.push(text.len())?;
    }
    Ok(RowNames { starts, text })
}

/// The name of the row of number `i`.
pub(crate) fn name_at(names: &RowNames, i: usize) -> &[u8]
    requires row { suc i < length names.now.starts.items }
    requires order { slice_index names.now.starts.items i ≤ slice_index names.now.starts.items (suc i) }
    requires room { slice_index names.now.starts.items (suc i) ≤ length names.now.text.items }
    ensures { result.now ≡ name_in names.now i }
{
    part_at(&names.text, &names.starts, i)
}
