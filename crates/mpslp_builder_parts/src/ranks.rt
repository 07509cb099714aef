//! The final numbers of rows.

ghost use Rattle.std.specs.Prelude.{◌≡◌, ◌≢◌, ◌<◌, ◌+◌, ℕ, IfOk, length, slice_index};

use std::alloc::{AllocError, Global};

/// Returns the final number of each row by its earlier number, from the indices of the rows in byte order of their names. The
/// number of a row is its index plus 1, because the objective always has the number 0.
///
/// # Errors
///
/// [`AllocError`] if there is no memory for the numbers.
pub fn ranks_of(alloc: Global, order: &[usize]) -> Result<Vec<u32>, AllocError>
    requires few { length order.now < 4294967295 }
    requires within { (p : ℕ) → p < length order.now → slice_index order.now p < length order.now }
    requires apart { (p q : ℕ) → p < q → q < length order.now → slice_index order.now p ≢ slice_index order.now q }
    ensures objective { IfOk result (λ ranks. slice_index ranks.items 0 ≡ 0) }
    ensures ranks { IfOk result (λ ranks. (p : ℕ) → p < length order.now → slice_index ranks.items (slice_index order.now p + 1) ≡ p + 1) }
    ensures len { IfOk result (λ ranks. length ranks.items ≡ length order.now + 1) }
{
    let count = order.len();
    let mut ranks = vec![in alloc; 0u32; count + 1]?;
    for place in 0..count {
        ranks[order[place] + 1] = place as u32 + 1;
    }
    Ok(ranks)
}
