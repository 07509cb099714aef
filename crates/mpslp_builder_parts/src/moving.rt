//! Coefficients at new places, and with new row numbers.

ghost use Rattle.std.specs.Prelude.{◌≡◌, ◌≢◌, ◌<◌, ◌≤◌, ℕ, map, filter, take, drop, length, slice_index, slice_index_or, slice_range};
ghost use Rattle.std.specs.List.{All};
ghost use Rattle.std.specs.List.Sorted.{IsPermutation, IsSortedByKey};
ghost use Rattle.std.specs.Ordering.{nat_cmp};
ghost use Rattle.mpslp_decimal.specs.Decimal.{Number};
ghost use Rattle.mpslp_model_core.specs.Numbered.{is_kept};
ghost use Rattle.mpslp_builder_parts.specs.Swapped.{AreSwapped};

use mpslp_decimal::{Decimal, PackedDecimal};
use std::mem::replace;

/// The least number of coefficients that are put into blocks first. Fewer fit into the cache of a processor.
const FEWEST: usize = 262_144;

/// The bits of a number below [`BLOCKS`].
const BLOCK_BITS: u32 = 8;

/// The largest number of blocks; at least half of them are used. One coefficient of each fits into the cache of a core.
const BLOCKS: usize = 256;

/// What is stored where a coefficient was taken out, until one is put there.
fn no_cell() -> (u32, PackedDecimal) {
    (0, PackedDecimal::of(Decimal::zero()))
}

/// Whether blocks save time: the coefficients are many, and not at their places already, as those of most MPS files are.
fn need_blocks(places: &[u32]) -> bool {
    if places.len() < FEWEST {
        return false;
    }
    for at in 0..places.len() {
        if places[at] as usize != at {
            return true;
        }
    }
    false
}

/// The coefficients and their places. If they are many, each is in the block of its place, so that later moves stay in the cache.
/// The contract allows any order.
fn in_blocks(
    cells: Vec<(u32, PackedDecimal)>,
    places: Vec<u32>,
) -> (Vec<(u32, PackedDecimal)>, Vec<u32>)
    requires len { length places.items ≡ length cells.items }
    requires within { (i : ℕ) → i < length places.items → slice_index places.items i < length places.items }
    requires apart { (i j : ℕ) → i < j → j < length places.items → slice_index places.items i ≢ slice_index places.items j }
    ensures { AreSwapped cells.items places.items 0 result.0.items result.1.items }
{
    let mut cells = cells;
    let mut places = places;
    if !need_blocks(&places) {
        return (cells, places);
    }
    let count = cells.len();
    let shift = (usize::BITS - count.leading_zeros()).saturating_sub(BLOCK_BITS);
    // The index after those coefficients at the start of each block that belong to it.
    let mut heads = [0usize; BLOCKS];
    for block in 0..BLOCKS {
        heads[block] = block << shift;
    }
    for block in 0..BLOCKS {
        let end = ((block + 1) << shift).min(count);
        for at in heads[block]..end {
            let mut place = places[at];
            let mut held = replace(&mut cells[at], no_cell());
            // Each step brings one coefficient into its block, so there are at most `count` steps in all.
            for _ in 0..count {
                // A block has as many coefficients as indices, so only `own == block` ends the loop. The other tests, and `min`, are
                // for the proof.
                let own = (place as usize >> shift).min(BLOCKS - 1);
                let head = heads[own];
                if own == block || head == at || head >= count {
                    break;
                }
                heads[own] = head + 1;
                held = replace(&mut cells[head], held);
                place = replace(&mut places[head], place);
            }
            cells[at] = held;
            places[at] = place;
        }
    }
    (cells, places)
}

/// The coefficients, each at its place. One is held and put at its place, then the one that was there, and so on: a second vector of
/// all would be the peak of memory.
pub(crate) fn at_places(
    cells: Vec<(u32, PackedDecimal)>,
    places: Vec<u32>,
) -> Vec<(u32, PackedDecimal)>
    requires len { length places.items ≡ length cells.items }
    requires within { (i : ℕ) → i < length places.items → slice_index places.items i < length places.items }
    requires apart { (i j : ℕ) → i < j → j < length places.items → slice_index places.items i ≢ slice_index places.items j }
    ensures len { length result.items ≡ length cells.items }
    ensures moved { (i : ℕ) (d : ℕ × Number) → i < length cells.items → slice_index_or result.items (slice_index places.items i) d ≡ slice_index_or cells.items i d }
{
    let (mut cells, mut places) = in_blocks(cells, places);
    for at in 0..cells.len() {
        let mut place = places[at];
        if place as usize != at {
            let mut held = replace(&mut cells[at], no_cell());
            while place as usize != at {
                let to = place as usize;
                held = replace(&mut cells[to], held);
                place = replace(&mut places[to], place);
            }
            cells[at] = held;
            places[at] = place;
        }
    }
    cells
}

/// The coefficients, those between two indices that are not 0 before those that are, and the index after the former.
pub(crate) fn nonzero_first(
    cells: Vec<(u32, PackedDecimal)>,
    start: usize,
    end: usize,
) -> (Vec<(u32, PackedDecimal)>, usize)
    requires { start ≤ end × end ≤ length cells.items }
    ensures before { take start result.0.items ≡ take start cells.items }
    ensures after { drop end result.0.items ≡ drop end cells.items }
    ensures len { length result.0.items ≡ length cells.items }
    ensures within { start ≤ result.1 × result.1 ≤ end }
    ensures kept { slice_range result.0.items start result.1 ≡ filter is_kept (slice_range cells.items start end) }
{
    let mut cells = cells;
    let mut kept = start;
    for at in start..end {
        if !cells[at].1.value().is_zero() {
            cells.swap(kept, at);
            kept += 1;
        }
    }
    (cells, kept)
}

/// The coefficients with the final numbers of their rows.
pub(crate) fn renumbered(
    cells: Vec<(u32, PackedDecimal)>,
    ranks: &[u32],
) -> Vec<(u32, PackedDecimal)>
    requires { All (λ cell. cell.0 < length ranks.now) cells.items }
    ensures { result.items ≡ map (λ cell. (slice_index ranks.now cell.0, cell.1)) cells.items }
{
    let mut cells = cells;
    for cell in cells.iter_mut() {
        cell.0 = ranks[cell.0 as usize];
    }
    cells
}

/// The coefficients, those between two indices in the order of their row numbers.
pub(crate) fn in_order_between(
    cells: Vec<(u32, PackedDecimal)>,
    start: usize,
    end: usize,
) -> Vec<(u32, PackedDecimal)>
    requires { start ≤ end × end ≤ length cells.items }
    ensures before { take start result.items ≡ take start cells.items }
    ensures after { drop end result.items ≡ drop end cells.items }
    ensures len { length result.items ≡ length cells.items }
    ensures permutation { IsPermutation (slice_range cells.items start end) (slice_range result.items start end) }
    ensures sorted { IsSortedByKey (λ cell. cell.0) nat_cmp (slice_range result.items start end) }
{
    let mut cells = cells;
    cells[start..end].sort_unstable_by_key(|cell| cell.0);
    cells
}
