//! Which columns have a coefficient in each row, and where.
//!
//! A model stores its coefficients by columns. Queries by row use these lists, so they search in no column; where a model has no
//! lists, they search in all columns. All lists are in one vector: the coefficients of each row are counted first, so that the
//! start of its list is known before the first coefficient is stored.

ghost use Rattle.std.specs.Prelude.{◌≡◌, ◌≢◌, ◌≤◌, ◌<◌, ℕ, IfOk, IsTrue, OnOk, Some, length, suc, slice_get, slice_index, slice_index_or, sum, take};
ghost use Rattle.std.specs.List.{All, list_all};
ghost use Rattle.std.specs.Ordering.{nat_cmp};
ghost use Rattle.std.specs.FinMap.{is_sorted};
ghost use Rattle.mpslp_model_core.specs.ByRow.{list_at, HasList, HasCounted, AreWithin, AreCounts, AreByRow, columns_with};

use crate::columns::has_value_at;
use crate::joined::part_at;
use crate::model_columns::ModelColumns;
use std::alloc::{AllocError, Global};

/// The maximum number of columns: their numbers have 32 bits.
const MOST_COLUMNS: usize = 4_294_967_296;

/// Where a coefficient of a row is: the number of its column, and its index among the coefficients of that column.
#[derive(Clone, Copy, Debug)]
pub(crate) struct RowElement {
    pub(crate) column: u32,
    pub(crate) place: u32,
}

/// For each row where its coefficients are.
#[derive(Debug, Drop)]
pub(crate) struct RowLists {
    /// Where the list of each row starts in `elements`, and where the last one ends.
    starts: Vec<usize>,
    /// The lists, one row after another.
    elements: Vec<RowElement>,
}

const _: () = prove!(size_of::<RowElement>() == 8);

/// Counts a coefficient by its number. One of the objective is not counted.
fn count_cell(counts: &mut Vec<usize>, number: u32)
    requires row { number < length counts.old.items }
    requires room { slice_index counts.old.items number < usize.MAX }
    ensures len { length counts.new.items ≡ length counts.old.items }
    ensures objective { slice_index counts.new.items 0 ≡ slice_index counts.old.items 0 }
    ensures counted { HasCounted number counts.old.items counts.new.items }
{
    if number > 0 {
        counts[number as usize] += 1;
    }
}

/// The number of coefficients in each row, at the number by which they refer to it. The objective's number has 0.
fn counts_by_row(
    alloc: Global,
    rows: usize,
    columns: &ModelColumns,
) -> Result<Vec<usize>, AllocError>
    requires few { length columns.now ≤ 4294967296 }
    requires sorted { IsTrue (list_all (λ column. is_sorted nat_cmp column.1.cells) columns.now) }
    requires within { All (λ column. AreWithin rows column.1.cells) columns.now }
    ensures { IfOk result (λ counts. AreCounts columns.now rows counts.items) }
{
    let Some(len) = rows.checked_add(1) else {
        return Err(AllocError);
    };
    let mut counts = vec![in alloc; 0usize; len]?;
    for j in 0..columns.len() {
        for cell in columns.cells_at(j) {
            count_cell(&mut counts, cell.0);
        }
    }
    Ok(counts)
}

/// Replaces each count by the sum of those before it, and returns the sum of all.
///
/// # Errors
///
/// [`AllocError`] if the sum does not fit: so many numbers would not fit into memory.
fn starts_of(counts: &mut Vec<usize>) -> Result<usize, AllocError>
    ensures len { length counts.new.items ≡ length counts.old.items }
    ensures starts { OnOk result ((i : ℕ) → i < length counts.old.items → slice_index counts.new.items i ≡ sum (take i counts.old.items)) }
    ensures total { IfOk result (λ total. total ≡ sum counts.old.items) }
{
    let mut total = 0usize;
    for i in 0..counts.len() {
        let count = counts[i];
        counts[i] = total;
        total = match total.checked_add(count) {
            Some(sum) => sum,
            None => return Err(AllocError),
        };
    }
    Ok(total)
}

/// Stores where a coefficient is at the end of the list of its row, so far. The objective has no list.
///
/// `place` is its index in its column. Numbers ascend there, so it is at most `number`, and has 32 bits.
fn put_cell(
    ends: &mut Vec<usize>,
    list: &mut Vec<RowElement>,
    number: u32,
    column: u32,
    place: usize,
)
    requires row { number < length ends.old.items }
    requires room { 0 < number → slice_index ends.old.items number < length list.old.items }
    requires place { place ≤ number }
    ensures ends_len { length ends.new.items ≡ length ends.old.items }
    ensures list_len { length list.new.items ≡ length list.old.items }
    ensures objective { slice_index ends.new.items 0 ≡ slice_index ends.old.items 0 }
    ensures counted { HasCounted number ends.old.items ends.new.items }
    ensures put { 0 < number → (d : RowElement)
        → slice_index_or list.new.items (slice_index ends.old.items number) d ≡ record { column = column; place = place } }
    ensures kept { (p : ℕ) (d : RowElement) → (0 < number → p ≢ slice_index ends.old.items number)
        → slice_index_or list.new.items p d ≡ slice_index_or list.old.items p d }
{
    if number > 0 {
        let end = ends[number as usize];
        list[end] = RowElement {
            column,
            place: place as u32,
        };
        ends[number as usize] = end + 1;
    }
}

/// Returns where the coefficients of each row are, in the order of their columns.
///
/// # Errors
///
/// [`AllocError`] if there is no memory for the lists, or there are more than 4,294,967,296 columns: their numbers would not
/// fit.
pub(crate) fn elements_by_row(
    alloc: Global,
    rows: usize,
    columns: &ModelColumns,
) -> Result<RowLists, AllocError>
    requires sorted { IsTrue (list_all (λ column. is_sorted nat_cmp column.1.cells) columns.now) }
    requires within { All (λ column. AreWithin rows column.1.cells) columns.now }
    ensures { IfOk result (λ lists. AreByRow columns.now rows lists) }
{
    if columns.len() > MOST_COLUMNS {
        return Err(AllocError);
    }
    let mut starts = counts_by_row(alloc, rows, columns)?;
    let total = starts_of(&mut starts)?;
    let unset = RowElement {
        column: 0,
        place: 0,
    };
    let mut list = vec![in alloc; unset; total]?;
    // Number `n` is that of the row at index `n - 1`: its start becomes its end, which is the start of the row at index `n`.
    for number in 0..columns.len() {
        for (place, cell) in columns.cells_at(number).iter().enumerate() {
            put_cell(&mut starts, &mut list, cell.0, number as u32, place);
        }
    }
    Ok(RowLists {
        starts,
        elements: list,
    })
}

/// The list of the row of number `i`.
pub(crate) fn row_list(lists: &RowLists, i: usize) -> &[RowElement]
    requires { HasList lists.now i }
    ensures { result.now ≡ list_at lists.now i }
{
    part_at(&lists.elements, &lists.starts, i)
}

/// Element number `k` of the list of the row of number `i`.
pub(crate) fn element_at(lists: &RowLists, i: usize, k: usize) -> RowElement
    requires row { HasList lists.now i }
    requires element { k < length (list_at lists.now i) }
    ensures { slice_get (list_at lists.now i) k ≡ Some result }
{
    row_list(lists, i)[k]
}

/// How many columns have a coefficient in the row at this index. Searches in all columns.
pub(crate) fn count_columns_with(columns: &ModelColumns, row: usize) -> usize
    requires { IsTrue (list_all (λ column. is_sorted nat_cmp column.1.cells) columns.now) }
    ensures { result ≡ length (columns_with columns.now (suc row) (length columns.now)) }
{
    let mut count = 0;
    for j in 0..columns.len() {
        if has_value_at(columns.cells_at(j), row) {
            count += 1;
        }
    }
    count
}

/// The number of the column that is number `k` of those with a coefficient in the row at this index. Searches in all columns.
pub(crate) fn column_with(columns: &ModelColumns, row: usize, k: usize) -> usize
    requires sorted { IsTrue (list_all (λ column. is_sorted nat_cmp column.1.cells) columns.now) }
    requires element { k < length (columns_with columns.now (suc row) (length columns.now)) }
    ensures { slice_get (columns_with columns.now (suc row) (length columns.now)) k ≡ Some result }
{
    let mut left = k;
    for j in 0..columns.len() {
        if has_value_at(columns.cells_at(j), row) {
            if left == 0 {
                return j;
            }
            left -= 1;
        }
    }
    unreachable!()
}
