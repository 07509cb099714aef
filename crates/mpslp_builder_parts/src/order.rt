//! Entries in the byte order of their names.
//!
//! Most files declare names in byte order, or in few runs that are: numbers at the end of names are in byte order as far as they have
//! the same number of digits. So the sort is one that merges runs.

ghost use Rattle.std.specs.Prelude.{◌≡◌, ◌≢◌, ◌<◌, ◌≤◌, ◌+◌, ◌*◌, ◌^◌, ℕ, IsTrue, IfOk, drop, length, map, slice_index};
ghost use Rattle.std.specs.List.{range_with_len};
ghost use Rattle.std.specs.List.Sorted.{IsPermutation, IsSortedBy, IsSortedByKey};
ghost use Rattle.std.specs.Ordering.{is_lt};
ghost use Rattle.mpslp_types.specs.Name.{bytes_cmp};
ghost use Rattle.mpslp_builder_parts.specs.Ordered.{BeginAlike, name_at, front_value, front_at, front_cmp, entries_at};

use mpslp_types::Name;
use std::alloc::{AllocError, Global};
use std::cmp::Ordering;

/// How many bytes of a name are compared as one number: those after the bytes that all names share. So few names are compared
/// as a whole.
const FRONT: usize = 8;

/// The maximum number of entries: their numbers have 32 bits.
const MOST_ENTRIES: usize = 4_294_967_296;

/// The number of an entry, with bytes of its name as one number. Names are compared only if these are equal.
#[derive(Clone, Copy, Drop)]
struct Front {
    bytes: u64,
    number: u32,
}

const _: () = prove!(size_of::<Front>() == 16);

/// The first bytes of a name, with 0 for each byte after its end.
fn first_bytes(name: &[u8]) -> [u8; FRONT]
    ensures { (i : ℕ) → i < 8 → slice_index result i ≡ slice_index name.now i }
{
    let len = name.len().min(FRONT);
    let mut bytes = [0u8; FRONT];
    bytes[..len].copy_from_slice(&name[..len]);
    bytes
}

/// The first bytes of a name as one number.
fn front_value(name: &[u8]) -> u64
    ensures value { result ≡ front_value 8 name.now }
    ensures bytes { (i : ℕ) → slice_index name.now i < 256 }
{
    u64::from_be_bytes(first_bytes(name))
}

/// The name of the entry of this number.
fn name_at<V>(entries: &[(Name, V)], number: usize) -> &[u8]
    ensures { result.now ≡ name_at entries.now number }
{
    match entries.get(number) {
        Some(entry) => entry.0.as_bytes(),
        None => &[],
    }
}

/// The order of the names of two entries.
fn compare<V>(entries: &[(Name, V)], a: &Front, b: &Front) -> Ordering
    ensures { result ≡ front_cmp entries.now a.now b.now }
{
    match a.bytes.cmp(&b.bytes) {
        Ordering::Equal => name_at(entries, a.number as usize).cmp(name_at(
            entries,
            b.number as usize,
        )),
        decided => decided,
    }
}

/// The name without so many bytes at its start.
fn bytes_after(name: &[u8], start: usize) -> &[u8]
    requires { start ≤ length name.now }
    ensures { result.now ≡ drop start name.now }
{
    &name[start..]
}

/// With how many bytes two names begin alike, at most so many.
fn alike_len(first: &[u8], name: &[u8], most: usize) -> usize
    requires { most ≤ length first.now }
    ensures most { result ≤ most }
    ensures alike { BeginAlike result first.now name.now }
{
    let most = most.min(name.len());
    for len in 0..most {
        if first[len] != name[len] {
            return len;
        }
    }
    most
}

/// With how many bytes the names of all entries begin alike.
fn shared_len<V>(entries: &[(Name, V)]) -> usize
    ensures { (n : ℕ) → n < length entries.now → BeginAlike result (name_at entries.now 0) (name_at entries.now n) }
{
    let first = name_at(entries, 0);
    let mut shared = first.len();
    for number in 0..entries.len() {
        shared = alike_len(first, name_at(entries, number), shared);
    }
    shared
}

/// The numbers of all entries with the bytes of their names after those that all share, in the order of the entries.
fn fronts_of<V>(
    alloc: Global,
    entries: &[(Name, V)],
    shared: usize,
) -> Result<Vec<Front>, AllocError>
    requires { (n : ℕ) → n < length entries.now → BeginAlike shared (name_at entries.now 0) (name_at entries.now n) }
    ensures fronts { IfOk result (λ fronts. fronts.items ≡ map (front_at entries.now shared) (range_with_len 0 (length entries.now))) }
    ensures bytes { IfOk result (λ _. (n i : ℕ) → n < length entries.now → slice_index (drop shared (name_at entries.now n)) i < 256) }
{
    if entries.len() > MOST_ENTRIES {
        return Err(AllocError);
    }
    let mut fronts = Vec::with_capacity(alloc, entries.len())?;
    for number in 0..entries.len() {
        let name = name_at(entries, number);
        let bytes = front_value(bytes_after(name, shared));
        fronts.push(Front {
            bytes,
            number: number as u32,
        })?;
    }
    Ok(fronts)
}

/// Sorts the keys, so that the names are in byte order. Runs that are in this order are merged.
fn sort_fronts<V>(fronts: Vec<Front>, entries: &[(Name, V)]) -> Result<Vec<Front>, AllocError>
    ensures permutation { IfOk result (λ sorted. IsPermutation fronts.items sorted.items) }
    ensures sorted { IfOk result (λ sorted. IsSortedBy (λ a b. is_lt (front_cmp entries.now a b)) sorted.items) }
{
    let mut fronts = fronts;
    fronts.sort_by(|a, b| compare(entries, a, b))?;
    Ok(fronts)
}

/// The numbers, without the first bytes of the names.
fn numbers_of(alloc: Global, fronts: &[Front]) -> Result<Vec<usize>, AllocError>
    ensures { IfOk result (λ numbers. numbers.items ≡ map (λ front. front.number) fronts.now) }
{
    fronts
        .iter()
        .map(|front| front.number as usize)
        .collect(alloc)
}

/// Returns the numbers of the entries in byte order of their names.
///
/// Each name becomes a small key, the first 8 bytes after those that all names share, as one number; names are compared only if
/// these are equal. The order of entries with the same name is unspecified.
///
/// # Errors
///
/// [`AllocError`] if there is no memory for the keys, for sorting them or for the numbers, or if there are more than 4,294,967,296
/// entries.
pub fn order_of<V>(alloc: Global, entries: &[(Name, V)]) -> Result<Vec<usize>, AllocError>
    ensures permutation { IfOk result (λ order. IsPermutation (range_with_len 0 (length entries.now)) order.items) }
    ensures sorted { IfOk result (λ order. IsSortedByKey (name_at entries.now) bytes_cmp order.items) }
{
    let shared = shared_len(entries);
    let fronts = sort_fronts(fronts_of(alloc, entries, shared)?, entries)?;
    numbers_of(alloc, &fronts)
}

/// Whether the names of the entries are in byte order.
pub(crate) fn is_in_order<V>(entries: &[(Name, V)]) -> bool
    ensures { IsTrue result → IsSortedByKey (name_at entries.now) bytes_cmp (range_with_len 0 (length entries.now)) }
{
    for number in 1..entries.len() {
        if name_at(entries, number)
            .cmp(name_at(entries, number - 1))
            .is_lt()
        {
            return false;
        }
    }
    true
}

/// The numbers from 0 on.
pub(crate) fn numbers_below(alloc: Global, count: usize) -> Result<Vec<usize>, AllocError>
    ensures { IfOk result (λ numbers. numbers.items ≡ range_with_len 0 count) }
{
    (0..count).collect(alloc)
}

/// Returns the items of these numbers, in this order; the others are dropped. No item is copied, and each number may occur at
/// most once.
///
/// Items are swapped in place, because a second vector of all items would be the peak of memory.
///
/// # Errors
///
/// [`AllocError`] if there is no memory for two numbers for each item. The items are then dropped.
pub(crate) fn in_order<T: Drop>(
    alloc: Global,
    items: Vec<T>,
    order: &[usize],
) -> Result<Vec<T>, AllocError>
    requires within { (p : ℕ) → p < length order.now → slice_index order.now p < length items.items }
    requires apart { (p q : ℕ) → p < q → q < length order.now → slice_index order.now p ≢ slice_index order.now q }
    ensures { IfOk result (λ ordered. ordered.items ≡ entries_at items.items order.now) }
{
    let mut items = items;
    // The number of the item at each place, and the place of the item of each number.
    let mut numbers = numbers_below(alloc, items.len())?;
    let mut places = numbers_below(alloc, items.len())?;
    for place in 0..order.len() {
        let from = places[order[place]];
        let moved = numbers[place];
        items.swap(place, from);
        numbers[from] = moved;
        places[moved] = from;
    }
    items.truncate(order.len());
    Ok(items)
}
