//! Maps, each stored as a vector of its entries in the order of their keys.

ghost use Rattle.std.specs.Prelude.{◌≡◌, ◌≤◌, ◌<◌, ◌-◌, ◌↔◌, [], None, IsOk, IsTrue, OnOk, OnErr, Some, length, is_some, true, position, slice_get, vec_len, vec_capacity};
ghost use Rattle.std.specs.Option.{option_copied, option_map_or};
ghost use Rattle.std.specs.Ordering.{is_eq, is_gt, is_le, nat_cmp};
ghost use Rattle.std.specs.Cmp.{IsTotalOrder, nat_cmp_total};
ghost use Rattle.std.specs.declared.cmp.Ordering.{Ordering};
ghost use Rattle.std.specs.List.{position_or_len};
ghost use Rattle.std.specs.FinMap.{find, put, is_sorted};

use std::alloc::{AllocError, Global};
use std::cmp::Ordering;
use std::marker::Model;

/// A key of a map. Keys have a total order.
pub trait Key {
    ghost cmp: { Self → Self → Ordering };

    /// The order of this key relative to another one.
    fn compare_keys(&self, other: &Self) -> Ordering
        ensures { result ≡ cmp self.now other.now };

    ghost total: { IsTotalOrder cmp };
}

/// What is looked up among keys: a key, or a value that is compared with keys and need not own one.
pub trait Query<K: Key> {
    ghost key: { Self → K };

    /// The order of the query relative to a key.
    fn compare(&self, other: &K) -> Ordering
        ensures { result ≡ K.cmp (key self.now) other.now };
}

impl<K: Key> Query<K> for K {
    ghost key = { λ key. key };

    fn compare(&self, other: &K) -> Ordering {
        self.compare_keys(other)
    }
}

impl Key for u32 {
    ghost cmp = { nat_cmp };

    ghost total = { nat_cmp_total };

    fn compare_keys(&self, other: &u32) -> Ordering {
        self.cmp(other)
    }
}

/// The entry at index `i`, which must be less than the number of entries.
pub fn entry_at<K, V>(entries: &[(K, V)], i: usize) -> &(K, V)
    requires { i < length entries.now }
    ensures { slice_get entries.now i ≡ Some result.now }
{
    &entries[i]
}

/// Whether the query is greater than the last key, or there are no entries.
fn ends_below<K: Key, V, Q: Query<K>>(entries: &[(K, V)], query: &Q) -> bool
    ensures { result ≡ option_map_or (λ last. is_gt (K.cmp (Q.key query.now) last.0)) (slice_get entries.now (length entries.now - 1)) true }
{
    match entries.last() {
        Some(last) => query.compare(&last.0).is_gt(),
        None => true,
    }
}

/// The index of the first entry whose key is not less than the query, or the number of entries. Keys often come in order, so
/// the last entry is compared first.
fn insertion_index<K: Key, V, Q: Query<K>>(entries: &[(K, V)], query: &Q) -> usize
    requires { IsTrue (is_sorted K.cmp entries.now) }
    ensures { result ≡ position_or_len (λ entry. is_le (K.cmp (Q.key query.now) entry.0)) entries.now }
{
    if ends_below(entries, query) {
        return entries.len();
    }
    entries.partition_point(|entry| query.compare(&entry.0).is_gt())
}

/// The index of the entry with a key, if there is one, found by binary search. The entries are in the order of their keys.
pub fn find_index<K: Key, V, Q: Query<K>>(entries: &[(K, V)], query: &Q) -> Option<usize>
    requires { IsTrue (is_sorted K.cmp entries.now) }
    ensures { result ≡ position (λ entry. is_eq (K.cmp (Q.key query.now) entry.0)) entries.now }
{
    let at = insertion_index(entries, query);
    if at < entries.len() {
        let entry = &entries[at];
        if query.compare(&entry.0).is_eq() {
            return Some(at);
        }
    }
    None
}

/// The value of a key, if there is one, found by binary search. The entries are in the order of their keys.
pub fn find_entry<'a, K: Key, V, Q: Query<K>>(entries: &'a [(K, V)], query: &Q) -> Option<&'a V>
    requires { IsTrue (is_sorted K.cmp entries.now) }
    ensures { option_copied result ≡ find K.cmp (Q.key query.now) entries.now }
{
    let at = insertion_index(entries, query);
    if at < entries.len() {
        let entry = &entries[at];
        if query.compare(&entry.0).is_eq() {
            return Some(&entry.1);
        }
    }
    None
}

/// Inserts an entry at the place of its key, which must be new. Allocates only if the vector is full.
fn put_entry<K: Key + Drop, V: Drop>(
    entries: &mut Vec<(K, V)>,
    key: K,
    value: V,
) -> Result<(), AllocError>
    requires sorted { IsTrue (is_sorted K.cmp entries.old.items) }
    requires absent { find K.cmp key entries.old.items ≡ None }
    ensures ok { OnOk result (entries.new.items ≡ put K.cmp key value entries.old.items) }
    ensures err { OnErr result (entries.new.items ≡ entries.old.items) }
    ensures sorted { IsTrue (is_sorted K.cmp entries.new.items) }
    ensures room { vec_len entries.old < vec_capacity entries.old → IsOk result }
{
    let at = insertion_index(entries, &key);
    entries.insert(at, (key, value))?;
    Ok(())
}

/// A map, stored as a vector of its entries in the order of their keys. Contracts see it as the list of its entries.
#[derive(Debug, Drop)]
pub struct SortedMap<K: Key, V> {
    entries: Vec<(K, V)>,
}

impl<K: Key, V> Model for SortedMap<K, V> {
    ghost use Rattle.std.specs.Prelude.{List, IsTrue};
    ghost use Rattle.std.specs.FinMap.{is_sorted};

    ghost Value = { List (K × V) };

    ghost view = { λ m. m.entries.items };

    ghost invariant = { λ m. IsTrue (is_sorted K.cmp m.entries.items) };
}

impl<K: Key, V> SortedMap<K, V> {
    /// A map without entries. Does not allocate.
    pub fn new(alloc: Global) -> SortedMap<K, V>
        ensures { result ≡ [] }
    {
        SortedMap {
            entries: Vec::new(alloc),
        }
    }

    /// The entries in the order of their keys.
    pub fn as_slice(&self) -> &[(K, V)]
        ensures { result.now ≡ self.now }
    {
        &self.entries
    }

    /// The entries in the order of their keys, moved out of the map.
    pub fn into_entries(self) -> Vec<(K, V)>
        ensures { result.items ≡ self }
    {
        self.entries
    }

    /// The number of entries.
    pub fn len(&self) -> usize
        ensures { result ≡ length self.now }
    {
        self.as_slice().len()
    }

    /// Whether the query is greater than the last key, or there are no entries.
    pub fn ends_below<Q: Query<K>>(&self, query: &Q) -> bool
        ensures { result ≡ option_map_or (λ last. is_gt (K.cmp (Q.key query.now) last.0)) (slice_get self.now (length self.now - 1)) true }
    {
        ends_below(self.as_slice(), query)
    }

    /// Whether there are no entries.
    pub fn is_empty(&self) -> bool
        ensures { IsTrue result ↔ self.now ≡ [] }
    {
        self.entries.is_empty()
    }

    /// The value of a key, if there is one.
    pub fn find<Q: Query<K>>(&self, query: &Q) -> Option<&V>
        ensures { option_copied result ≡ find K.cmp (Q.key query.now) self.now }
    {
        find_entry(&self.entries, query)
    }

    /// Whether there is an entry with this key.
    pub fn has<Q: Query<K>>(&self, query: &Q) -> bool
        ensures { result ≡ is_some (find K.cmp (Q.key query.now) self.now) }
    {
        self.find(query).is_some()
    }
}

impl<K: Key + Drop, V: Drop> SortedMap<K, V> {
    /// Reserves room for exactly this number of additional entries.
    ///
    /// # Errors
    ///
    /// [`AllocError`] if an allocation fails. The map is unchanged in any case.
    pub fn reserve_exact(&mut self, additional: usize) -> Result<(), AllocError>
        ensures { self.new ≡ self.old }
    {
        let entries = &mut self.entries;
        entries.reserve_exact(additional)
    }

    /// The number of entries for which there is room without an allocation.
    pub fn capacity(&self) -> usize
        ensures { length self.now ≤ result }
    {
        let entries = &self.entries;
        entries.capacity()
    }

    /// Inserts an entry at the place of its key, and moves the entries after it. The key must be new.
    ///
    /// # Errors
    ///
    /// [`AllocError`] if an allocation fails. Then the map is unchanged.
    pub fn put(&mut self, key: K, value: V) -> Result<(), AllocError>
        requires { find K.cmp key self.old ≡ None }
        ensures ok { OnOk result (self.new ≡ put K.cmp key value self.old) }
        ensures err { OnErr result (self.new ≡ self.old) }
    {
        put_entry(&mut self.entries, key, value)
    }
}
