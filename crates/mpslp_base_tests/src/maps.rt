//! Tests of sorted maps by names and by numbers.

ghost use Rattle.std.specs.Prelude.{IsTrue};
ghost use Rattle.std.specs.FinMap.{is_sorted};
ghost use Rattle.mpslp_types.specs.Name.{bytes_cmp};

use mpslp_types::{Name, SortedMap, find_entry, find_index};
use std::alloc::Global;
use std::test::Fail;

/// A map of three names that were not put in order.
fn three_names(alloc: Global) -> Result<SortedMap<Name, u8>, Fail> {
    let mut map = SortedMap::new(alloc);
    map.put(Name::new(alloc, b"x2".as_slice())?, 2)?;
    map.put(Name::new(alloc, b"x10".as_slice())?, 10)?;
    map.put(Name::new(alloc, b"x3".as_slice())?, 3)?;
    Ok(map)
}

/// The values of the names x10, x2 and x1.
fn found(map: &SortedMap<Name, u8>) -> [Option<u8>; 3] {
    [
        map.find(&b"x10".as_slice()).copied(),
        map.find(&b"x2".as_slice()).copied(),
        map.find(&b"x1".as_slice()).copied(),
    ]
}

/// Whether the map has the names x3 and x4, and whether it is empty.
fn has(map: &SortedMap<Name, u8>) -> [bool; 3] {
    [
        map.has(&b"x3".as_slice()),
        map.has(&b"x4".as_slice()),
        map.is_empty(),
    ]
}

/// The results of `found` and `has` for three names.
fn of_three(alloc: Global) -> Result<([Option<u8>; 3], [bool; 3]), Fail> {
    let map = three_names(alloc)?;
    Ok((found(&map), has(&map)))
}

#[test]
fn finds_what_was_put(rt: HostRuntime) -> Result<(), Fail> {
    let (found, has) = of_three(rt.alloc())?;
    assert_eq!(rt; found, [Some(10), Some(2), None]);
    assert_eq!(rt; has, [true, false, false]);
    Ok(())
}

/// The places of the names x10, x3 and x.
fn places(entries: &[(Name, u8)]) -> [Option<usize>; 3]
    requires { IsTrue (is_sorted bytes_cmp entries.now) }
{
    [
        find_index(entries, &b"x10".as_slice()),
        find_index(entries, &b"x3".as_slice()),
        find_index(entries, &b"x".as_slice()),
    ]
}

/// What the entries of a map are: their number, twice, the results of `places`, and the value of x2.
fn of_entries(map: SortedMap<Name, u8>) -> ([usize; 2], [Option<usize>; 3], Option<u8>) {
    let entries = map.as_slice();
    let count = entries.len();
    let places = places(entries);
    let value = find_entry(entries, &b"x2".as_slice()).copied();
    ([count, map.into_entries().len()], places, value)
}

/// A map of three names, with room for 5 more.
fn with_room(alloc: Global) -> Result<SortedMap<Name, u8>, Fail> {
    let mut map = three_names(alloc)?;
    map.reserve_exact(5)?;
    Ok(map)
}

#[test]
fn entries_are_in_byte_order(rt: HostRuntime) -> Result<(), Fail> {
    let (counts, places, value) = of_entries(with_room(rt.alloc())?);
    assert_eq!(rt; counts, [3, 3]);
    assert_eq!(rt; places, [Some(0), Some(2), None]);
    assert_eq!(rt; value, Some(2));
    Ok(())
}

/// A map in which 10 is put before 2.
fn two_numbers(alloc: Global) -> Result<SortedMap<u32, u8>, Fail> {
    let mut map = SortedMap::new(alloc);
    map.put(10, 1)?;
    map.put(2, 2)?;
    Ok(map)
}

/// Whether the empty map ends below 0.
fn empty_ends_below_0(alloc: Global) -> bool {
    let map: SortedMap<u32, u8> = SortedMap::new(alloc);
    map.ends_below(&0)
}

/// The length of a map, whether it ends below 11 and below 10, and the place of 10.
fn of_numbers(map: SortedMap<u32, u8>) -> (usize, [bool; 2], Option<usize>) {
    let ends = [map.ends_below(&11), map.ends_below(&10)];
    (map.len(), ends, find_index(map.as_slice(), &10))
}

#[test]
fn numbers_are_in_their_order(rt: HostRuntime) -> Result<(), Fail> {
    let (length, ends, place) = of_numbers(two_numbers(rt.alloc())?);
    assert!(rt; empty_ends_below_0(rt.alloc()));
    assert_eq!(rt; (length, ends, place), (2, [true, false], Some(1)));
    Ok(())
}
