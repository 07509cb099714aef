//! Tests of the byte order of names, and of the numbers that it gives to rows.

use mpslp_builder_parts::{order_of, ranks_of};
use mpslp_types::Name;
use std::alloc::Global;
use std::test::Fail;

/// Entries with these names.
fn named(alloc: Global, names: &str) -> Result<Vec<(Name, u8)>, Fail> {
    let mut entries = Vec::new(alloc);
    for name in names.split(' ') {
        entries.push((Name::new(alloc, name.as_bytes())?, 0))?;
    }
    Ok(entries)
}

/// The places of these names, in their byte order.
fn places(alloc: Global, names: &str) -> Result<Vec<usize>, Fail> {
    let entries = named(alloc, names)?;
    Ok(order_of(alloc, &entries)?)
}

#[test]
fn names_come_in_byte_order(rt: HostRuntime) -> Result<(), Fail> {
    let names = "same_front_2 same_fron b same_front_1 B same_front ~";
    let order = places(rt.alloc(), names)?;
    assert_eq!(rt; order.as_slice(), [4usize, 2, 1, 5, 3, 0, 6].as_slice());
    Ok(())
}

#[test]
fn numbers_follow_the_order(rt: HostRuntime) -> Result<(), Fail> {
    let ranks = ranks_of(rt.alloc(), &[2, 0, 1])?;
    assert_eq!(rt; ranks.as_slice(), [0u32, 2, 3, 1].as_slice());
    Ok(())
}
