//! How an allocation is made to fail: what this program asks of the library `tests/program/refuse.c` that is loaded before it.

use std::alloc::Global;

/// More bytes than any machine has. A request for `n` more than this fails with or without that library; the library reads
/// `n` from it.
const ORDER: usize = 1 << 60;

/// From now on allocations are counted from 1, and the one with this number fails.
pub(crate) fn refuse(alloc: Global, growth: u32) {
    order(alloc, growth);
}

/// From now on no allocation is counted or made to fail.
pub(crate) fn refuse_none(alloc: Global) {
    order(alloc, 0);
}

fn order(alloc: Global, growth: u32) {
    let _ = Vec::<u8>::with_capacity(alloc, ORDER + growth as usize);
}
