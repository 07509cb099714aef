//! Whether all bytes of a text are in a set, found many at a time.

ghost use Rattle.std.specs.Prelude.{◌≡◌, ◌≤◌, true, length, IsTrue};
ghost use Rattle.std.specs.List.{list_all};
ghost use Rattle.mpslp_types.specs.ByteSets.{is_in, Covers};

use std::simd::prelude::*;

/// A set of bytes. A byte is in it if what `low` has at its low four bits and what `high` has at its high four bits have a bit
/// in common.
pub struct ByteSet {
    /// A bit for each group of bytes, at the low four bits of its bytes.
    pub low: [u8; 16],
    /// The same, at their high four bits.
    pub high: [u8; 16],
}

/// Whether 16 bytes are in the set.
#[inline(always)]
fn has_lanes(set: &ByteSet, bytes: u8x16) -> bool
    ensures { IsTrue result → list_all (is_in set.now) bytes ≡ true }
{
    let low = u8x16::from_array(set.low).swizzle_dyn(bytes & u8x16::splat(15));
    let high = u8x16::from_array(set.high).swizzle_dyn(bytes >> u8x16::splat(4));
    (low & high).simd_eq(u8x16::splat(0)).to_bitmask() == 0
}

/// The first four bytes and the last four, twice: all bytes of a text of four to eight.
#[inline(always)]
fn ends_of_4(text: &[u8]) -> u8x16
    requires { (4 ≤ length text.now) × (length text.now ≤ 8) }
    ensures { Covers result text.now }
{
    let last = u8x4::from_slice(&text[text.len() - 4..]);
    u8x4::from_slice(text).shuffle(last, [0, 1, 2, 3, 4, 5, 6, 7, 0, 1, 2, 3, 4, 5, 6, 7])
}

/// The first eight bytes and the last eight: all bytes of a text of eight to 16.
#[inline(always)]
fn ends_of_8(text: &[u8]) -> u8x16
    requires { (8 ≤ length text.now) × (length text.now ≤ 16) }
    ensures { Covers result text.now }
{
    let last = u8x8::from_slice(&text[text.len() - 8..]);
    u8x8::from_slice(text).shuffle(last, [0, 1, 2, 3, 4, 5, 6, 7, 8, 9, 10, 11, 12, 13, 14, 15])
}

/// Whether all bytes of a text of at least 16 are in the set, 16 at a time. The last 16 may overlap those before them.
#[inline(always)]
fn has_long(set: &ByteSet, text: &[u8]) -> bool
    requires { 16 ≤ length text.now }
    ensures { IsTrue result → list_all (is_in set.now) text.now ≡ true }
{
    let last = text.len() - 16;
    let mut at = 0;
    while at < last {
        if !has_lanes(set, u8x16::from_slice(&text[at..])) {
            return false;
        }
        at += 16;
    }
    has_lanes(set, u8x16::from_slice(&text[last..]))
}

/// Whether all bytes of a text are in the set, if it has at least four bytes; `false` for a shorter text, of which each byte is
/// tested as quickly by itself.
#[inline(always)]
pub fn has_all(set: &ByteSet, text: &[u8]) -> bool
    ensures { IsTrue result → list_all (is_in set.now) text.now ≡ true }
{
    let len = text.len();
    if len > 16 {
        return has_long(set, text);
    }
    if len >= 8 {
        return has_lanes(set, ends_of_8(text));
    }
    if len >= 4 {
        return has_lanes(set, ends_of_4(text));
    }
    false
}
