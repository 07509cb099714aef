//! Pairs of a column and a row in a set.

ghost use Rattle.std.specs.Prelude.{◌≡◌, ◌<◌, ℕ, OnOk, OnErr};
ghost use Rattle.std.specs.BTreeSet.{IsUnchanged};
ghost use Rattle.mpslp_builder_parts.specs.KnownPairs.{pair_key, in_pairs, IsPairPut};

use std::alloc::AllocError;
use std::collections::BTreeSet;

/// How many rows there may be.
const ROWS: u64 = 4_294_967_296;

/// A pair as one number.
fn key_of(column: u32, row: u32) -> u64
    ensures { result ≡ pair_key column row }
{
    column as u64 * ROWS + row as u64
}

/// Whether a pair is in the set.
pub(crate) fn is_in(pairs: &BTreeSet<u64>, column: u32, row: u32) -> bool
    ensures { result ≡ in_pairs pairs.now column row }
{
    pairs.contains(&key_of(column, row))
}

/// Puts a pair into the set.
pub(crate) fn put_pair(pairs: &mut BTreeSet<u64>, column: u32, row: u32) -> Result<(), AllocError>
    ensures ok { OnOk result (IsPairPut column row pairs.old pairs.new) }
    ensures err { OnErr result (IsUnchanged pairs.old pairs.new) }
{
    pairs.insert(key_of(column, row))?;
    Ok(())
}
