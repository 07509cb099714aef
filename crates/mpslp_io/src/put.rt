//! Writes whole pieces to a sink.

ghost use Rattle.std.specs.Prelude.{◌≡◌, ◌<◌, ◌≤◌, ◌+◌, ◌-◌, ◌^◌, min, true, false, length, IsOk, IsErr, OnOk};
ghost use Rattle.mpslp_io.specs.Devices.{Grows, TookMore};

use crate::devices::{IoFailed, Sink};

/// Writes a whole piece to the sink, in at most as many calls as the piece has bytes, and does not flush. The number of
/// bytes that the sink accepted is added to `tally`, which saturates at 2^64 - 1.
///
/// Returns [`IoFailed`] if the sink fails before the whole piece is written. Then the sink has accepted a prefix of the
/// piece, as many bytes as were added to `tally`, and nothing else, and stays failed. So a nonempty piece returns `Ok` if
/// and only if the sink has not failed when the call ends. The empty piece makes no call and succeeds for every sink, even
/// one that has failed.
pub fn put_all<W: Sink>(sink: &mut W, tally: &mut u64, piece: &[u8]) -> Result<(), IoFailed>
    ensures written { OnOk result (Grows W.holds sink.old sink.new piece.now) }
    ensures tally { OnOk result (tally.new ≡ min (tally.old + length piece.now) (2 ^ 64 - 1)) }
    ensures taken { TookMore W.holds sink.old sink.new piece.now tally.old tally.new }
    ensures fails { IsErr result → W.failed sink.new ≡ true }
    ensures works { IsOk result → 0 < length piece.now → W.failed sink.new ≡ false }
    ensures nothing { length piece.now ≡ 0 → IsOk result × (sink.new ≡ sink.old) × (tally.new ≡ tally.old) }
    ensures stays { W.failed sink.old ≡ true → W.failed sink.new ≡ true }
    ensures calls { W.count sink.new ≤ W.count sink.old + length piece.now }
{
    let _tally = *tally;
    let mut at = 0;
    while at < piece.len() {
        let taken = sink.write(&piece[at..])?;
        at += taken;
        *tally = tally.saturating_add(taken as u64);
    }
    Ok(())
}
