//! The order of the kinds of errors.

ghost use Rattle.std.specs.Prelude.{◌≡◌, nat_lt, if◌then◌else◌};
ghost use Rattle.mpslp_types.specs.FaultOrder.{kind_rank};

use mpslp_model::FaultKind;

/// The kind that comes first, of two errors of one line.
pub fn lower_ranked_kind(first: FaultKind, second: FaultKind) -> FaultKind
    ensures { result ≡ (if nat_lt (kind_rank second) (kind_rank first) then second else first) }
{
    if second.rank() < first.rank() {
        second
    } else {
        first
    }
}
