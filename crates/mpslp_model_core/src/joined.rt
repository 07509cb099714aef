//! Lists that are stored one after another.

ghost use Rattle.std.specs.Prelude.{◌≡◌, ◌≤◌, ◌<◌, length, suc, slice_index, slice_range};

/// The list of number `i`: from its start to that of the next one.
pub(crate) fn part_at<'a, T>(items: &'a [T], starts: &[usize], i: usize) -> &'a [T]
    requires part { suc i < length starts.now }
    requires order { slice_index starts.now i ≤ slice_index starts.now (suc i) }
    requires room { slice_index starts.now (suc i) ≤ length items.now }
    ensures { result.now ≡ slice_range items.now (slice_index starts.now i) (slice_index starts.now (suc i)) }
{
    &items[starts[i]..starts[i + 1]]
}
