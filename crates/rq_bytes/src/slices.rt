//! Parts of slices.
ghost use Rattle.std.specs.Prelude.{◌≡◌, ◌+◌, ◌≤◌, length, slice_range};
ghost use Rattle.rq_bytes.specs.Ranges.{range_of};

/// The values at the places from `start` on and before `end`, which are at most as many as there
/// are.
#[inline(always)]
pub fn part<T>(values: &[T], start: usize, end: usize) -> &[T]
    requires order { start ≤ end }
    requires within { end ≤ length values.now }
    ensures { result.now ≡ slice_range values.now start end }
{
    &values[start..end]
}

/// The `len` values from `start` on.
#[inline(always)]
pub fn range<T>(values: &[T], start: usize, len: usize) -> &[T]
    requires { start + len ≤ length values.now }
    ensures { result.now ≡ range_of values.now start len }
{
    &values[start..start + len]
}
