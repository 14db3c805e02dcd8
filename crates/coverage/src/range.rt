ghost use Rattle.std.specs.Prelude.{◌≡◌, ◌+◌, ◌*◌, ◌%◌, ◌<◌, ◌≤◌, min, pos, ◌+ℤ◌, false};
ghost use Rattle.std.specs.Range.{range_inclusive_end, range_inclusive_exhausted, range_inclusive_start};
ghost use Rattle.coverage.specs.Axes.{Holds, coord_of, highest_on, in_range, lowest_on, on_axis, same_range, size_of, step_of, width};
ghost use Rattle.coverage.specs.Limits.{axis_bounded, ordered};

use std::ops::RangeInclusive;

/// Whole numbers from a lowest to a highest, both included: coordinates on an axis, or values of a kind.
#[derive(Clone, Copy, Debug, PartialEq, Eq)]
pub struct Range {
    pub lo: i64,
    pub hi: i64,
}

/// One more than the most cells that a coverage may have. Cells are counted up to here and no further.
pub const TOO_MANY: usize = 65537;

/// The farthest coordinate of a coverage on a shelf, on either side of 0.
const FARTHEST: i64 = 1000000;

impl Range {
    /// Whether the lowest is not above the highest.
    pub fn is_ordered(self) -> bool
        ensures { result ≡ ordered self }
    {
        self.lo <= self.hi
    }

    /// Whether a number lies in the range.
    pub fn holds(self, v: i64) -> bool
        ensures { result ≡ in_range self v }
    {
        self.lo <= v && v <= self.hi
    }

    /// How many numbers lie in the range, or `TOO_MANY` where there are more.
    pub fn count(self) -> usize
        ensures { result ≡ min (width self) 65537 }
    {
        if self.lo > self.hi {
            return 0;
        }
        let beyond = self.hi.abs_diff(self.lo);
        if beyond >= 65537 {
            return TOO_MANY;
        }
        beyond as usize + 1
    }
}

/// Whether a coordinate lies on an axis: an absent one takes every coordinate.
pub fn on_axis(axis: Option<Range>, v: i64) -> bool
    ensures { result ≡ on_axis axis v }
{
    axis.is_none_or(|range| range.holds(v))
}

/// How many places an axis has, one where it is absent, or `TOO_MANY` where there are more.
pub fn places(axis: Option<Range>) -> usize
    ensures { result ≡ min (size_of axis) 65537 }
{
    axis.map_or(1, |range| range.count())
}

/// The lowest coordinate of an axis, 0 where it is absent.
pub fn lowest(axis: Option<Range>) -> i64
    ensures { result ≡ lowest_on axis }
{
    axis.map_or(0, |range| range.lo)
}

/// The coordinates of an axis from the lowest up, 0 alone where it is absent.
pub fn coordinates(axis: Option<Range>) -> RangeInclusive<i64>
    ensures lowest { range_inclusive_start result ≡ lowest_on axis }
    ensures highest { range_inclusive_end result ≡ highest_on axis }
    ensures all { range_inclusive_exhausted result ≡ false }
{
    axis.map_or(0..=0, |range| range.lo..=range.hi)
}

/// How far a coordinate stands from the lowest of its axis.
pub fn step(axis: Option<Range>, v: i64) -> usize
    requires inside { Holds axis v }
    requires few { size_of axis ≤ 65536 }
    ensures { result ≡ step_of axis v }
{
    axis.map_or(0, |range| (v - range.lo) as usize)
}

/// The coordinate `k` places above the lowest of an axis; an absent axis keeps the coordinate `v`.
pub fn coordinate(axis: Option<Range>, k: usize, v: i64) -> i64
    requires below { k < size_of axis }
    requires few { size_of axis ≤ 65536 }
    ensures { result ≡ coord_of axis k v }
{
    match axis {
        Some(range) => range.lo + k as i64,
        None => v,
    }
}

/// Whether two axes are both absent or have the same ends.
pub fn same_axis(a: Option<Range>, b: Option<Range>) -> bool
    ensures { result ≡ same_range a b }
{
    match (a, b) {
        (None, None) => true,
        (Some(p), Some(q)) => p.lo == q.lo && p.hi == q.hi,
        _ => false,
    }
}

/// Whether an axis may stand on a shelf: its ends in order and within ±1,000,000, or absent.
pub fn is_bounded(axis: Option<Range>) -> bool
    ensures { result ≡ axis_bounded axis }
{
    axis.is_none_or(|range| { range.is_ordered() && -FARTHEST <= range.lo && range.hi <= FARTHEST })
}
