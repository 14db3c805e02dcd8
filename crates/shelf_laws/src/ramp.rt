ghost use Rattle.coverage.specs.Axes.{coordinates, extents, inside_b, on_axis};
ghost use Rattle.coverage.specs.Limits.{axis_bounded, bounded};
ghost use Rattle.shelf_laws.specs.Ramp.{all_mild, gradient, is_mild, is_near, ramp_span, ramp_value, rise as rise_on, rises as rises_on};
ghost use Rattle.std.specs.Prelude.{◌≡◌, true};

use crate::slopes::Slopes;
use coverage::{AXES, Domain, Point, Range};

/// The farthest offset of a ramp, on either side of 0.
const FARTHEST: i64 = 100000000;

/// The cells of a ramp: an offset, and for each axis a slope times the coordinate.
#[derive(Clone, Copy)]
pub struct Plane {
    pub slopes: Slopes,
    pub offset: i64,
    ghost mild: { all_mild (gradient slopes) ≡ true },
    ghost near: { is_near offset ≡ true },
}

/// Whether an offset lies within ±100,000,000.
pub fn is_near(offset: i64) -> bool
    ensures { result ≡ is_near offset }
{
    -FARTHEST <= offset && offset <= FARTHEST
}

/// What an axis adds to a cell: its slope times the coordinate, nothing where it is absent.
fn rise(axis: Option<Range>, slope: i64, v: i64) -> i64
    requires bounded { axis_bounded axis ≡ true }
    requires on { on_axis axis v ≡ true }
    requires mild { is_mild slope ≡ true }
    ensures { result ≡ rise_on axis slope v }
{
    match axis {
        Some(_) => slope * v,
        None => 0,
    }
}

/// The least and the most that an axis adds, over its two ends.
fn rises(axis: Option<Range>, slope: i64) -> Range
    requires bounded { axis_bounded axis ≡ true }
    requires mild { is_mild slope ≡ true }
    ensures { result ≡ rises_on axis slope }
{
    match axis {
        Some(range) => {
            let near = slope * range.lo;
            let far = slope * range.hi;
            Range {
                lo: near.min(far),
                hi: near.max(far),
            }
        }
        None => Range { lo: 0, hi: 0 },
    }
}

impl Plane {
    /// The cell at a point inside a domain: the offset, and what each axis adds.
    pub fn value(self, domain: Domain, at: Point) -> i64
        requires bounded { bounded (extents domain) ≡ true }
        requires inside { inside_b (extents domain) (coordinates at) ≡ true }
        ensures { result ≡ ramp_value (gradient self.slopes) self.offset (extents domain) (coordinates at) }
    {
        let mut v = self.offset;
        for axis in AXES {
            v += rise(domain.on(axis), self.slopes.on(axis), at.on(axis));
        }
        v
    }

    /// The lowest and the highest cell over the corners of a domain.
    pub fn span(self, domain: Domain) -> Range
        requires { bounded (extents domain) ≡ true }
        ensures { result ≡ ramp_span (gradient self.slopes) self.offset (extents domain) }
    {
        let mut span = Range {
            lo: self.offset,
            hi: self.offset,
        };
        for axis in AXES {
            let rises = rises(domain.on(axis), self.slopes.on(axis));
            span.lo += rises.lo;
            span.hi += rises.hi;
        }
        span
    }
}
