ghost use Rattle.std.specs.Prelude.{◌≡◌, ◌<◌, ◌≤◌, min, true};
ghost use Rattle.coverage.specs.Axes.{axes as all_axes, all_over, Holds, Inside, Sized, cells as cells_of, cells_over, coord_of, coordinates, distinct, extents, origin, inside_b, number_at, number_over, on_axis, point_at, point_over, put, same_domain, size_of, step_of};
ghost use Rattle.coverage.specs.Limits.{axis_bounded, bounded};
ghost use Rattle.coverage.specs.declared.axis.Axis.{Axis as AnAxis};

use crate::axis::{AXES, Axis};
use crate::per_axis::PerAxis;
use crate::range::{Range, TOO_MANY, coordinate, is_bounded, on_axis, places, same_axis, step};

/// What a coverage reaches over: for each axis a range of coordinates, or none where the axis is absent.
pub type Domain = PerAxis<Option<Range>>;

/// A coordinate for each axis; that of an absent axis is ignored.
pub type Point = PerAxis<i64>;

/// The point with coordinate 0 on every axis.
pub const ORIGIN: Point = Point { x: 0, y: 0, t: 0 };

impl Domain {
    /// How many cells, or `TOO_MANY` where there are more than a coverage may have.
    pub fn cells(self) -> usize
        ensures { result ≡ min (cells_of (extents self)) 65537 }
    {
        self.cells_over(&AXES)
    }

    /// How many cells on some axes, or `TOO_MANY`.
    pub fn cells_over(self, axes: &[Axis]) -> usize
        ensures { result ≡ min (cells_over axes.now (extents self)) 65537 }
    {
        let mut n = 1;
        for axis in axes {
            n = (n * places(self.on(*axis))).min(TOO_MANY);
        }
        n
    }

    /// How far a point stands from the lowest coordinate of an axis.
    fn step(self, axis: Axis, p: Point) -> usize
        requires inside { Holds (extents self axis) (coordinates p axis) }
        requires few { size_of (extents self axis) ≤ 65536 }
        ensures { result ≡ step_of (extents self axis) (coordinates p axis) }
    {
        step(self.on(axis), p.on(axis))
    }

    /// The point moved to the coordinate `k` places above the lowest of an axis.
    fn raised(self, p: Point, axis: Axis, k: usize) -> Point
        requires below { k < size_of (extents self axis) }
        requires few { size_of (extents self axis) ≤ 65536 }
        ensures { (a : AnAxis) → coordinates result a ≡ put (coordinates p) axis (coord_of (extents self axis) k (coordinates p axis)) a }
    {
        p.with(axis, coordinate(self.on(axis), k, p.on(axis)))
    }

    /// The number of the cell at a point, counted over some axes, the first innermost.
    pub fn number_over(self, axes: &[Axis], p: Point) -> usize
        requires inside { Inside (extents self) (coordinates p) }
        requires few { cells_over axes.now (extents self) ≤ 65536 }
        ensures number { result ≡ number_over axes.now (extents self) (coordinates p) }
        ensures below { result < cells_over axes.now (extents self) }
    {
        let mut n = 0;
        let mut stride = 1;
        for axis in axes {
            n += stride * self.step(*axis, p);
            stride *= places(self.on(*axis));
        }
        n
    }

    /// The number of the cell at a point inside: x innermost, then y, then t.
    pub fn cell_number(self, p: Point) -> usize
        requires inside { inside_b (extents self) (coordinates p) ≡ true }
        requires few { cells_of (extents self) ≤ 65536 }
        ensures number { result ≡ number_at (extents self) (coordinates p) }
        ensures below { result < cells_of (extents self) }
    {
        self.number_over(&AXES, p)
    }

    /// The point of a number counted over some axes; the others keep their coordinate in `from`.
    // That each axis is `Sized` stands in four contracts and in no type: a domain is asked about before it is known
    // to be sized, and a second type of domains would be made for one call at each place that asks for a point.
    pub fn point_over(self, axes: &[Axis], number: usize, from: Point) -> Point
        requires sized { Sized (extents self) }
        requires once { distinct axes.now ≡ true }
        ensures { (a : AnAxis) → coordinates result a ≡ point_over axes.now (extents self) number (coordinates from) a }
    {
        let mut p = from;
        let mut n = number;
        for axis in axes {
            let size = places(self.on(*axis));
            p = self.raised(p, *axis, n % size);
            n = n / size;
        }
        p
    }

    /// The point of cell number `n`; absent axes have coordinate 0.
    pub fn point_of(self, n: usize) -> Point
        requires sized { Sized (extents self) }
        ensures { (a : AnAxis) → coordinates result a ≡ point_at (extents self) n origin a }
    {
        self.point_over(&AXES, n, ORIGIN)
    }

    /// Whether a point's coordinate lies on an axis.
    fn takes(self, axis: Axis, p: Point) -> bool
        ensures { result ≡ on_axis (extents self axis) (coordinates p axis) }
    {
        on_axis(self.on(axis), p.on(axis))
    }

    /// Whether a point lies inside.
    pub fn contains(self, p: Point) -> bool
        ensures { result ≡ inside_b (extents self) (coordinates p) }
    {
        AXES.iter().all(|axis| self.takes(*axis, p))
    }

    /// Whether two domains have the same axes with the same ends.
    pub fn is_same(self, other: Domain) -> bool
        ensures { result ≡ same_domain (extents self) (extents other) }
    {
        AXES.iter()
            .all(|axis| same_axis(self.on(*axis), other.on(*axis)))
    }

    /// Whether each axis that is there is within bounds.
    fn has_bounded_axes(self) -> bool
        ensures { result ≡ all_over (λ a. axis_bounded (extents self a)) all_axes }
    {
        AXES.iter().all(|axis| is_bounded(self.on(*axis)))
    }

    /// Whether the axes may stand on a shelf: x is there, and each is within bounds.
    pub fn is_bounded(self) -> bool
        ensures { result ≡ bounded (extents self) }
    {
        self.x.is_some() && self.has_bounded_axes()
    }
}
