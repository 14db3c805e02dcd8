ghost use Rattle.std.specs.Prelude.{◌≡◌, ◌*◌, ◌<◌, ◌≤◌, min};
ghost use Rattle.coverage.specs.Axes.{Inside, Ordered, Sized, cells as cells_of, coordinates, extents};
ghost use Rattle.coverage.specs.Strips.{Stands, row_width, strip_at, strip_first, strip_point, strips as strips_of};
ghost use Rattle.coverage.specs.declared.axis.Axis.{Axis as AnAxis};

use crate::axis::{ACROSS, Axis};
use crate::domain::{Domain, ORIGIN, Point};
use crate::range::{lowest, places};

// A strip is a row along x. Strips are numbered from 0, over y first and then over t.
impl Domain {
    /// How many cells a strip has, or `TOO_MANY`.
    pub fn row_width(self) -> usize
        ensures { result ≡ min (row_width (extents self)) 65537 }
    {
        places(self.x)
    }

    /// How many strips there are, or `TOO_MANY`.
    pub fn strips(self) -> usize
        ensures { result ≡ min (strips_of (extents self)) 65537 }
    {
        self.cells_over(&ACROSS)
    }

    /// Where strip `n` stands: with H rows in y, at y = lowest y + n mod H and t = lowest t + n div H.
    pub fn strip_point(self, n: usize) -> Point
        requires sized { Sized (extents self) }
        ensures place { (a : AnAxis) → coordinates result a ≡ strip_point (extents self) n a }
        ensures stands { n < strips_of (extents self) → Stands (extents self) n (coordinates result) }
    {
        self.point_over(&ACROSS, n, ORIGIN)
    }

    /// The first point of a strip: the one with the lowest x where the strip stands.
    pub fn strip_first(self, n: usize) -> Point
        requires sized { Sized (extents self) }
        ensures { coordinates result ≡ strip_first (extents self) n }
    {
        self.strip_point(n).with(Axis::X, lowest(self.x))
    }

    /// The number of a strip's first cell.
    pub fn strip_start(self, n: usize) -> usize
        requires ordered { (a : AnAxis) → Ordered (extents self a) }
        requires few { cells_of (extents self) ≤ 65536 }
        requires below { n < strips_of (extents self) }
        ensures { result ≡ n * row_width (extents self) }
    {
        self.cell_number(self.strip_first(n))
    }

    /// The number of the strip through a point inside.
    pub fn strip_number(self, p: Point) -> usize
        requires inside { Inside (extents self) (coordinates p) }
        requires few { strips_of (extents self) ≤ 65536 }
        ensures number { result ≡ strip_at (extents self) (coordinates p) }
        ensures below { result < strips_of (extents self) }
    {
        self.number_over(&ACROSS, p)
    }
}
