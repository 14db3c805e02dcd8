ghost use Rattle.shelf_laws.proofs.Ramps.{ramp_fixed, ramp_lawful};
ghost use Rattle.shelf_laws.specs.Ramp.{gradient, ramp_cells, ramp_keeps};

use crate::cells::{Cells, FixedCells};
use crate::single::Single;
use coverage::{Description, Point};
use shelf_laws::Plane;

/// A ramp: one fixed coverage whose cell is an offset and, for each axis, a slope times the coordinate.
pub type Ramp = Single<Plane>;

impl Cells for Plane {
    ghost cells = { λ s. ramp_cells (gradient s.slopes) s.offset };

    ghost keeps = { λ s. ramp_keeps (gradient s.slopes) s.offset };

    ghost coverage_lawful = { λ s a h. ramp_lawful a (gradient s.slopes) s.offset h };

    fn cell(&self, about: Description, at: Point) -> Option<i32> {
        let v = self.value(about.domain, at);
        Some(v as i32)
    }
}

impl FixedCells for Plane {
    ghost fixed = { λ s a h. ramp_fixed a (gradient s.slopes) s.offset h };
}
