ghost use Rattle.std.specs.Prelude.{◌≡◌};
ghost use Rattle.coverage.specs.Entries.{changed, entry};
ghost use Rattle.coverage.specs.declared.axis.Axis.{Axis as AnAxis};

use crate::axis::Axis;

/// A value for each axis.
#[derive(Clone, Copy, Debug, PartialEq, Eq)]
pub struct PerAxis<T> {
    pub x: T,
    pub y: T,
    pub t: T,
}

impl<T: Copy> PerAxis<T> {
    /// The value for an axis.
    pub fn on(self, axis: Axis) -> T
        ensures { result ≡ entry self axis }
    {
        match axis {
            Axis::X => self.x,
            Axis::Y => self.y,
            Axis::T => self.t,
        }
    }

    /// The same with another value for one axis.
    pub fn with(self, axis: Axis, value: T) -> PerAxis<T>
        ensures { (a : AnAxis) → entry result a ≡ changed (entry self) axis value a }
    {
        match axis {
            Axis::X => PerAxis { x: value, ..self },
            Axis::Y => PerAxis { y: value, ..self },
            Axis::T => PerAxis { t: value, ..self },
        }
    }
}
