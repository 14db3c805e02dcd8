ghost use Rattle.checking.specs.Reach.{Goes};
ghost use Rattle.syntax.specs.Tree.{Iterator, Word};
ghost use Rattle.std.specs.Prelude.{List, [], ◌∷◌};

use crate::domains::NO_AXES;
use coverage::{Axis, Domain, Range};

/// How far iterators reach: the domain that they go through, and whether each has an axis of its own and
/// its ends in order.
// A flag beside a value: the domain is told also where it is not their own, and an Option would tell less.
#[derive(Clone, Copy)]
pub struct Reach {
    pub domain: Domain,
    pub own: bool,
}

impl Reach {
    /// No iterators.
    pub fn none() -> Reach
        ensures { Goes [] result }
    {
        Reach {
            domain: NO_AXES,
            own: true,
        }
    }

    /// These iterators, preceded by one more: its axis is not theirs, and its ends are in order.
    pub fn preceded_by(self, axis: Axis, range: Range) -> Reach
        ensures { (w : Word) (is : List Iterator) → Goes is self → Goes (record { word = w; axis = axis; range = range } ∷ is) result }
    {
        let is_own = self.domain.on(axis).is_none() && range.is_ordered();
        Reach {
            domain: self.domain.with(axis, Some(range)),
            own: is_own && self.own,
        }
    }
}
