ghost use Rattle.std.specs.Prelude.{◌≡◌, ◌*◌};
ghost use Rattle.coverage.specs.Axes.{cells, extents};
ghost use Rattle.language.specs.Spans.{span_of};
ghost use Rattle.std.proofs.Props.{props};
ghost use Rattle.checking.specs.Told.{Limited, Ordered-prop, part_of};

use crate::domains::cells_of;
use crate::kinds::span_of;
use crate::typed::Typed;
use spans::Span;

/// What the check works out of a part that it accepts: all of it is within the limits.
#[derive(Clone, Copy)]
pub struct Accepted {
    pub typed: Typed,
    ghost limited: { Limited (part_of typed) } by { Prim.hlevel (props, Ordered-prop) },
}

impl Accepted {
    /// The lowest and the highest value of its kind.
    pub(crate) fn span(self) -> Span
        ensures { result.range ≡ span_of self.typed.kind }
    {
        Span {
            range: span_of(self.typed.kind),
        }
    }

    /// How many cells it has.
    pub(crate) fn cells(self) -> usize
        ensures { result ≡ cells (extents self.typed.domain) }
    {
        cells_of(self.typed.domain)
    }

    /// The promise for all its cells.
    pub(crate) fn whole_promise(self) -> u64
        ensures { result ≡ cells (extents self.typed.domain) * self.typed.promise }
    {
        self.cells() as u64 * self.typed.promise
    }
}
