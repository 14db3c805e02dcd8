ghost use Rattle.spans.specs.Bounds.{Bounded};

use coverage::Range;

/// A span within the bounds: no end beyond ±2,147,483,647, the lowest value not above the highest.
#[derive(Clone, Copy, Debug, PartialEq, Eq)]
pub struct Span {
    pub range: Range,
    ghost bounded: { Bounded range },
}
