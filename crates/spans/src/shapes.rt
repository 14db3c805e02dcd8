// Spans made of spans: turned over, by magnitude, joined, many times over, widened; and where 0 lies.
ghost use Rattle.std.specs.Prelude.{◌≡◌, ◌≤◌};
ghost use Rattle.language.specs.Spans.{negated, magnitudes, hull as hull_of, times as times_of, with_zero, holds_zero};
ghost use Rattle.language.specs.Limits.{most_cells};

use crate::span::Span;
use coverage::Range;

/// The span of prefix `-`: l to h turns into -h to -l.
pub fn negation(a: Span) -> Range
    ensures { result ≡ negated a.range }
{
    Range {
        lo: -a.range.hi,
        hi: -a.range.lo,
    }
}

/// The span of `abs`: the least to the greatest magnitude.
pub fn magnitude(a: Span) -> Range
    ensures { result ≡ magnitudes a.range }
{
    let opposite = negation(a);
    Range {
        lo: i64::max(0, a.range.lo.max(opposite.lo)),
        hi: a.range.hi.max(opposite.hi),
    }
}

/// The narrowest span that holds two others.
pub fn hull(a: Range, b: Range) -> Range
    ensures { result ≡ hull_of a b }
{
    Range {
        lo: a.lo.min(b.lo),
        hi: a.hi.max(b.hi),
    }
}

/// The span of a sum of `n` values.
pub fn times(n: usize, a: Span) -> Range
    requires few { n ≤ most_cells }
    ensures { result ≡ times_of n a.range }
{
    let n = n as i64;
    Range {
        lo: n * a.range.lo,
        hi: n * a.range.hi,
    }
}

/// A span widened to hold 0.
pub fn with_zero(a: Range) -> Range
    ensures { result ≡ with_zero a }
{
    Range {
        lo: a.lo.min(0),
        hi: a.hi.max(0),
    }
}

/// Whether 0 lies in a span.
pub fn holds_zero(a: Range) -> bool
    ensures { result ≡ holds_zero a }
{
    a.holds(0)
}
