// The spans of `+ - * /`: the lowest and highest result over the four pairs of span ends.
ghost use Rattle.std.specs.Prelude.{◌≡◌, ◌≤◌, false, ◌&&◌, unsigned_abs};
ghost use Rattle.std.specs.Int.{int_min, int_max};
ghost use Rattle.syntax.specs.declared.Binary.TheVariants.{Numbers};
ghost use Rattle.language.specs.Faults.{is_division};
ghost use Rattle.language.specs.Limits.{widest};
ghost use Rattle.language.specs.Operators.{arithmetic, is_zero};
ghost use Rattle.language.specs.Spans.{corners, holds_zero, span};

use crate::shapes::hull;
use crate::span::Span;
use coverage::Range;
use syntax::Arithmetic;

/// What an operator gives of two values within the bounds; nothing is divided by 0.
fn apply(o: Arithmetic, p: i64, q: i64) -> i64
    requires left { unsigned_abs p ≤ widest }
    requires right { unsigned_abs q ≤ widest }
    requires apart { (is_division (Numbers o) && is_zero q) ≡ false }
    ensures { result ≡ arithmetic o p q }
{
    match o {
        Arithmetic::Plus => p + q,
        Arithmetic::Subtract => p - q,
        Arithmetic::Multiply => p * q,
        Arithmetic::Divide => p / q,
    }
}

/// The span of an operator with one value on its left, over the ends of the span on its right.
fn row(o: Arithmetic, p: i64, b: Span) -> Range
    requires left { unsigned_abs p ≤ widest }
    requires apart { (is_division (Numbers o) && holds_zero b.range) ≡ false }
    ensures { let f = arithmetic o p in result ≡ span (int_min (f b.range.lo) (f b.range.hi)) (int_max (f b.range.lo) (f b.range.hi)) }
{
    let (q, r) = (apply(o, p, b.range.lo), apply(o, p, b.range.hi));
    Range {
        lo: q.min(r),
        hi: q.max(r),
    }
}

/// The span of `+ - * /`; a divisor's span does not hold 0.
pub fn corners(o: Arithmetic, a: Span, b: Span) -> Range
    requires { (is_division (Numbers o) && holds_zero b.range) ≡ false }
    ensures { result ≡ corners (arithmetic o) a.range b.range }
{
    hull(row(o, a.range.lo, b), row(o, a.range.hi, b))
}
