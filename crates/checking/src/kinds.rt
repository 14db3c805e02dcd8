// The kind of a construct, from what is worked out of its operands.
ghost use Rattle.std.specs.Prelude.{◌≡◌, ◌≤◌, false, ◌&&◌};
ghost use Rattle.coverage.specs.Axes.{cells, extents};
ghost use Rattle.language.specs.Faults.{is_division};
ghost use Rattle.language.specs.Limits.{most_cells};
ghost use Rattle.language.specs.Spans.{binary_kind, fold_kind, holds_zero, reduce_kind, span_of, unary_kind, widened};

use crate::accepted::Accepted;
use coverage::{Kind, Range};
use spans::{corners, holds_zero, hull, magnitude, negation, times, with_zero};
use syntax::{Arithmetic, Binary, Fold, Reduce, Unary};

/// The lowest and the highest value of a kind.
pub(crate) fn span_of(kind: Kind) -> Range
    ensures { result ≡ span_of kind }
{
    Range {
        lo: kind.low(),
        hi: kind.high(),
    }
}

/// The kind of a prefix, or of `abs`.
pub(crate) fn unary_kind(o: Unary, operand: Accepted) -> Kind
    ensures { result ≡ unary_kind o operand.typed.kind }
{
    match o {
        Unary::Minus => Kind::Number(negation(operand.span())),
        Unary::Not => Kind::Truth,
        Unary::Abs => Kind::Number(magnitude(operand.span())),
    }
}

/// The kind of two operands; a divisor's span does not hold 0.
pub(crate) fn binary_kind(o: Binary, left: Accepted, right: Accepted) -> Kind
    requires { (is_division o && holds_zero (span_of right.typed.kind)) ≡ false }
    ensures { result ≡ binary_kind o left.typed.kind right.typed.kind }
{
    match o {
        Binary::Numbers(sign) => Kind::Number(corners(sign, left.span(), right.span())),
        Binary::Overlay => Kind::Number(hull(left.span().range, right.span().range)),
        Binary::Compares(_) | Binary::Truths(_) => Kind::Truth,
    }
}

/// The kind of `n` cells or points of one kind made one.
pub(crate) fn fold_kind(o: Fold, n: usize, body: Accepted) -> Kind
    requires { n ≤ most_cells }
    ensures { result ≡ fold_kind o n body.typed.kind }
{
    match o {
        Fold::Sum => Kind::Number(times(n, body.span())),
        Fold::Least | Fold::Greatest => Kind::Number(body.span().range),
        Fold::Every | Fold::Any => Kind::Truth,
    }
}

/// The kind of a fold from which some points may be left out.
pub(crate) fn widened_kind(o: Fold, kind: Kind) -> Kind
    ensures { result ≡ widened o kind }
{
    match o {
        Fold::Sum => Kind::Number(with_zero(span_of(kind))),
        Fold::Least | Fold::Greatest | Fold::Every | Fold::Any => kind,
    }
}

/// The kind of a function over all cells; `count` gives 0 to how many they are.
pub(crate) fn reduce_kind(o: Reduce, operand: Accepted) -> Kind
    ensures { result ≡ reduce_kind o (cells (extents operand.typed.domain)) operand.typed.kind }
{
    let n = operand.cells();
    match o {
        Reduce::Whole(fold) => fold_kind(fold, n, operand),
        Reduce::Count => Kind::Number(Range {
            lo: 0,
            hi: n as i64,
        }),
    }
}

/// Whether an operator divides, by a kind whose span holds 0.
pub(crate) fn divides_by_zero(o: Binary, divisor: Kind) -> bool
    ensures { result ≡ (is_division o && holds_zero (span_of divisor)) }
{
    matches!(o, Binary::Numbers(Arithmetic::Divide)) && holds_zero(span_of(divisor))
}
