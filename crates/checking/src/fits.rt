// Which kinds fit where: each rule expects numbers or truths.
ghost use Rattle.checking.specs.Expects.{expected};
ghost use Rattle.language.specs.Fits.{alike_fit, both_fit_as, comparison_fits, fits_as, fold_expects, operands_fit, reduce_expects, unary_expects};
ghost use Rattle.std.specs.Prelude.{◌≡◌};

use coverage::Kind;
use syntax::{Binary, Comparison, Fold, Reduce, Unary};

/// What a rule may expect of an operand.
#[derive(Clone, Copy, Debug, PartialEq, Eq)]
pub(crate) enum Expected {
    Number,
    Truth,
}

/// Whether a kind is the one that is expected.
pub(crate) fn fits_as(x: Expected, kind: Kind) -> bool
    ensures { result ≡ fits_as (expected x) kind }
{
    matches!(
        (x, kind),
        (Expected::Number, Kind::Number(_)) | (Expected::Truth, Kind::Truth)
    )
}

/// The same of two operands.
fn both_fit_as(x: Expected, j: Kind, k: Kind) -> bool
    ensures { result ≡ both_fit_as (expected x) j k }
{
    fits_as(x, j) && fits_as(x, k)
}

/// Whether two kinds are both numbers or both truths.
fn alike_fit(j: Kind, k: Kind) -> bool
    ensures { result ≡ alike_fit j k }
{
    both_fit_as(Expected::Number, j, k) || both_fit_as(Expected::Truth, j, k)
}

/// What a prefix, or `abs`, takes.
pub(crate) fn unary_expects(o: Unary) -> Expected
    ensures { expected result ≡ unary_expects o }
{
    match o {
        Unary::Minus | Unary::Abs => Expected::Number,
        Unary::Not => Expected::Truth,
    }
}

/// Whether a comparison takes two kinds: `= !=` any two alike, the others numbers.
fn comparison_fits(c: Comparison, j: Kind, k: Kind) -> bool
    ensures { result ≡ comparison_fits c j k }
{
    match c {
        Comparison::Equal | Comparison::Unequal => alike_fit(j, k),
        Comparison::Less | Comparison::AtMost | Comparison::Greater | Comparison::AtLeast => {
            both_fit_as(Expected::Number, j, k)
        }
    }
}

/// Whether an operator takes two kinds.
pub(crate) fn operands_fit(o: Binary, j: Kind, k: Kind) -> bool
    ensures { result ≡ operands_fit o j k }
{
    match o {
        Binary::Numbers(_) | Binary::Overlay => both_fit_as(Expected::Number, j, k),
        Binary::Compares(c) => comparison_fits(c, j, k),
        Binary::Truths(_) => both_fit_as(Expected::Truth, j, k),
    }
}

/// What a fold takes: `+ min max` numbers, `and or` truths.
pub(crate) fn fold_expects(o: Fold) -> Expected
    ensures { expected result ≡ fold_expects o }
{
    match o {
        Fold::Sum | Fold::Least | Fold::Greatest => Expected::Number,
        Fold::Every | Fold::Any => Expected::Truth,
    }
}

/// What a function over all cells takes; `count` takes truths.
pub(crate) fn reduce_expects(o: Reduce) -> Expected
    ensures { expected result ≡ reduce_expects o }
{
    match o {
        Reduce::Whole(fold) => fold_expects(fold),
        Reduce::Count => Expected::Truth,
    }
}
