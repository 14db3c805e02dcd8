// The rules of operators and functions.
#![tactic(auto, unfolding(language::specs::Faults::binary_fault, language::specs::Faults::reduce_fault, language::specs::Faults::unary_fault))]

ghost use Rattle.checking.specs.Rules.{binary_rule, reduce_rule, unary_rule};
ghost use Rattle.checking.specs.Told.{part_of, told};
ghost use Rattle.std.specs.Prelude.{◌≡◌};

use crate::accepted::Accepted;
use crate::domains::{NO_AXES, domains_fit, joint};
use crate::fault::{CheckFault, ensure};
use crate::fits::{fits_as, operands_fit, reduce_expects, unary_expects};
use crate::kinds::{binary_kind, divides_by_zero, reduce_kind, unary_kind};
use crate::limits::within_limits;
use crate::typed::Typed;
use syntax::{Binary, Reduce, Unary};

/// A prefix, or `abs`.
pub fn unary_rule(o: Unary, operand: Accepted, place: usize) -> Result<Typed, CheckFault>
    ensures { told result ≡ unary_rule o (part_of operand.typed) place }
{
    let fits = fits_as(unary_expects(o), operand.typed.kind);
    ensure(fits, CheckFault::Unfit(place))?;
    let typed = Typed {
        kind: unary_kind(o, operand),
        ..operand.typed
    };
    within_limits(typed, place)
}

/// An operator between two operands.
pub fn binary_rule(
    o: Binary,
    left: Accepted,
    right: Accepted,
    place: usize,
) -> Result<Typed, CheckFault>
    ensures { told result ≡ binary_rule o (part_of left.typed) (part_of right.typed) place }
{
    let (l, r) = (left.typed, right.typed);
    let fit = operands_fit(o, l.kind, r.kind) && domains_fit(l.domain, r.domain);
    ensure(fit, CheckFault::Unfit(place))?;
    let apart = !divides_by_zero(o, r.kind);
    ensure(apart, CheckFault::ZeroDivisor(place))?;
    let typed = Typed {
        domain: joint(l.domain, r.domain),
        kind: binary_kind(o, left, right),
        promise: l.promise + r.promise,
    };
    within_limits(typed, place)
}

/// A function over all cells of its operand.
pub fn reduce_rule(o: Reduce, operand: Accepted, place: usize) -> Result<Typed, CheckFault>
    ensures { told result ≡ reduce_rule o (part_of operand.typed) place }
{
    let fits = fits_as(reduce_expects(o), operand.typed.kind);
    ensure(fits, CheckFault::Unfit(place))?;
    let typed = Typed {
        domain: NO_AXES,
        kind: reduce_kind(o, operand),
        promise: operand.whole_promise(),
    };
    within_limits(typed, place)
}
