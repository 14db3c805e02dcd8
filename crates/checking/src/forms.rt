// The rules of condense and coverage forms. Iterators are taken up from the last to the first; their
// domain is what the form goes through.
#![tactic(auto, unfolding(language::specs::Faults::condense_fault, language::specs::Faults::condense_where_fault, language::specs::Faults::form_fault, language::specs::Faults::iterators_fault))]

ghost use Rattle.std.specs.Prelude.{◌≡◌, ◌≤◌, ◌&&◌, List};
ghost use Rattle.std.specs.Option.{option_map};
ghost use Rattle.checking.specs.Reach.{Goes, told_domain};
ghost use Rattle.checking.specs.Rules.{either_condense_rule, form_rule};
ghost use Rattle.checking.specs.Told.{part_of, told};
ghost use Rattle.checking.specs.Trees.{iterators_rule};
ghost use Rattle.coverage.specs.Axes.{cells, extents};
ghost use Rattle.language.specs.Faults.{body_fits, where_fits};
ghost use Rattle.language.specs.Iterators.{Ranges, new_words};
ghost use Rattle.language.specs.Limits.{most_cells};
ghost use Rattle.syntax.specs.Tree.{Iterator};

use crate::accepted::Accepted;
use crate::domains::{NO_AXES, cells_of, is_single};
use crate::fault::{CheckFault, ensure};
use crate::fits::{Expected, fits_as, fold_expects};
use crate::kinds::{fold_kind, widened_kind};
use crate::limits::within_limits;
use crate::reach::Reach;
use crate::typed::Typed;
use coverage::{Domain, TOO_MANY};
use syntax::Fold;

/// The domain of iterators: their words are `fresh`, their axes their own, their points not too many.
pub fn iterators_rule(fresh: bool, reach: Reach, place: usize) -> Result<Domain, CheckFault>
    ensures { (g : Ranges) (is : List Iterator) → Goes is reach → fresh ≡ new_words is g → told_domain result ≡ iterators_rule g is place }
{
    ensure(fresh, CheckFault::Unbound(place))?;
    ensure(reach.own, CheckFault::Outside(place))?;
    let few = reach.domain.cells() < TOO_MANY;
    ensure(few, CheckFault::ManyCells(place))?;
    Ok(reach.domain)
}

/// Whether the body of a condense form fits: of the kind that the operator takes, without axes.
fn body_fits(o: Fold, body: Typed) -> bool
    ensures { result ≡ body_fits o (extents body.domain) body.kind }
{
    fits_as(fold_expects(o), body.kind) && is_single(body.domain)
}

/// Whether its `where` fits: a truth without axes.
fn where_fits(test: Typed) -> bool
    ensures { result ≡ where_fits (extents test.domain) test.kind }
{
    fits_as(Expected::Truth, test.kind) && is_single(test.domain)
}

/// A condense form over all points of its iterators' domain, or over those where its `where` holds.
pub fn condense_rule(
    o: Fold,
    over: Domain,
    test: Option<Accepted>,
    body: Accepted,
    place: usize,
) -> Result<Typed, CheckFault>
    requires { cells (extents over) ≤ most_cells }
    ensures { told result ≡ either_condense_rule o (cells (extents over)) (option_map (λ (t : Accepted). part_of t.typed) test) (part_of body.typed) place }
{
    let fits = test.is_none_or(|test| where_fits(test.typed)) && body_fits(o, body.typed);
    ensure(fits, CheckFault::Unfit(place))?;
    let n = cells_of(over);
    let kind = fold_kind(o, n, body);
    let reads = body.typed.promise;
    let (kind, reads) = match test {
        Some(test) => (widened_kind(o, kind), test.typed.promise + reads),
        None => (kind, reads),
    };
    let typed = Typed {
        domain: NO_AXES,
        kind,
        promise: n as u64 * reads,
    };
    within_limits(typed, place)
}

/// A coverage form has its iterators' domain; its body has no axes.
pub fn form_rule(over: Domain, body: Typed, place: usize) -> Result<Typed, CheckFault>
    ensures { told result ≡ form_rule (extents over) (part_of body) place }
{
    ensure(is_single(body.domain), CheckFault::Unfit(place))?;
    Ok(Typed {
        domain: over,
        ..body
    })
}
