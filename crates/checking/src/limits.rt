// The limits that every construct is held to last: its span, and its promise for a cell.
#![tactic(auto, unfolding(language::specs::Faults::limits_fault))]

ghost use Rattle.checking.specs.Rules.{accepts};
ghost use Rattle.checking.specs.Told.{part_of, told};
ghost use Rattle.language.specs.Faults.{limits_fault, most_reads, unless};
ghost use Rattle.std.specs.Prelude.{◌≡◌, nat_le};

use crate::fault::{CheckFault, ensure};
use crate::typed::Typed;

/// The highest promise that is accepted.
const MOST_READS: u64 = 16000000;

/// Refuses a promise that is too high.
pub(crate) fn within_reads(t: Typed, place: usize) -> Result<Typed, CheckFault>
    ensures { told result ≡ accepts (unless (nat_le t.promise most_reads) 11 place) (part_of t) }
{
    ensure(t.promise <= MOST_READS, CheckFault::HighPromise(place))?;
    Ok(t)
}

/// Refuses a span beyond the bounds, then a promise that is too high.
pub(crate) fn within_limits(t: Typed, place: usize) -> Result<Typed, CheckFault>
    ensures { told result ≡ accepts (limits_fault t.kind t.promise place) (part_of t) }
{
    ensure(t.kind.is_narrow(), CheckFault::WideSpan(place))?;
    within_reads(t, place)
}
