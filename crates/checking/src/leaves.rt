// The rules of constructs without operands: numerals, truth words, names and iterators.
#![tactic(auto, unfolding(language::specs::Faults::iterator_fault, language::specs::Faults::name_fault))]

ghost use Rattle.coverage.specs.Axes.{no_extents};
ghost use Rattle.checking.specs.Rules.{announce, iterator_rule, name_rule, numeral_rule, truth_rule};
ghost use Rattle.checking.specs.Told.{about_of, part_of, told};
ghost use Rattle.std.specs.Option.{option_map};
ghost use Rattle.std.specs.Prelude.{◌≡◌, Ok};

use crate::domains::NO_AXES;
use crate::fault::CheckFault;
use crate::typed::Typed;
use coverage::{Description, Kind, Range};

/// A single value of a kind, worked out with no look at a cell.
fn unread(kind: Kind) -> Typed
    ensures { part_of result ≡ announce no_extents kind 0 }
{
    Typed {
        domain: NO_AXES,
        kind,
        promise: 0,
    }
}

/// A numeral spans its value.
pub fn numeral_rule(n: u32) -> Typed
    ensures { Ok (part_of result) ≡ numeral_rule n }
{
    let value = i64::from(n);
    unread(Kind::Number(Range {
        lo: value,
        hi: value,
    }))
}

/// A truth word.
pub fn truth_rule() -> Typed
    ensures { Ok (part_of result) ≡ truth_rule }
{
    unread(Kind::Truth)
}

/// A `$` name is the coverage that it stands for, if it stands for one.
pub fn name_rule(about: Option<Description>, place: usize) -> Result<Typed, CheckFault>
    ensures { told result ≡ name_rule (option_map about_of about) place }
{
    let coverage = about.ok_or(CheckFault::Unbound(place))?;
    Ok(Typed {
        domain: coverage.domain,
        kind: coverage.kind,
        promise: 1,
    })
}

/// An iterator's word is a number of the range that it goes through, if a form around has it.
pub fn iterator_rule(range: Option<Range>, place: usize) -> Result<Typed, CheckFault>
    ensures { told result ≡ iterator_rule range place }
{
    let span = range.ok_or(CheckFault::Unbound(place))?;
    Ok(unread(Kind::Number(span)))
}
