ghost use Rattle.checking.specs.Rules.{query_rule};
ghost use Rattle.checking.specs.Told.{part_of, told};
ghost use Rattle.std.specs.Prelude.{◌≡◌};

use crate::accepted::Accepted;
use crate::fault::CheckFault;
use crate::limits::within_reads;
use crate::typed::Typed;

/// A whole query, from its outermost expression: it promises its cells times the promise for a cell.
pub fn query_rule(body: Accepted) -> Result<Typed, CheckFault>
    ensures { told result ≡ query_rule (part_of body.typed) }
{
    let typed = Typed {
        promise: body.whole_promise(),
        ..body.typed
    };
    within_reads(typed, 0)
}
