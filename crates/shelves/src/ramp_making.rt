ghost use Rattle.coverage.specs.Axes.{extents};
ghost use Rattle.shelf.specs.Meaning.{answer_of};
ghost use Rattle.shelf_laws.specs.Ramp.{SpanIsExact, gradient, ramp_cells, ramp_fault, ramp_kind, ramp_meaning};
ghost use Rattle.shelf_laws.specs.RampMaking.{DescribedRamp};
ghost use Rattle.shelf_laws.specs.Single.{MadeFixed};
ghost use Rattle.std.specs.Prelude.{◌≡◌, None};

use crate::grid_making::count_cells;
use crate::ramp::Ramp;
use crate::single::Single;
use coverage::{Description, Domain, Kind, Name};
use shelf::MakingFault;
use shelf_laws::ramp::is_near;
use shelf_laws::slopes::are_mild;
use shelf_laws::{Plane, Slopes};

/// The cells of a ramp that is refused: 0 everywhere.
const FLAT: Plane = Plane {
    slopes: Slopes { x: 0, y: 0, t: 0 },
    offset: 0,
};

/// The description and the cells of a ramp that is asked for, or why its making is refused.
fn describe_ramp(
    name: &[u8],
    domain: Domain,
    slopes: Slopes,
    offset: i64,
) -> Result<(Description, Plane), MakingFault>
    ensures { DescribedRamp (ramp_fault name.now (extents domain) (gradient slopes) offset) name.now domain slopes offset result }
{
    let name = Name::new(name).ok_or(MakingFault::NoName)?;
    if !(domain.is_bounded() && are_mild(slopes) && is_near(offset)) {
        return Err(MakingFault::OutOfBounds);
    }
    let plane = Plane { slopes, offset };
    count_cells(domain)?;
    let about = Description {
        name,
        domain,
        kind: Kind::Number(plane.span(domain)),
        receives: false,
    };
    Ok((about, plane))
}

/// The call before the making of a ramp: why it is refused, or nothing.
pub fn check_ramp(
    name: &[u8],
    domain: Domain,
    slopes: Slopes,
    offset: i64,
) -> Result<(), MakingFault>
    ensures { result ≡ answer_of (ramp_fault name.now (extents domain) (gradient slopes) offset) }
{
    describe_ramp(name, domain, slopes, offset).map(|_| ())
}

/// A ramp; against a refusal, one without a coverage. Its span is exact: every cell lies in it, and both
/// of its ends are reached.
pub fn make_ramp(name: &[u8], domain: Domain, slopes: Slopes, offset: i64) -> Ramp
    ensures made { MadeFixed (ramp_fault name.now (extents domain) (gradient slopes) offset) name.now domain (ramp_kind (gradient slopes) offset (extents domain)) (ramp_cells (gradient slopes) offset) (ramp_meaning result.about (gradient result.cells.slopes) result.cells.offset) }
    ensures span { ramp_fault name.now (extents domain) (gradient slopes) offset ≡ None → SpanIsExact (gradient slopes) offset (extents domain) }
{
    let Ok((about, plane)) = describe_ramp(name, domain, slopes, offset) else {
        return Single {
            about: None,
            cells: FLAT,
        };
    };
    Single {
        about: Some(about),
        cells: plane,
    }
}
