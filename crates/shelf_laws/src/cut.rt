ghost use Rattle.shelf_laws.specs.Window.{axis_fits, cut_domain, cut_fits, cut_range};
ghost use Rattle.coverage.specs.Axes.{extents};
ghost use Rattle.std.specs.Prelude.{◌≡◌};

use coverage::{AXES, Axis, Description, Domain, Range};

/// What a window cuts a coverage to: a range of y and one of t, ignored where the axis is absent.
#[derive(Clone, Copy)]
pub struct Cut {
    pub y: Range,
    pub t: Range,
}

impl Cut {
    /// The range that an axis is cut to; x is not cut.
    pub fn on(self, axis: Axis) -> Option<Range>
        ensures { result ≡ cut_range self axis }
    {
        match axis {
            Axis::X => None,
            Axis::Y => Some(self.y),
            Axis::T => Some(self.t),
        }
    }

    /// Whether the cut lies inside a domain: on each axis that is there and cut, its ends are in order
    /// and inside.
    pub fn fits(self, domain: Domain) -> bool
        ensures { result ≡ cut_fits (extents domain) self }
    {
        AXES.iter()
            .all(|axis| fits_axis(domain.on(*axis), self.on(*axis)))
    }

    /// The domain with the cut made.
    pub fn of(self, domain: Domain) -> Domain
        ensures { result ≡ cut_domain domain self }
    {
        Domain {
            y: domain.y.and(Some(self.y)),
            t: domain.t.and(Some(self.t)),
            ..domain
        }
    }
}

/// Whether a cut lies inside an axis.
fn fits_axis(axis: Option<Range>, cut: Option<Range>) -> bool
    ensures { result ≡ axis_fits axis cut }
{
    match (axis, cut) {
        (Some(whole), Some(part)) => part.is_ordered()
            && whole.lo <= part.lo
            && part.hi <= whole.hi,
        _ => true,
    }
}

/// What a window shows: the domain of the whole coverage below, and the description cut.
#[derive(Clone, Copy)]
pub struct View {
    pub whole: Domain,
    pub about: Description,
}
