// The domain of a construct, from the domains of its operands.
ghost use Rattle.std.specs.Prelude.{◌≡◌, ◌≤◌};
ghost use Rattle.coverage.specs.Axes.{cells, extents, no_axes};
ghost use Rattle.language.specs.Faults.{domains_fit};
ghost use Rattle.language.specs.Limits.{most_cells};
ghost use Rattle.language.specs.Typing.{joint_extents};

use coverage::{AXES, Domain};

/// The domain of a single value.
pub(crate) const NO_AXES: Domain = Domain {
    x: None,
    y: None,
    t: None,
};

/// How many cells a domain has that is within the limits.
pub(crate) fn cells_of(domain: Domain) -> usize
    requires { cells (extents domain) ≤ most_cells }
    ensures { result ≡ cells (extents domain) }
{
    domain.cells()
}

/// Whether a domain has no axes: that of a single value.
pub(crate) fn is_single(domain: Domain) -> bool
    ensures { result ≡ no_axes (extents domain) }
{
    AXES.iter().all(|axis| domain.on(*axis).is_none())
}

/// Whether two domains fit: they are equal, or one has no axes.
pub(crate) fn domains_fit(d: Domain, e: Domain) -> bool
    ensures { result ≡ domains_fit (extents d) (extents e) }
{
    is_single(d) || is_single(e) || d.is_same(e)
}

/// The domain of two operands: where one has no axes, the other's.
pub(crate) fn joint(d: Domain, e: Domain) -> Domain
    ensures { extents result ≡ joint_extents (extents d) (extents e) }
{
    if is_single(d) { e } else { d }
}
