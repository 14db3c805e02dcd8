ghost use Rattle.coverage.specs.Axes.{cells as cells_of, extents};
ghost use Rattle.coverage.specs.Limits.{few};
ghost use Rattle.shelf.specs.Meaning.{answer_of};
ghost use Rattle.shelf_laws.specs.Grid.{MadeGrid, grid_meaning, null};
ghost use Rattle.shelf_laws.specs.Making.{grid_fault};
ghost use Rattle.shelf_laws.specs.Single.{Described};
ghost use Rattle.std.specs.Prelude.{◌≡◌, if◌then◌else◌, length, replicate, Ok, Err};

use crate::grid::{Grid, NULL};
use crate::single::Single;
use coverage::{Description, Domain, Kind, Name, TOO_MANY};
use shelf::MakingFault;
use shelf_laws::Rows;

/// How many cells a domain has, where they are not too many.
pub(crate) fn count_cells(domain: Domain) -> Result<usize, MakingFault>
    ensures { result ≡ (if few (extents domain) then Ok (cells_of (extents domain)) else Err MakingFault.ManyCells) }
{
    let cells = domain.cells();
    if cells == TOO_MANY {
        return Err(MakingFault::ManyCells);
    }
    Ok(cells)
}

/// The description of a grid that is asked for, or why its making is refused.
pub(crate) fn describe_grid(
    name: &[u8],
    domain: Domain,
    kind: Kind,
    receives: bool,
    length: usize,
) -> Result<Description, MakingFault>
    ensures { Described (grid_fault name.now (extents domain) kind length) name.now domain kind receives result }
{
    let name = Name::new(name).ok_or(MakingFault::NoName)?;
    if !(domain.is_bounded() && kind.is_ordered()) {
        return Err(MakingFault::OutOfBounds);
    }
    if !kind.is_narrow() {
        return Err(MakingFault::WideSpan);
    }
    let cells = count_cells(domain)?;
    if length != cells {
        return Err(MakingFault::WrongLength { wanted: cells });
    }
    Ok(Description {
        name,
        domain,
        kind,
        receives,
    })
}

/// The call before the making of a received grid: why it is refused, or nothing. The length is that of
/// the memory to be lent.
pub fn check_grid(name: &[u8], domain: Domain, kind: Kind, length: usize) -> Result<(), MakingFault>
    ensures { result ≡ answer_of (grid_fault name.now (extents domain) kind length) }
{
    describe_grid(name, domain, kind, true, length).map(|_| ())
}

/// Makes each cell null.
fn blank(cells: &mut [i32])
    ensures { cells.new ≡ replicate (length cells.old) null }
{
    cells.fill(NULL);
}

/// A received grid in the caller's cells, all null; against a refusal, one without a coverage, the
/// memory left as it was.
pub fn make_grid<'a>(name: &[u8], domain: Domain, kind: Kind, cells: &'a mut [i32]) -> Grid<'a>
    ensures { MadeGrid (grid_fault name.now (extents domain) kind (length cells.old)) name.now domain kind (grid_meaning result.about result.cells.lent.now) cells.old result.cells.lent.now }
{
    let about = describe_grid(name, domain, kind, true, cells.len()).ok();
    if about.is_some() {
        blank(cells);
    }
    Single {
        about,
        cells: Rows { lent: cells },
    }
}
