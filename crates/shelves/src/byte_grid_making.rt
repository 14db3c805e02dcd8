ghost use Rattle.coverage.specs.Axes.{extents};
ghost use Rattle.shelf.specs.Meaning.{answer_of};
ghost use Rattle.shelf_laws.specs.ByteGrid.{byte_cells, byte_grid_fault, byte_kind, byte_meaning};
ghost use Rattle.shelf_laws.specs.Single.{MadeFixed};
ghost use Rattle.std.specs.Prelude.{◌≡◌, length};

use crate::byte_grid::ByteGrid;
use crate::grid_making::describe_grid;
use crate::single::Single;
use coverage::{Domain, Kind, Range};
use shelf::MakingFault;

/// The kind of every byte grid: the span 0 to 254.
const BYTES: Kind = Kind::Number(Range { lo: 0, hi: 254 });

/// The call before the making of a byte grid: why it is refused, or nothing. The length is the number of
/// bytes to be lent.
pub fn check_byte_grid(name: &[u8], domain: Domain, length: usize) -> Result<(), MakingFault>
    ensures { result ≡ answer_of (byte_grid_fault name.now (extents domain) length) }
{
    describe_grid(name, domain, BYTES, false, length).map(|_| ())
}

/// A byte grid in the caller's bytes; against a refusal, one without a coverage.
pub fn make_byte_grid<'a>(name: &[u8], domain: Domain, bytes: &'a [u8]) -> ByteGrid<'a>
    ensures { MadeFixed (byte_grid_fault name.now (extents domain) (length bytes.now)) name.now domain byte_kind (byte_cells bytes.now) (byte_meaning result.about result.cells.now) }
{
    Single {
        about: describe_grid(name, domain, BYTES, false, bytes.len()).ok(),
        cells: bytes,
    }
}
