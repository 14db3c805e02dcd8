ghost use Rattle.shelf_laws.proofs.ByteGrids.{byte_lawful, bytes_fixed};
ghost use Rattle.shelf_laws.specs.ByteGrid.{byte_cells, byte_keeps, byte_value};
ghost use Rattle.std.specs.Prelude.{◌≡◌};

use crate::cells::{Cells, FixedCells};
use crate::single::Single;
use coverage::{Description, Point};

/// A byte grid: one fixed coverage in the caller's bytes, row after row in the order of strips, of span
/// 0 to 254, byte 255 being null.
pub type ByteGrid<'a> = Single<&'a [u8]>;

/// The byte that stands for null.
const NULL: u8 = 255;

/// The value of a byte, or none where it is null.
fn byte_value(byte: u8) -> Option<i32>
    ensures { result ≡ byte_value byte }
{
    if byte == NULL {
        None
    } else {
        Some(i32::from(byte))
    }
}

impl<'a> Cells for &'a [u8] {
    ghost cells = { λ bytes. byte_cells bytes.now };

    ghost keeps = { λ bytes. byte_keeps bytes.now };

    ghost coverage_lawful = { λ bytes a h. byte_lawful a bytes.now h };

    fn cell(&self, about: Description, at: Point) -> Option<i32> {
        let i = about.domain.cell_number(at);
        byte_value(self[i])
    }
}

impl<'a> FixedCells for &'a [u8] {
    ghost fixed = { λ bytes a h. bytes_fixed a bytes.now h };
}
