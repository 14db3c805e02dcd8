ghost use Rattle.shelf_laws.proofs.Grids.{grid_lawful, kept_from};
ghost use Rattle.shelf_laws.specs.Grid.{grid_cells, grid_keeps, known};
ghost use Rattle.std.specs.Prelude.{◌≡◌};

use crate::cells::Cells;
use crate::single::{Single, held};
use coverage::{Description, Point};
use shelf::fit::check_shape;
use shelf::{ReceivingShelf, ShelfFault};
use shelf_laws::Rows;

/// A received grid: one receiving coverage in the caller's cells, row after row in the order of strips,
/// null standing as -2,147,483,648.
pub type Grid<'a> = Single<Rows<'a>>;

/// The cell that stands for null.
pub(crate) const NULL: i32 = -2147483648;

/// The value of a cell, or none where it is null.
fn known(v: i32) -> Option<i32>
    ensures { result ≡ known v }
{
    if v == NULL { None } else { Some(v) }
}

impl<'a> Cells for Rows<'a> {
    ghost cells = { λ rows. grid_cells rows.lent.now };

    ghost keeps = { λ rows. grid_keeps rows.lent.now };

    ghost coverage_lawful = { λ rows a h. grid_lawful a rows.lent.now (kept_from a rows.lent.now h) };

    fn cell(&self, about: Description, at: Point) -> Option<i32> {
        let i = about.domain.cell_number(at);
        known(self.lent[i])
    }
}

impl<'a> ReceivingShelf for Single<Rows<'a>> {
    fn strip(&mut self, coverage: usize, strip: usize, cells: &[i32]) -> Result<(), ShelfFault> {
        let about = held(self.about, coverage, strip)?;
        check_shape(about, coverage, strip, cells)?;
        let at = about.domain.strip_start(strip);
        if self.cells.lent[at] != NULL {
            return Err(ShelfFault::AlreadyThere { coverage, strip });
        }
        self.cells.put(at, cells);
        Ok(())
    }
}
