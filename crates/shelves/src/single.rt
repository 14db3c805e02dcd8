ghost use Rattle.coverage.specs.Axes.{coordinates};
ghost use Rattle.shelf_laws.proofs.Singles.{kept_by, single_lawful};
ghost use Rattle.shelf_laws.specs.Single.{held as held_at, reached, single};
ghost use Rattle.std.specs.Option.{option_map_or};
ghost use Rattle.std.specs.Prelude.{◌≡◌, true};

use crate::cells::{Cells, FixedCells};
use coverage::{Description, Point};
use shelf::{ReceivingShelf, Shelf, ShelfFault};

/// A shelf of one coverage, which has number 0. Made against a refusal it has none.
#[derive(Drop)]
pub struct Single<C: Cells> {
    pub(crate) about: Option<Description>,
    pub(crate) cells: C,
    ghost kept: { option_map_or (C.keeps cells) about true ≡ true },
}

/// The coverage that a call names.
pub(crate) fn held(
    about: Option<Description>,
    coverage: usize,
    strip: usize,
) -> Result<Description, ShelfFault>
    ensures { result ≡ held_at about coverage strip }
{
    about
        .filter(|_| coverage == 0)
        .ok_or(ShelfFault::NoCoverage { coverage, strip })
}

/// The coverage that a look reaches: the one it names, with the point inside.
fn reach(about: Option<Description>, coverage: usize, at: Point) -> Result<Description, ShelfFault>
    ensures { result ≡ reached about coverage (coordinates at) }
{
    let about = held(about, coverage, 0)?;
    if !about.domain.contains(at) {
        return Err(ShelfFault::Outside { coverage });
    }
    Ok(about)
}

impl<C: Cells> Shelf for Single<C> {
    ghost meaning = { λ s. single s.about (C.cells s.cells) };

    ghost lawful = { λ s. single_lawful s.about (C.cells s.cells) (λ a is. C.coverage_lawful s.cells a (kept_by (C.keeps s.cells) s.about a s.kept is)) };

    fn count(&self) -> usize {
        usize::from(self.about.is_some())
    }

    fn describe(&self, coverage: usize) -> Result<Description, ShelfFault> {
        held(self.about, coverage, 0)
    }

    fn find(&self, name: &[u8]) -> Option<usize> {
        let about = self.about?;
        about.name.is(name).then_some(0)
    }

    #[inline(always)]
    fn look(&self, coverage: usize, at: Point) -> Result<Option<i32>, ShelfFault> {
        let about = reach(self.about, coverage, at)?;
        Ok(self.cells.cell(about, at))
    }
}

impl<C: FixedCells> ReceivingShelf for Single<C> {
    fn strip(&mut self, coverage: usize, strip: usize, cells: &[i32]) -> Result<(), ShelfFault> {
        held(self.about, coverage, strip)?;
        Err(ShelfFault::Fixed { coverage, strip })
    }
}
