ghost use Rattle.coverage.specs.Limits.{describable};
ghost use Rattle.shelf.specs.Meaning.{all_fit, answer_of, shape_fault};
ghost use Rattle.coverage.specs.Kinds.{fits};
ghost use Rattle.coverage.specs.Axes.{extents};
ghost use Rattle.coverage.specs.Strips.{row_width};
ghost use Rattle.std.specs.Prelude.{◌≡◌, true, ◌&&◌, length, ◌==◌};

use crate::fault::ShelfFault;
use coverage::{Description, Kind};

/// Whether a cell is a value of a kind.
pub fn is_fit(kind: Kind, v: i32) -> bool
    ensures { result ≡ fits kind v }
{
    kind.fits(i64::from(v))
}

/// Whether each of some cells is a value of a kind.
pub fn all_fit(kind: Kind, cells: &[i32]) -> bool
    ensures { result ≡ all_fit kind cells.now }
{
    cells.iter().all(|v| is_fit(kind, *v))
}

/// Whether cells are as many as a row has, each of the kind.
fn is_row(about: Description, cells: &[i32]) -> bool
    requires { describable about ≡ true }
    ensures { result ≡ (length cells.now == row_width (extents about.domain) && all_fit about.kind cells.now) }
{
    cells.len() == about.domain.row_width() && all_fit(about.kind, cells)
}

/// Why a strip does not fit a coverage, or nothing: the coverage is fixed, it has no such strip, the
/// strip has a wrong length or a cell outside the kind.
pub fn check_shape(
    about: Description,
    coverage: usize,
    strip: usize,
    cells: &[i32],
) -> Result<(), ShelfFault>
    requires { describable about ≡ true }
    ensures { result ≡ answer_of (shape_fault about coverage strip cells.now) }
{
    if !about.receives {
        return Err(ShelfFault::Fixed { coverage, strip });
    }
    if strip >= about.domain.strips() {
        return Err(ShelfFault::NoStrip { coverage, strip });
    }
    if !is_row(about, cells) {
        return Err(ShelfFault::Unfit { coverage, strip });
    }
    Ok(())
}
