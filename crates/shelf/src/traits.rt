ghost use Rattle.std.specs.Prelude.{◌≡◌, ℕ, List, length};
ghost use Rattle.coverage.specs.Axes.{coordinates};
ghost use Rattle.shelf.specs.Laws.{Lawful};
ghost use Rattle.shelf.specs.Meaning.{Coverage, describe_answer, find_answer, look_answer, strip_after, strip_answer};

use crate::fault::ShelfFault;
use coverage::{Description, Point};

/// A shelf, by its meaning: the list of its coverages. None of its calls changes anything.
pub trait Shelf {
    ghost meaning: { Self → List Coverage };

    ghost lawful: { (s : Self) → Lawful (meaning s) };

    /// How many coverages there are.
    fn count(&self) -> usize
        ensures { result ≡ length (meaning self.now) };

    /// All that is said of a coverage but its cells.
    fn describe(&self, coverage: usize) -> Result<Description, ShelfFault>
        ensures { result ≡ describe_answer (meaning self.now) coverage };

    /// The lowest number of a coverage with this name, or none.
    fn find(&self, name: &[u8]) -> Option<usize>
        ensures { result ≡ find_answer (meaning self.now) name.now };

    /// The value of a cell, or none where it is null; the coordinate of an absent axis is ignored.
    fn look(&self, coverage: usize, at: Point) -> Result<Option<i32>, ShelfFault>
        ensures { result ≡ look_answer (meaning self.now) coverage (coordinates at) };
}

/// A shelf that besides takes strips.
pub trait ReceivingShelf: Shelf {
    /// Puts cells into the row that the strip's number names; a refusal changes nothing.
    fn strip(&mut self, coverage: usize, strip: usize, cells: &[i32]) -> Result<(), ShelfFault>
        ensures answer { result ≡ strip_answer (Self.Shelf.meaning self.old) coverage strip cells.now }
        ensures after { Self.Shelf.meaning self.new ≡ strip_after (Self.Shelf.meaning self.old) coverage strip cells.now };
}
