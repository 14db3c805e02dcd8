ghost use Rattle.coverage.specs.Axes.{coordinates, extents, inside_b};
ghost use Rattle.coverage.specs.declared.description.Description.{Description as ADescription};
ghost use Rattle.shelf.specs.Laws.{LawfulCoverage};
ghost use Rattle.shelf.specs.Meaning.{settled};
ghost use Rattle.shelf_laws.specs.Single.{CellsOf};
ghost use Rattle.std.specs.Prelude.{◌≡◌, Bool, true, false};

use coverage::{Description, Point};

/// The cells of the one coverage that a shelf has.
pub trait Cells {
    ghost cells: { Self → CellsOf };

    /// What a shelf keeps of the cells and of what is said of their coverage.
    ghost keeps: { Self → ADescription → Bool };

    /// Such a coverage is lawful.
    ghost coverage_lawful: { (s : Self) (a : ADescription) → keeps s a ≡ true → LawfulCoverage (record { about = a; cell = cells s (extents a.domain) }) };

    /// The cell at a point inside the coverage.
    fn cell(&self, about: Description, at: Point) -> Option<i32>
        requires kept { keeps self.now about ≡ true }
        requires inside { inside_b (extents about.domain) (coordinates at) ≡ true }
        ensures { result ≡ cells self.now (extents about.domain) (settled (extents about.domain) (coordinates at)) };
}

/// Cells that take no strips.
pub trait FixedCells: Cells {
    ghost fixed: { (s : Self) (a : ADescription) → Self.keeps s a ≡ true → a.receives ≡ false };
}
