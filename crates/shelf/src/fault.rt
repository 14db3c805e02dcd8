ghost use Rattle.coverage.specs.declared.refusal.Layer.TheVariants.{Shelf as ShelfLayer};
ghost use Rattle.shelf.specs.Faults.{renumbered};
ghost use Rattle.std.specs.Prelude.{◌≡◌};

use coverage::{Layer, Refusal, Returned};
use std::error::Error;
use std::fmt;

/// Why a call of a shelf is refused: the coverage and the strip that the call named, 0 where it names no strip.
// They stay two fields: the traits' calls take them apart, and a struct would be made at each fault.
#[derive(Clone, Copy, Debug, PartialEq, Eq)]
pub enum ShelfFault {
    NoCoverage { coverage: usize, strip: usize },
    Outside { coverage: usize },
    Fixed { coverage: usize, strip: usize },
    NoStrip { coverage: usize, strip: usize },
    Unfit { coverage: usize, strip: usize },
    AlreadyThere { coverage: usize, strip: usize },
}

/// Why the making of a shelf is refused.
#[derive(Clone, Copy, Debug, PartialEq, Eq)]
pub enum MakingFault {
    NoName,
    OutOfBounds,
    WideSpan,
    ManyCells,
    /// The memory has another length than this.
    WrongLength { wanted: usize },
    /// There is no such coverage below.
    NoCoverage { coverage: usize },
}

impl ShelfFault {
    /// The same fault, told under another coverage's and another strip's number.
    pub fn renumbered(self, coverage: usize, strip: usize) -> ShelfFault
        ensures { result ≡ renumbered self coverage strip }
    {
        match self {
            ShelfFault::NoCoverage { .. } => ShelfFault::NoCoverage { coverage, strip },
            ShelfFault::Outside { .. } => ShelfFault::Outside { coverage },
            ShelfFault::Fixed { .. } => ShelfFault::Fixed { coverage, strip },
            ShelfFault::NoStrip { .. } => ShelfFault::NoStrip { coverage, strip },
            ShelfFault::Unfit { .. } => ShelfFault::Unfit { coverage, strip },
            ShelfFault::AlreadyThere { .. } => ShelfFault::AlreadyThere { coverage, strip },
        }
    }
}

/// A refusal of the shelf's layer.
fn shelf_says(number: u32, returned: Returned) -> Refusal
    ensures { result ≡ record { layer = ShelfLayer; number = number; returned = returned } }
{
    Refusal {
        layer: Layer::Shelf,
        number,
        returned,
    }
}

/// The fault as it is told.
impl From<ShelfFault> for Refusal {
    ghost use Rattle.shelf.specs.Faults.{shelf_refusal};
    ghost use Rattle.std.specs.Prelude.{◌≡◌};

    ghost from_gives = { λ fault told. told ≡ shelf_refusal fault };

    fn from(fault: ShelfFault) -> Refusal {
        match fault {
            ShelfFault::NoCoverage { coverage, strip } => shelf_says(
                14,
                Returned::Two(coverage, strip),
            ),
            ShelfFault::Outside { coverage } => shelf_says(15, Returned::Two(coverage, 0)),
            ShelfFault::Fixed { coverage, strip } => shelf_says(16, Returned::Two(coverage, strip)),
            ShelfFault::NoStrip { coverage, strip } => shelf_says(
                17,
                Returned::Two(coverage, strip),
            ),
            ShelfFault::Unfit { coverage, strip } => shelf_says(18, Returned::Two(coverage, strip)),
            ShelfFault::AlreadyThere { coverage, strip } => shelf_says(
                19,
                Returned::Two(coverage, strip),
            ),
        }
    }
}

/// The fault as it is told.
impl From<MakingFault> for Refusal {
    ghost use Rattle.shelf.specs.Faults.{making_refusal};
    ghost use Rattle.std.specs.Prelude.{◌≡◌};

    ghost from_gives = { λ fault told. told ≡ making_refusal fault };

    fn from(fault: MakingFault) -> Refusal {
        match fault {
            MakingFault::NoName => shelf_says(5, Returned::One(0)),
            MakingFault::OutOfBounds => shelf_says(6, Returned::One(0)),
            MakingFault::WideSpan => shelf_says(9, Returned::One(0)),
            MakingFault::ManyCells => shelf_says(10, Returned::One(0)),
            MakingFault::WrongLength { wanted } => shelf_says(13, Returned::One(wanted)),
            MakingFault::NoCoverage { coverage } => shelf_says(14, Returned::Two(coverage, 0)),
        }
    }
}

/// The reason in a sentence for people.
impl fmt::Display for ShelfFault {
    ghost use Rattle.shelf.specs.Sentences.{shelf_sentence};
    ghost use Rattle.std.specs.Prelude.{Some};

    ghost output = { λ fault. Some (shelf_sentence fault) };

    fn fmt<W: fmt::Write>(&self, f: &mut fmt::Formatter<W>) -> fmt::Result {
        f.write_str(match self {
            ShelfFault::NoCoverage { .. } => "There is no coverage with this number.",
            ShelfFault::Outside { .. } => "The cell lies outside the domain of the coverage.",
            ShelfFault::Fixed { .. } => "The coverage takes no strips.",
            ShelfFault::NoStrip { .. } => "The coverage has no strip with this number.",
            ShelfFault::Unfit { .. } =>
                "The strip has not as many cells as a row, or one of them is not of the kind.",
            ShelfFault::AlreadyThere { .. } => "The strip was put before.",
        })
    }
}

impl Error for ShelfFault {}

/// The reason in a sentence for people.
impl fmt::Display for MakingFault {
    ghost use Rattle.shelf.specs.Sentences.{making_sentence};
    ghost use Rattle.std.specs.Prelude.{Some};

    ghost output = { λ fault. Some (making_sentence fault) };

    fn fmt<W: fmt::Write>(&self, f: &mut fmt::Formatter<W>) -> fmt::Result {
        f.write_str(match self {
            MakingFault::NoName =>
                "A name is a letter and up to 15 more letters, digits or underscores.",
            MakingFault::OutOfBounds =>
                "The lowest is above the highest, or a coordinate lies beyond 1,000,000 on either side of 0.",
            MakingFault::WideSpan => "A span reaches at most 2,147,483,647 on either side of 0.",
            MakingFault::ManyCells => "A grid has at most 65,536 cells.",
            MakingFault::WrongLength { .. } =>
                "The memory has another length than the cells of the grid.",
            MakingFault::NoCoverage { .. } => "There is no coverage with this number.",
        })
    }
}

impl Error for MakingFault {}
