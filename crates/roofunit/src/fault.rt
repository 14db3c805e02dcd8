use coverage::Refusal;
use shelf::{MakingFault, ShelfFault};
use std::fmt;

/// Why a line is refused.
#[derive(Clone, Copy, Debug)]
pub enum Fault {
    Making(MakingFault),
    Shelf(ShelfFault),
}

/// The fault as it is told.
impl From<Fault> for Refusal {
    ghost use Rattle.roofunit.specs.Faults.{refusal_of};
    ghost use Rattle.std.specs.Prelude.{◌≡◌};

    ghost from_gives = { λ fault told. told ≡ refusal_of fault };

    fn from(fault: Fault) -> Refusal {
        match fault {
            Fault::Making(cause) => Refusal::from(cause),
            Fault::Shelf(cause) => Refusal::from(cause),
        }
    }
}

/// The reason in a sentence for people.
impl fmt::Display for Fault {
    ghost use Rattle.roofunit.specs.Faults.{sentence};
    ghost use Rattle.std.specs.Prelude.{Some};

    ghost output = { λ fault. Some (sentence fault) };

    fn fmt<W: fmt::Write>(&self, f: &mut fmt::Formatter<W>) -> fmt::Result {
        match self {
            Fault::Making(cause) => write!(f, "{cause}"),
            Fault::Shelf(cause) => write!(f, "{cause}"),
        }
    }
}
