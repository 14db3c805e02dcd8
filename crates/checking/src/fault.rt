ghost use Rattle.std.specs.Prelude.{◌≡◌, Ok, Err, if◌then◌else◌};
ghost use Rattle.checking.specs.Told.{refusal_of};

use coverage::{Layer, Refusal, Returned};

/// Why the check refuses a construct, with the byte where the construct begins.
#[derive(Clone, Copy, Debug, PartialEq, Eq)]
pub enum CheckFault {
    /// A word that stands for nothing, or that is bound twice.
    Unbound(usize),
    /// An axis missing or twice, a lowest above its highest, a trim or a position outside.
    Outside(usize),
    /// Kinds or domains that do not fit.
    Unfit(usize),
    /// The divisor's span holds 0.
    ZeroDivisor(usize),
    /// A span beyond the bounds.
    WideSpan(usize),
    /// Too many points to go through.
    ManyCells(usize),
    /// A promise that is too high.
    HighPromise(usize),
}

impl From<CheckFault> for Refusal {
    ghost from_gives = { λ fault refusal. refusal ≡ refusal_of fault };

    /// The fault as it is told.
    fn from(fault: CheckFault) -> Refusal {
        let (number, place) = match fault {
            CheckFault::Unbound(place) => (5, place),
            CheckFault::Outside(place) => (6, place),
            CheckFault::Unfit(place) => (7, place),
            CheckFault::ZeroDivisor(place) => (8, place),
            CheckFault::WideSpan(place) => (9, place),
            CheckFault::ManyCells(place) => (10, place),
            CheckFault::HighPromise(place) => (11, place),
        };
        Refusal {
            layer: Layer::Check,
            number,
            returned: Returned::One(place),
        }
    }
}

/// A fault, unless a test holds.
pub(crate) fn ensure(holds: bool, fault: CheckFault) -> Result<(), CheckFault>
    ensures { result ≡ (if holds then Ok tt else Err fault) }
{
    holds.then_some(()).ok_or(fault)
}
