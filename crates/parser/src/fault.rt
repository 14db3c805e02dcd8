use coverage::{Layer, Refusal, Returned};

/// Why a text is refused: it is too long, a byte of it begins no token, no query begins with its tokens
/// up to a place, or it has too many constructs or expressions too deep within each other.
#[derive(Clone, Copy, Debug, PartialEq, Eq)]
pub enum TextFault {
    TooLong,
    NoToken(usize),
    NoQuery(usize),
    TooLarge,
}

/// How a fault of a text is told.
impl From<TextFault> for Refusal {
    ghost use Rattle.std.specs.Prelude.{◌≡◌};
    ghost use Rattle.parser.specs.Faults.{refusal_of};

    ghost from_gives = { λ fault refusal. refusal ≡ refusal_of fault };

    fn from(fault: TextFault) -> Refusal {
        let (number, place) = match fault {
            TextFault::TooLong => (1, 0),
            TextFault::NoToken(p) => (2, p),
            TextFault::NoQuery(p) => (3, p),
            TextFault::TooLarge => (4, 0),
        };
        Refusal {
            layer: Layer::Text,
            number,
            returned: Returned::One(place),
        }
    }
}
