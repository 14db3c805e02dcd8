use std::fmt;

/// The layer that refuses a call.
#[derive(Clone, Copy, Debug, PartialEq, Eq)]
pub enum Layer {
    Text,
    Check,
    Run,
    Shelf,
}

/// The numbers that go with a refusal: a place or a length, or a coverage and a strip.
#[derive(Clone, Copy, Debug, PartialEq, Eq)]
pub enum Returned {
    One(usize),
    Two(usize, usize),
}

/// A refusal as it is told: the layer, the number of the cause, and what is returned with it.
// The number is the format: the causes are the enums of faults, and each has the number that docs/refusals.md tells.
#[derive(Clone, Copy, Debug, PartialEq, Eq)]
pub struct Refusal {
    pub layer: Layer,
    pub number: u32,
    pub returned: Returned,
}

/// The word of a layer.
impl fmt::Display for Layer {
    ghost use Rattle.coverage.specs.Written.{layer_word};
    ghost use Rattle.std.specs.Prelude.{Some};

    ghost output = { λ layer. Some (layer_word layer) };

    fn fmt<W: fmt::Write>(&self, f: &mut fmt::Formatter<W>) -> fmt::Result {
        f.write_str(match self {
            Layer::Text => "text",
            Layer::Check => "check",
            Layer::Run => "run",
            Layer::Shelf => "shelf",
        })
    }
}

/// The returned numbers with a blank between them.
impl fmt::Display for Returned {
    ghost use Rattle.coverage.specs.Written.{returned_words};
    ghost use Rattle.std.specs.Prelude.{Some};

    ghost output = { λ returned. Some (returned_words returned) };

    fn fmt<W: fmt::Write>(&self, f: &mut fmt::Formatter<W>) -> fmt::Result {
        match self {
            Returned::One(n) => write!(f, "{n}"),
            Returned::Two(a, b) => write!(f, "{a} {b}"),
        }
    }
}

/// `(refused shelf 19 0 1)`: the layer, the number of the cause, what is returned.
impl fmt::Display for Refusal {
    ghost use Rattle.coverage.specs.Written.{refusal_line};
    ghost use Rattle.std.specs.Prelude.{Some};

    ghost output = { λ refusal. Some (refusal_line refusal) };

    fn fmt<W: fmt::Write>(&self, f: &mut fmt::Formatter<W>) -> fmt::Result {
        write!(
            f,
            "(refused {} {} {})",
            self.layer, self.number, self.returned
        )
    }
}
