ghost use Rattle.coverage.specs.Kinds.{fits, high, low};
ghost use Rattle.coverage.specs.Limits.{kind_narrow, kind_ordered};
ghost use Rattle.std.specs.Prelude.{◌≡◌};

use crate::range::Range;

/// What values are: truths, which stand as 0 and 1, or numbers within a span.
#[derive(Clone, Copy)]
pub enum Kind {
    Truth,
    Number(Range),
}

/// The farthest value of a kind, on either side of 0.
const WIDEST: i64 = 2147483647;

impl Kind {
    /// The lowest value of the kind.
    pub fn low(self) -> i64
        ensures { result ≡ low self }
    {
        match self {
            Kind::Truth => 0,
            Kind::Number(span) => span.lo,
        }
    }

    /// The highest value of the kind.
    pub fn high(self) -> i64
        ensures { result ≡ high self }
    {
        match self {
            Kind::Truth => 1,
            Kind::Number(span) => span.hi,
        }
    }

    /// Whether a value is of the kind.
    pub fn fits(self, v: i64) -> bool
        ensures { result ≡ fits self v }
    {
        self.low() <= v && v <= self.high()
    }

    /// Whether the lowest value is not above the highest.
    pub fn is_ordered(self) -> bool
        ensures { result ≡ kind_ordered self }
    {
        self.low() <= self.high()
    }

    /// Whether all values lie within ±2,147,483,647.
    pub fn is_narrow(self) -> bool
        ensures { result ≡ kind_narrow self }
    {
        -WIDEST <= self.low() && self.high() <= WIDEST
    }
}
