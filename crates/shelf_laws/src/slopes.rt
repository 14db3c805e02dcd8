ghost use Rattle.shelf_laws.specs.Ramp.{all_mild, gradient, is_mild};
ghost use Rattle.std.specs.Prelude.{◌≡◌};

use coverage::{AXES, PerAxis};

/// How much a ramp rises with each step along an axis.
pub type Slopes = PerAxis<i64>;

/// The steepest slope, up or down.
const STEEPEST: i64 = 100;

/// Whether a slope lies within ±100.
fn is_mild(slope: i64) -> bool
    ensures { result ≡ is_mild slope }
{
    -STEEPEST <= slope && slope <= STEEPEST
}

/// Whether each slope lies within ±100, those of absent axes too.
pub fn are_mild(slopes: Slopes) -> bool
    ensures { result ≡ all_mild (gradient slopes) }
{
    AXES.iter().all(|axis| is_mild(slopes.on(*axis)))
}
