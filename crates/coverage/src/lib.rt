// Coverages by their parts: axes, ranges, domains, points, kinds, names, descriptions, and how a
// refusal is told. What each part means is in specs/.
#![tactic(auto)]

pub mod axis;
pub mod description;
pub mod domain;
pub mod kind;
pub mod name;
pub mod per_axis;
pub mod range;
pub mod refusal;
pub mod strips;

pub use axis::{ACROSS, AXES, Axis};
pub use description::Description;
pub use domain::{Domain, ORIGIN, Point};
pub use kind::Kind;
pub use name::Name;
pub use per_axis::PerAxis;
pub use range::{Range, TOO_MANY};
pub use refusal::{Layer, Refusal, Returned};
