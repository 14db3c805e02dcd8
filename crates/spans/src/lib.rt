//! The spans of results, as code. Every function answers what the definitions of the query language say:
//! those that reckon with the ends of a span take it within the bounds, so that no result leaves 64 bits.
#![tactic(auto)]

pub mod arithmetic;
pub mod shapes;
pub mod span;

pub use arithmetic::corners;
pub use shapes::{holds_zero, hull, magnitude, negation, times, with_zero};
pub use span::Span;
