/// The axes that a domain may have.
#[derive(Clone, Copy, Debug, PartialEq, Eq)]
pub enum Axis {
    X,
    Y,
    T,
}

/// The axes, innermost first: the order in which cells stand.
pub const AXES: [Axis; 3] = [Axis::X, Axis::Y, Axis::T];

/// The axes across a row, innermost first: the order in which strips are numbered.
pub const ACROSS: [Axis; 2] = [Axis::Y, Axis::T];
