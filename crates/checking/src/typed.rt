use coverage::{Domain, Kind};

/// What the check works out of a part: its domain, its kind, and its promise for a cell.
#[derive(Clone, Copy)]
pub struct Typed {
    pub domain: Domain,
    pub kind: Kind,
    pub promise: u64,
}
