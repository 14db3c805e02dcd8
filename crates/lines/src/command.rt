use coverage::{Domain, Kind, Point};

/// What a line asks for. Numbers are as far as they can be told: a larger one is the largest.
#[derive(Clone, Copy)]
pub enum Command<'a> {
    /// A grid is to be made.
    Grid(&'a [u8], Domain, Kind),
    /// A strip for a coverage; its cells as they are written.
    Strip(usize, usize, &'a [u8]),
    /// A cell of a coverage.
    Look(usize, Point),
    /// The picture of a coverage.
    Show(usize),
    /// A query to be checked into a plan.
    Check(usize, &'a [u8]),
    /// A plan to be run.
    Run(usize),
    /// The list of the forms.
    Help,
}
