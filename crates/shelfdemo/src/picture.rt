use coverage::range::{coordinates, lowest};
use coverage::{Domain, Point};
use shelf::Shelf;
use std::io;

/// Prints a cell in a column, a dot for null.
fn print_cell(rt: &HostRuntime, cell: Option<i32>) -> io::Result<()> {
    match cell {
        Some(v) => print!(rt; " {v:>3}"),
        None => print!(rt; "   ."),
    }
}

/// Prints a row of cells after its y.
fn print_row<S: Shelf>(
    rt: &HostRuntime,
    shelf: &S,
    coverage: usize,
    domain: Domain,
    y: i64,
) -> io::Result<()> {
    print!(rt; "y {y}:")?;
    for x in coordinates(domain.x) {
        let at = Point {
            x,
            y,
            t: lowest(domain.t),
        };
        print_cell(rt, shelf.look(coverage, at).unwrap_or(None))?;
    }
    println!(rt)
}

/// Prints a coverage at its lowest t, a row a line, the lowest y first.
pub fn picture<S: Shelf>(rt: &HostRuntime, shelf: &S, coverage: usize) -> io::Result<()> {
    let Ok(about) = shelf.describe(coverage) else {
        return println!(rt; "nothing");
    };
    for y in coordinates(about.domain.y) {
        print_row(rt, shelf, coverage, about.domain, y)?;
    }
    Ok(())
}
