// Windows: strips by the window's own y and t, faults in its own numbers.
use crate::calls::{Call, Case, perform_all};
use coverage::{Domain, Kind, Range};
use shelf::ReceivingShelf;
use shelf_laws::Cut;
use shelves::{make_grid, make_window};
use std::io;

const WHOLE: Domain = Domain {
    x: Some(Range { lo: 0, hi: 1 }),
    y: Some(Range { lo: 0, hi: 3 }),
    t: Some(Range { lo: 0, hi: 2 }),
};

const CUT: Cut = Cut {
    y: Range { lo: 1, hi: 2 },
    t: Range { lo: 1, hi: 2 },
};

/// Calls of a window with y 1 to 2 and t 1 to 2 on a grid with y 0 to 3 and t 0 to 2.
const SEEN: [Case<'static>; 21] = [
    Case("coverages", Call::Count),
    Case("its name", Call::Find(b"roof")),
    Case("coverage 0", Call::Describe(0)),
    Case("coverage 1", Call::Describe(1)),
    Case("strip 0", Call::Strip(0, 0, &[10, 11])),
    Case("strip 1", Call::Strip(0, 1, &[20, 21])),
    Case("strip 2", Call::Strip(0, 2, &[30, 31])),
    Case("strip 2 again", Call::Strip(0, 2, &[30, 31])),
    Case("strip 4 of 4", Call::Strip(0, 4, &[40, 41])),
    Case("strip 3 of one cell", Call::Strip(0, 3, &[40])),
    Case("strip 3 above the span", Call::Strip(0, 3, &[40, 100])),
    Case("strip 3 to coverage 1", Call::Strip(1, 3, &[40, 41])),
    Case("its lowest corner", Call::Look(0, 0, 1, 1)),
    Case("its highest y", Call::Look(0, 1, 2, 1)),
    Case("its highest t", Call::Look(0, 1, 1, 2)),
    Case("y below the cut", Call::Look(0, 0, 0, 1)),
    Case("y above the cut", Call::Look(0, 0, 3, 1)),
    Case("t below the cut", Call::Look(0, 0, 1, 0)),
    Case("t above the cut", Call::Look(0, 0, 1, 3)),
    Case("x too high", Call::Look(0, 2, 1, 1)),
    Case("look at coverage 1", Call::Look(1, 0, 1, 1)),
];

/// What has come to the grid below: its strips 5, 6 and 9.
const BELOW: [Case<'static>; 6] = [
    Case("strip 5 below", Call::Strip(0, 5, &[0, 0])),
    Case("strip 6 below", Call::Strip(0, 6, &[0, 0])),
    Case("strip 9 below", Call::Strip(0, 9, &[0, 0])),
    Case("strip 10 below", Call::Strip(0, 10, &[0, 0])),
    Case("y 2, t 1 below", Call::Look(0, 0, 2, 1)),
    Case("y 1, t 2 below", Call::Look(0, 0, 1, 2)),
];

/// Calls of a window that was refused: it has no coverage.
const NOTHING: [Case<'static>; 5] = [
    Case("coverages", Call::Count),
    Case("the name", Call::Find(b"roof")),
    Case("coverage 0", Call::Describe(0)),
    Case("look at coverage 0", Call::Look(0, 0, 1, 1)),
    Case("strip 3 to coverage 0", Call::Strip(0, 3, &[1, 2])),
];

/// Makes a window on a coverage and calls it.
fn through<'c, S: ReceivingShelf>(
    rt: &HostRuntime,
    below: &mut S,
    coverage: usize,
    cases: &[Case<'c>],
) -> io::Result<()> {
    let mut window = make_window(below, coverage, CUT);
    perform_all(rt, &mut window, cases)
}

pub fn windows(rt: &HostRuntime) -> io::Result<()> {
    println!(rt; "A WINDOW")?;
    let mut cells = [0i32; 24];
    let mut grid = make_grid(
        b"roof",
        WHOLE,
        Kind::Number(Range { lo: 0, hi: 99 }),
        &mut cells,
    );
    through(rt, &mut grid, 0, &SEEN)?;
    perform_all(rt, &mut grid, &BELOW)?;
    println!(rt; "A WINDOW THAT IS REFUSED")?;
    through(rt, &mut grid, 1, &NOTHING)
}
