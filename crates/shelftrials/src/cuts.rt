// The call before a window's making: no such coverage, or a cut that is not inside.
use crate::asked::CELL;
use crate::told::tell_making;
use coverage::{Domain, Kind, Range};
use shelf::Shelf;
use shelf_laws::Cut;
use shelves::{check_window, make_grid};
use std::io;

/// What is tried, and the window that is asked for.
#[derive(Clone, Copy)]
struct Opening {
    what: &'static str,
    coverage: usize,
    y: Range,
    t: Range,
}

/// Four rows at each of two times.
const ROWS: Domain = Domain {
    x: Some(Range { lo: 0, hi: 0 }),
    y: Some(Range { lo: 0, hi: 3 }),
    t: Some(Range { lo: 5, hi: 6 }),
};

/// A window on all rows, which is allowed; a row of a table tells what is asked for otherwise.
const WHOLE: Opening = Opening {
    what: "the whole",
    coverage: 0,
    y: Range { lo: 0, hi: 3 },
    t: Range { lo: 5, hi: 6 },
};

/// Windows on y 0 to 3 and t 5 to 6.
const ON_ROWS: [Opening; 11] = [
    WHOLE,
    Opening {
        what: "one row",
        y: Range { lo: 3, hi: 3 },
        t: Range { lo: 6, hi: 6 },
        ..WHOLE
    },
    Opening {
        what: "y too low",
        y: Range { lo: -1, hi: 3 },
        ..WHOLE
    },
    Opening {
        what: "y too high",
        y: Range { lo: 0, hi: 4 },
        ..WHOLE
    },
    Opening {
        what: "y upside down",
        y: Range { lo: 2, hi: 1 },
        ..WHOLE
    },
    Opening {
        what: "t too low",
        t: Range { lo: 4, hi: 6 },
        ..WHOLE
    },
    Opening {
        what: "t too high",
        t: Range { lo: 5, hi: 7 },
        ..WHOLE
    },
    Opening {
        what: "t upside down",
        t: Range { lo: 6, hi: 5 },
        ..WHOLE
    },
    Opening {
        what: "y and t exchanged",
        y: Range { lo: 5, hi: 6 },
        t: Range { lo: 0, hi: 3 },
        ..WHOLE
    },
    Opening {
        what: "coverage 1",
        coverage: 1,
        ..WHOLE
    },
    Opening {
        what: "coverage 1, y too high",
        coverage: 1,
        y: Range { lo: 0, hi: 4 },
        ..WHOLE
    },
];

/// A cut is ignored where its axis is absent.
const ON_A_CELL: [Opening; 1] = [Opening {
    what: "y and t absent, upside down",
    y: Range { lo: 9, hi: -9 },
    t: Range { lo: 8, hi: -8 },
    ..WHOLE
}];

/// Asks for the windows of a table in turn, a line for each.
fn open_all<S: Shelf>(rt: &HostRuntime, below: &S, table: &[Opening]) -> io::Result<()> {
    for opening in table {
        let cut = Cut {
            y: opening.y,
            t: opening.t,
        };
        print!(rt; "{}: ", opening.what)?;
        tell_making(rt, check_window(below, opening.coverage, cut))?;
    }
    Ok(())
}

pub fn cuts(rt: &HostRuntime) -> io::Result<()> {
    println!(rt; "CUTS")?;
    let mut cells = [0i32; 8];
    let grid = make_grid(
        b"roof",
        ROWS,
        Kind::Number(Range { lo: 0, hi: 9 }),
        &mut cells,
    );
    open_all(rt, &grid, &ON_ROWS)?;
    let mut cells = [0i32; 1];
    let grid = make_grid(
        b"roof",
        CELL,
        Kind::Number(Range { lo: 0, hi: 9 }),
        &mut cells,
    );
    open_all(rt, &grid, &ON_A_CELL)
}
