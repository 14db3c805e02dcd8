// Looks: inside, outside on each axis, and past an absent axis.
use crate::calls::{Call, Case, perform_all};
use coverage::{Domain, Kind, Range};
use shelves::make_grid;
use std::io;

const BOX: Domain = Domain {
    x: Some(Range { lo: 0, hi: 2 }),
    y: Some(Range { lo: 10, hi: 11 }),
    t: Some(Range { lo: -1, hi: 0 }),
};

/// Looks around x 0 to 2, y 10 to 11, t -1 to 0, where the last strip has come.
const AROUND: [Case<'static>; 13] = [
    Case("strip 3", Call::Strip(0, 3, &[-9, 0, 9])),
    Case("lowest corner", Call::Look(0, 0, 10, -1)),
    Case("highest corner", Call::Look(0, 2, 11, 0)),
    Case("the first of its row", Call::Look(0, 0, 11, 0)),
    Case("x too low", Call::Look(0, -1, 11, 0)),
    Case("x too high", Call::Look(0, 3, 11, 0)),
    Case("y too low", Call::Look(0, 0, 9, 0)),
    Case("y too high", Call::Look(0, 0, 12, 0)),
    Case("t too low", Call::Look(0, 0, 11, -2)),
    Case("t too high", Call::Look(0, 0, 11, 1)),
    Case("x and y exchanged", Call::Look(0, 11, 2, 0)),
    Case("coverage 1", Call::Look(1, 2, 11, 0)),
    Case("coverage 1, outside", Call::Look(1, 3, 12, 1)),
];

const LINE: Domain = Domain {
    x: Some(Range { lo: 5, hi: 6 }),
    y: None,
    t: None,
};

/// Looks along x 5 to 6, where y and t are absent.
const ALONG: [Case<'static>; 5] = [
    Case("strip 0", Call::Strip(0, 0, &[3, 4])),
    Case("y and t 0", Call::Look(0, 5, 0, 0)),
    Case(
        "any y and t",
        Call::Look(0, 6, 9223372036854775807, -9223372036854775808),
    ),
    Case("x too low", Call::Look(0, 4, 0, 0)),
    Case("x too high", Call::Look(0, 7, 0, 0)),
];

pub fn looks(rt: &HostRuntime) -> io::Result<()> {
    println!(rt; "LOOKS")?;
    let mut cells = [0i32; 12];
    let mut grid = make_grid(
        b"roof",
        BOX,
        Kind::Number(Range { lo: -9, hi: 9 }),
        &mut cells,
    );
    perform_all(rt, &mut grid, &AROUND)?;
    println!(rt; "LOOKS WITHOUT Y AND T")?;
    let mut cells = [0i32; 2];
    let mut grid = make_grid(
        b"edge",
        LINE,
        Kind::Number(Range { lo: 0, hi: 9 }),
        &mut cells,
    );
    perform_all(rt, &mut grid, &ALONG)
}
