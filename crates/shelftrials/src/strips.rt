// Strips: every refusal, its order, and the row that a number names.
use crate::calls::{Call, Case, perform_all};
use coverage::{Domain, Kind, Range};
use shelves::make_grid;
use std::io;

/// Four rows of three cells.
const ROOF: Domain = Domain {
    x: Some(Range { lo: 0, hi: 2 }),
    y: Some(Range { lo: 0, hi: 1 }),
    t: Some(Range { lo: 0, hi: 1 }),
};

/// Strips out of turn with span -5 to 5: each stands in the row that its number names.
const OUT_OF_TURN: [Case<'static>; 16] = [
    Case("strip 2 comes first", Call::Strip(0, 2, &[1, 2, 3])),
    Case("no such coverage", Call::Strip(1, 0, &[1, 2, 3])),
    Case("strip 4 of 4", Call::Strip(0, 4, &[1, 2, 3])),
    Case("two cells", Call::Strip(0, 0, &[1, 2])),
    Case("four cells", Call::Strip(0, 0, &[1, 2, 3, 4])),
    Case("no cells", Call::Strip(0, 0, &[])),
    Case("a cell below the span", Call::Strip(0, 0, &[-6, 2, 3])),
    Case("a cell above the span", Call::Strip(0, 0, &[1, 2, 6])),
    Case(
        "a cell that stands for null",
        Call::Strip(0, 0, &[1, -2147483648, 3]),
    ),
    Case("again", Call::Strip(0, 2, &[1, 2, 3])),
    Case("again with other cells", Call::Strip(0, 2, &[3, 2, 1])),
    Case("no such coverage or strip", Call::Strip(9, 4, &[1])),
    Case("no such strip, two cells", Call::Strip(0, 4, &[1, 2])),
    Case("again with two cells", Call::Strip(0, 2, &[1, 2])),
    Case(
        "strip 0, the lowest values",
        Call::Strip(0, 0, &[-5, -5, -5]),
    ),
    Case("strip 3, the highest values", Call::Strip(0, 3, &[5, 5, 5])),
];

/// A row of two truths.
const WET: Domain = Domain {
    x: Some(Range { lo: 0, hi: 1 }),
    y: None,
    t: None,
};

/// Truths are 0 and 1.
const TRUTHS: [Case<'static>; 3] = [
    Case("a 2 for a truth", Call::Strip(0, 0, &[0, 2])),
    Case("a -1 for a truth", Call::Strip(0, 0, &[-1, 1])),
    Case("both truths", Call::Strip(0, 0, &[0, 1])),
];

/// Makes a grid and sends it strips.
fn send<'c>(
    rt: &HostRuntime,
    domain: Domain,
    kind: Kind,
    memory: &mut [i32],
    cases: &[Case<'c>],
) -> io::Result<()> {
    let mut grid = make_grid(b"roof", domain, kind, memory);
    perform_all(rt, &mut grid, cases)
}

pub fn strips(rt: &HostRuntime) -> io::Result<()> {
    println!(rt; "STRIPS")?;
    let mut memory = [0i32; 12];
    send(
        rt,
        ROOF,
        Kind::Number(Range { lo: -5, hi: 5 }),
        &mut memory,
        &OUT_OF_TURN,
    )?;
    println!(rt; "the memory: {memory:?}")?;
    let mut memory = [0i32; 2];
    send(rt, WET, Kind::Truth, &mut memory, &TRUTHS)?;
    println!(rt; "the memory: {memory:?}")
}
