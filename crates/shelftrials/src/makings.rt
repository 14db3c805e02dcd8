// The makings of received grids: their memory, the order of their tests, and what is made.
use crate::asked::{Asked, CELL, PLAIN, ask_all};
use crate::calls::{Call, Case, perform_all};
use coverage::{Domain, Kind, Range};
use shelves::make_grid;
use std::io;

const THREE: Option<Range> = Some(Range { lo: 0, hi: 2 });

const TWO: Option<Range> = Some(Range { lo: 0, hi: 1 });
/// Six cells: x 0 to 2, y 0 to 1.
const SIX: Domain = Domain {
    x: THREE,
    y: TWO,
    t: None,
};
/// One cell too many.
const MANY: Option<Range> = Some(Range { lo: 0, hi: 65536 });
/// A coordinate too far, and too many cells.
const FAR: Option<Range> = Some(Range { lo: 0, hi: 1000001 });

const WIDE: Kind = Kind::Number(Range {
    lo: 0,
    hi: 2147483648,
});

const PERCENT: Kind = Kind::Number(Range { lo: 0, hi: 100 });

/// Memory has just as many places as there are cells.
const MEMORY: [Asked; 4] = [
    Asked {
        what: "no place for 6 cells",
        domain: SIX,
        kind: PERCENT,
        length: 0,
        ..PLAIN
    },
    Asked {
        what: "5 places",
        domain: SIX,
        kind: PERCENT,
        length: 5,
        ..PLAIN
    },
    Asked {
        what: "6 places",
        domain: SIX,
        kind: PERCENT,
        length: 6,
        ..PLAIN
    },
    Asked {
        what: "7 places",
        domain: SIX,
        kind: PERCENT,
        length: 7,
        ..PLAIN
    },
];

/// Where several causes fit, the first in order is told.
const ORDER: [Asked; 5] = [
    Asked {
        what: "all wrong",
        name: b"",
        domain: Domain { x: FAR, ..CELL },
        kind: WIDE,
        length: 0,
        ..PLAIN
    },
    Asked {
        what: "all but the name",
        domain: Domain { x: FAR, ..CELL },
        kind: WIDE,
        length: 0,
        ..PLAIN
    },
    Asked {
        what: "span, cells and memory",
        domain: Domain { x: MANY, ..CELL },
        kind: WIDE,
        length: 0,
        ..PLAIN
    },
    Asked {
        what: "cells and memory",
        domain: Domain { x: MANY, ..CELL },
        kind: PERCENT,
        length: 0,
        ..PLAIN
    },
    Asked {
        what: "memory",
        domain: SIX,
        kind: PERCENT,
        length: 0,
        ..PLAIN
    },
];

/// What a grid answers just after its making.
const JUST_MADE: [Case<'static>; 8] = [
    Case("coverages", Call::Count),
    Case("coverage 0", Call::Describe(0)),
    Case("coverage 1", Call::Describe(1)),
    Case("its name", Call::Find(b"roof")),
    Case("its name begun", Call::Find(b"roo")),
    Case("its name in capitals", Call::Find(b"ROOF")),
    Case("its first cell", Call::Look(0, 0, 0, 0)),
    Case("its strip 1", Call::Strip(0, 1, &[10, 20, 30])),
];

/// Makes a grid of six cells in memory of any length, and tells what it is.
fn make(rt: &HostRuntime, memory: &mut [i32]) -> io::Result<()> {
    let mut grid = make_grid(b"roof", SIX, PERCENT, memory);
    perform_all(rt, &mut grid, &JUST_MADE)
}

/// A grid is made null in every cell; against a refusal it has no coverage, and the memory stays.
pub fn makings(rt: &HostRuntime) -> io::Result<()> {
    println!(rt; "MEMORY")?;
    ask_all(rt, &MEMORY)?;
    println!(rt; "ORDER OF A MAKING'S TESTS")?;
    ask_all(rt, &ORDER)?;
    println!(rt; "A GRID THAT IS ALLOWED")?;
    let mut memory = [7i32; 6];
    make(rt, &mut memory)?;
    println!(rt; "its memory: {memory:?}")?;
    println!(rt; "A GRID THAT IS REFUSED")?;
    let mut memory = [7i32; 5];
    make(rt, &mut memory)?;
    println!(rt; "its memory: {memory:?}")
}
