// Joins: the second shelf's coverages after the first's, told in the join's own numbers.
use crate::asked::CELL;
use crate::calls::{Call, Case, perform_all};
use coverage::{Domain, Kind, Range};
use shelves::{Join, make_grid};
use std::io;

const ONE_STRIP: Domain = Domain {
    x: Some(Range { lo: 0, hi: 1 }),
    y: None,
    t: None,
};

const TWO_STRIPS: Domain = Domain {
    x: Some(Range { lo: 0, hi: 1 }),
    y: Some(Range { lo: 0, hi: 1 }),
    t: None,
};

/// Calls of the join of a grid with one strip and a grid with two.
const BOTH: [Case<'static>; 17] = [
    Case("coverages", Call::Count),
    Case("the first's name", Call::Find(b"west")),
    Case("the second's name", Call::Find(b"east")),
    Case("no one's name", Call::Find(b"north")),
    Case("coverage 0", Call::Describe(0)),
    Case("coverage 1", Call::Describe(1)),
    Case("coverage 2", Call::Describe(2)),
    Case("strip 1 to coverage 0", Call::Strip(0, 1, &[1, 2])),
    Case("strip 1 to coverage 1", Call::Strip(1, 1, &[10, 20])),
    Case("the same again", Call::Strip(1, 1, &[10, 20])),
    Case("strip 2 to coverage 1", Call::Strip(1, 2, &[10, 20])),
    Case("a cell above coverage 1", Call::Strip(1, 0, &[10, 100])),
    Case("strip 1 to coverage 2", Call::Strip(2, 1, &[10, 20])),
    Case("the cell in coverage 1", Call::Look(1, 1, 1, 0)),
    Case("its place in coverage 0", Call::Look(0, 1, 1, 0)),
    Case("outside coverage 1", Call::Look(1, 1, 2, 0)),
    Case("coverage 2", Call::Look(2, 1, 1, 0)),
];

/// The same name twice: the lowest number is found.
const TWICE: [Case<'static>; 2] = [
    Case("coverages of one name", Call::Count),
    Case("the name", Call::Find(b"roof")),
];

pub fn joins(rt: &HostRuntime) -> io::Result<()> {
    println!(rt; "A JOIN")?;
    let mut left = [0i32; 2];
    let mut right = [0i32; 4];
    let mut west = make_grid(
        b"west",
        ONE_STRIP,
        Kind::Number(Range { lo: 0, hi: 9 }),
        &mut left,
    );
    let mut east = make_grid(
        b"east",
        TWO_STRIPS,
        Kind::Number(Range { lo: 0, hi: 99 }),
        &mut right,
    );
    let mut both = Join {
        first: &mut west,
        second: &mut east,
    };
    perform_all(rt, &mut both, &BOTH)?;
    let mut left = [0i32; 1];
    let mut right = [0i32; 1];
    let mut west = make_grid(
        b"roof",
        CELL,
        Kind::Number(Range { lo: 0, hi: 9 }),
        &mut left,
    );
    let mut east = make_grid(
        b"roof",
        CELL,
        Kind::Number(Range { lo: 0, hi: 9 }),
        &mut right,
    );
    let mut both = Join {
        first: &mut west,
        second: &mut east,
    };
    perform_all(rt, &mut both, &TWICE)
}
