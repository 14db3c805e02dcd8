// Shelves upon shelves: strips arrive through a window on a join of a ramp and a window on a grid, and
// the picture is seen through each of them.
#![tactic(auto)]

use coverage::{Domain, Kind, Range};
use shelf::{ReceivingShelf, Shelf};
use shelf_laws::{Cut, Slopes};
use shelves::{Join, make_grid, make_ramp, make_window};
use std::io;

pub mod picture;
pub mod send;

use crate::picture::picture;
use crate::send::send;

/// The roof: four rows of four cells.
const ROOF: Domain = Domain {
    x: Some(Range { lo: 0, hi: 3 }),
    y: Some(Range { lo: 0, hi: 3 }),
    t: None,
};
/// The slope: two rows of four cells.
const SLOPE: Domain = Domain {
    x: Some(Range { lo: 0, hi: 3 }),
    y: Some(Range { lo: 0, hi: 1 }),
    t: None,
};
/// The lower window shows all rows but the first, the upper one all but two; without t its cut is ignored.
const LOWER: Cut = Cut {
    y: Range { lo: 1, hi: 3 },
    t: Range { lo: 0, hi: 0 },
};

const UPPER: Cut = Cut {
    y: Range { lo: 2, hi: 3 },
    t: Range { lo: 0, hi: 0 },
};

/// The upper window, on coverage 1 of the join: its strips 0 and 1 are the rows y 2 and y 3.
fn through_upper<S: ReceivingShelf>(rt: &HostRuntime, both: &mut S) -> io::Result<()> {
    let mut upper = make_window(both, 1, UPPER);
    println!(rt; "to the upper window")?;
    send(rt, &mut upper, 0, 1, &[30, 31, 32, 33])?;
    send(rt, &mut upper, 0, 1, &[30, 31, 32, 33])?;
    send(rt, &mut upper, 0, 2, &[40, 41, 42, 43])?;
    send(rt, &mut upper, 1, 0, &[20, 21, 22, 23])?;
    println!(rt; "through the upper window")?;
    picture(rt, &upper, 0)
}

/// The join: coverage 0 is the slope, coverage 1 the lower window's.
fn through_join<A: ReceivingShelf, B: ReceivingShelf>(
    rt: &HostRuntime,
    slope: &mut A,
    lower: &mut B,
) -> io::Result<()> {
    let mut both = Join {
        first: slope,
        second: lower,
    };
    through_upper(rt, &mut both)?;
    println!(rt; "to the join")?;
    send(rt, &mut both, 1, 0, &[10, 11, 12, 13])?;
    send(rt, &mut both, 1, 2, &[10, 11, 12, 13])?;
    send(rt, &mut both, 0, 0, &[1, 2, 3, 4])?;
    send(rt, &mut both, 2, 0, &[1, 2, 3, 4])?;
    println!(rt; "through the join, the slope")?;
    picture(rt, &both, 0)?;
    println!(rt; "through the join, the roof")?;
    picture(rt, &both, 1)
}

/// The lower window, on the roof: its strips 0, 1 and 2 are the rows y 1, y 2 and y 3.
fn through_lower<A: ReceivingShelf, B: ReceivingShelf>(
    rt: &HostRuntime,
    slope: &mut A,
    roof: &mut B,
) -> io::Result<()> {
    let mut lower = make_window(roof, 0, LOWER);
    through_join(rt, slope, &mut lower)?;
    println!(rt; "to the lower window")?;
    send(rt, &mut lower, 0, 2, &[1, 2, 3, 4])?;
    send(rt, &mut lower, 0, 1, &[20, 21, 22])?;
    println!(rt; "through the lower window")?;
    picture(rt, &lower, 0)
}

fn main(rt: HostRuntime) -> io::Result<()> {
    let mut cells = [0i32; 16];
    let mut roof = make_grid(
        b"roof",
        ROOF,
        Kind::Number(Range { lo: 0, hi: 99 }),
        &mut cells,
    );
    let mut slope = make_ramp(b"slope", SLOPE, Slopes { x: 1, y: 10, t: 0 }, 5);
    through_lower(&rt, &mut slope, &mut roof)?;
    println!(rt; "to the roof")?;
    send(&rt, &mut roof, 0, 0, &[0, 1, 2, 3])?;
    println!(rt; "the roof")?;
    picture(&rt, &roof, 0)
}
