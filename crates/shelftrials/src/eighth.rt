// A join of nine coverages shows the first eight.
use crate::asked::CELL;
use crate::calls::{Call, Case, perform_all};
use coverage::Kind;
use shelf::ReceivingShelf;
use shelves::{Grid, Join, make_grid};
use std::io;

/// Calls of a join of nine coverages, each of one truth.
const NINE: [Case<'static>; 11] = [
    Case("coverages of nine", Call::Count),
    Case("the eighth name", Call::Find(b"h")),
    Case("the ninth name", Call::Find(b"i")),
    Case("a strip to coverage 7", Call::Strip(7, 0, &[1])),
    Case("the same again", Call::Strip(7, 0, &[1])),
    Case("a strip to coverage 8", Call::Strip(8, 0, &[1])),
    Case("coverage 6", Call::Look(6, 0, 0, 0)),
    Case("coverage 7", Call::Look(7, 0, 0, 0)),
    Case("coverage 8", Call::Look(8, 0, 0, 0)),
    Case("coverage 7 described", Call::Describe(7)),
    Case("coverage 8 described", Call::Describe(8)),
];

/// A grid of one truth.
fn truth<'a>(name: &[u8], cells: &'a mut [i32]) -> Grid<'a> {
    make_grid(name, CELL, Kind::Truth, cells)
}

/// The calls of a shelf of five coverages and one of four.
fn nine<A: ReceivingShelf, B: ReceivingShelf>(
    rt: &HostRuntime,
    five: &mut A,
    four: &mut B,
) -> io::Result<()> {
    let mut nine = Join {
        first: five,
        second: four,
    };
    perform_all(rt, &mut nine, &NINE)
}

/// Four coverages of two pairs, after five.
fn four_more<F: ReceivingShelf, A: ReceivingShelf, B: ReceivingShelf>(
    rt: &HostRuntime,
    five: &mut F,
    fg: &mut A,
    hi: &mut B,
) -> io::Result<()> {
    let mut four = Join {
        first: fg,
        second: hi,
    };
    nine(rt, five, &mut four)
}

/// Two pairs of grids after five coverages.
fn pairs<S: ReceivingShelf>(rt: &HostRuntime, five: &mut S) -> io::Result<()> {
    let mut of_f = [0i32; 1];
    let mut of_g = [0i32; 1];
    let mut of_h = [0i32; 1];
    let mut of_i = [0i32; 1];
    let mut f = truth(b"f", &mut of_f);
    let mut g = truth(b"g", &mut of_g);
    let mut h = truth(b"h", &mut of_h);
    let mut i = truth(b"i", &mut of_i);
    let mut fg = Join {
        first: &mut f,
        second: &mut g,
    };
    let mut hi = Join {
        first: &mut h,
        second: &mut i,
    };
    four_more(rt, five, &mut fg, &mut hi)
}

/// A fifth coverage after four.
fn fifth<S: ReceivingShelf>(rt: &HostRuntime, four: &mut S) -> io::Result<()> {
    let mut of_e = [0i32; 1];
    let mut e = truth(b"e", &mut of_e);
    let mut five = Join {
        first: four,
        second: &mut e,
    };
    pairs(rt, &mut five)
}

/// Four coverages of two pairs.
fn four<A: ReceivingShelf, B: ReceivingShelf>(
    rt: &HostRuntime,
    ab: &mut A,
    cd: &mut B,
) -> io::Result<()> {
    let mut four = Join {
        first: ab,
        second: cd,
    };
    fifth(rt, &mut four)
}

pub fn eighth(rt: &HostRuntime) -> io::Result<()> {
    let mut of_a = [0i32; 1];
    let mut of_b = [0i32; 1];
    let mut of_c = [0i32; 1];
    let mut of_d = [0i32; 1];
    let mut a = truth(b"a", &mut of_a);
    let mut b = truth(b"b", &mut of_b);
    let mut c = truth(b"c", &mut of_c);
    let mut d = truth(b"d", &mut of_d);
    let mut ab = Join {
        first: &mut a,
        second: &mut b,
    };
    let mut cd = Join {
        first: &mut c,
        second: &mut d,
    };
    four(rt, &mut ab, &mut cd)
}
