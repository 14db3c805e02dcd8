// Tables of calls to a shelf, whatever shelf it is.
use crate::told::{tell_description, tell_find, tell_look, tell_strip};
use coverage::Point;
use shelf::{ReceivingShelf, Shelf};
use std::io;

/// A call of a shelf.
#[derive(Clone, Copy)]
pub enum Call<'c> {
    Count,
    /// Of a coverage.
    Describe(usize),
    /// Of a name.
    Find(&'c [u8]),
    /// At a coverage, and a point's x, y and t: with a `Point`'s names a case would take three lines.
    Look(usize, i64, i64, i64),
    /// To a coverage, of a number, with its cells.
    Strip(usize, usize, &'c [i32]),
}

/// What is tried, and the call that tries it.
#[derive(Clone, Copy)]
pub struct Case<'c>(pub &'c str, pub Call<'c>);

/// Makes a call, and tells its answer.
fn perform<'c, S: ReceivingShelf>(
    rt: &HostRuntime,
    shelf: &mut S,
    call: Call<'c>,
) -> io::Result<()> {
    match call {
        Call::Count => rt.println(shelf.count()),
        Call::Describe(coverage) => tell_description(rt, shelf.describe(coverage)),
        Call::Find(name) => tell_find(rt, shelf.find(name)),
        Call::Look(coverage, x, y, t) => tell_look(rt, shelf.look(coverage, Point { x, y, t })),
        Call::Strip(coverage, strip, cells) => tell_strip(rt, shelf.strip(coverage, strip, cells)),
    }
}

/// Makes the calls of a table in turn, a line for each.
pub fn perform_all<'c, S: ReceivingShelf>(
    rt: &HostRuntime,
    shelf: &mut S,
    cases: &[Case<'c>],
) -> io::Result<()> {
    for case in cases {
        let Case(what, call) = *case;
        print!(rt; "{what}: ")?;
        perform(rt, shelf, call)?;
    }
    Ok(())
}
