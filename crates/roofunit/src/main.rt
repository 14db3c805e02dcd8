// Makes a grid, takes its strips, and shows its cells, by lines of standard input.
#![tactic(auto)]

ghost use Rattle.roofunit.specs.Answers.{Led};

use coverage::{Domain, Kind, Range};
use lines::{Command, parse};
use shelf::{ReceivingShelf, Shelf};
use shelves::{check_grid, make_grid};
use std::alloc::Global;
use std::io;
use std::io::{BufRead, BufReader, Split, Stdin};

pub mod fault;
pub mod picture;
pub mod reply;
pub mod serve;

use crate::reply::{Reply, grid_reply};
use crate::serve::answer;

/// The most cells that a grid may have.
const MOST_CELLS: usize = 65536;

/// The lines of standard input, each without its line end.
type Lines = Split<BufReader<Stdin>, Global>;

/// Prints a reply, and says in a sentence why a call was refused.
fn tell(rt: &HostRuntime, reply: Reply) -> io::Result<()> {
    let Reply { line, refused } = reply;
    rt.println(line)?;
    match refused {
        Some(fault) => rt.eprintln(fault),
        None => Ok(()),
    }
}

/// Answers each further line.
fn drive<S: ReceivingShelf>(rt: &HostRuntime, lines: &mut Lines, shelf: &mut S) -> io::Result<()>
    ensures { Led (S.Shelf.meaning shelf.old) (S.Shelf.meaning shelf.new) }
{
    for line in lines {
        let line = line?;
        tell(rt, answer(rt.alloc(), shelf, line.as_slice())?)?;
    }
    Ok(())
}

/// Makes the grid in the front of the memory, and goes on with it; where it is refused, with no coverage.
fn with_grid(
    rt: &HostRuntime,
    lines: &mut Lines,
    name: &[u8],
    domain: Domain,
    kind: Kind,
    memory: &mut [i32; MOST_CELLS],
) -> io::Result<()> {
    let wanted = domain.cells().min(MOST_CELLS);
    tell(
        rt,
        grid_reply(rt.alloc(), check_grid(name, domain, kind, wanted))?,
    )?;
    let mut grid = make_grid(name, domain, kind, &mut memory[0..wanted]);
    drive(rt, lines, &mut grid)
}

/// Answers the lines before the grid's as a shelf without coverages does.
fn before_grid(
    rt: &HostRuntime,
    lines: &mut Lines,
    memory: &mut [i32; MOST_CELLS],
) -> io::Result<()> {
    let mut nothing = [0i32; 0];
    let nowhere = Domain {
        x: Some(Range { lo: 0, hi: 0 }),
        y: None,
        t: None,
    };
    let mut empty = make_grid(b"", nowhere, Kind::Truth, &mut nothing);
    while let Some(line) = lines.next() {
        let line = line?;
        if let Ok(Command::Grid(name, domain, kind)) = parse(line.as_slice()) {
            return with_grid(rt, lines, name, domain, kind, memory);
        }
        tell(rt, answer(rt.alloc(), &mut empty, line.as_slice())?)?;
    }
    Ok(())
}

fn main(rt: HostRuntime) -> io::Result<()> {
    let mut memory = [0i32; MOST_CELLS];
    let mut lines = BufReader::new(rt.alloc(), rt.stdin())?.split(rt.alloc(), b'\n');
    before_grid(&rt, &mut lines, &mut memory)
}
