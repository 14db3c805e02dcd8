// Tables of received grids that are asked for before they are made.
use crate::told::tell_making;
use coverage::{Domain, Kind, Range};
use shelves::check_grid;
use std::io;

/// What is tried, and the grid that is asked for, with the length of its memory.
#[derive(Clone, Copy)]
pub struct Asked {
    pub what: &'static str,
    pub name: &'static [u8],
    pub domain: Domain,
    pub kind: Kind,
    pub length: usize,
}

/// An axis of one place.
pub const ONE: Option<Range> = Some(Range { lo: 0, hi: 0 });

/// A domain of one cell.
pub const CELL: Domain = Domain {
    x: ONE,
    y: None,
    t: None,
};

/// A grid of one truth, which is allowed; a row of a table tells what is asked for otherwise.
pub const PLAIN: Asked = Asked {
    what: "plain",
    name: b"roof",
    domain: CELL,
    kind: Kind::Truth,
    length: 1,
};

/// Asks for the grids of a table in turn, a line for each.
pub fn ask_all(rt: &HostRuntime, table: &[Asked]) -> io::Result<()> {
    for asked in table {
        print!(rt; "{}: ", asked.what)?;
        tell_making(
            rt,
            check_grid(asked.name, asked.domain, asked.kind, asked.length),
        )?;
    }
    Ok(())
}
