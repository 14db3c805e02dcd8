// Limits of coordinates, spans and cells.
use crate::asked::{Asked, CELL, ONE, PLAIN, ask_all};
use coverage::{Domain, Kind, Range};
use std::io;

const LOWEST: Option<Range> = Some(Range {
    lo: -1000000,
    hi: -999999,
});

const BELOW: Option<Range> = Some(Range {
    lo: -1000001,
    hi: -1000000,
});

const HIGHEST: Option<Range> = Some(Range {
    lo: 999999,
    hi: 1000000,
});

const ABOVE: Option<Range> = Some(Range {
    lo: 1000000,
    hi: 1000001,
});

const TURNED: Option<Range> = Some(Range { lo: 1, hi: 0 });

/// Coordinates reach from -1,000,000 to 1,000,000, the lowest not above the highest; x is there.
const COORDINATES: [Asked; 17] = [
    Asked {
        what: "x at the lowest",
        domain: Domain { x: LOWEST, ..CELL },
        length: 2,
        ..PLAIN
    },
    Asked {
        what: "x below it",
        domain: Domain { x: BELOW, ..CELL },
        length: 2,
        ..PLAIN
    },
    Asked {
        what: "x at the highest",
        domain: Domain { x: HIGHEST, ..CELL },
        length: 2,
        ..PLAIN
    },
    Asked {
        what: "x above it",
        domain: Domain { x: ABOVE, ..CELL },
        length: 2,
        ..PLAIN
    },
    Asked {
        what: "x upside down",
        domain: Domain { x: TURNED, ..CELL },
        length: 0,
        ..PLAIN
    },
    Asked {
        what: "y at the lowest",
        domain: Domain { y: LOWEST, ..CELL },
        length: 2,
        ..PLAIN
    },
    Asked {
        what: "y below it",
        domain: Domain { y: BELOW, ..CELL },
        length: 2,
        ..PLAIN
    },
    Asked {
        what: "y at the highest",
        domain: Domain { y: HIGHEST, ..CELL },
        length: 2,
        ..PLAIN
    },
    Asked {
        what: "y above it",
        domain: Domain { y: ABOVE, ..CELL },
        length: 2,
        ..PLAIN
    },
    Asked {
        what: "y upside down",
        domain: Domain { y: TURNED, ..CELL },
        length: 0,
        ..PLAIN
    },
    Asked {
        what: "t at the lowest",
        domain: Domain { t: LOWEST, ..CELL },
        length: 2,
        ..PLAIN
    },
    Asked {
        what: "t below it",
        domain: Domain { t: BELOW, ..CELL },
        length: 2,
        ..PLAIN
    },
    Asked {
        what: "t at the highest",
        domain: Domain { t: HIGHEST, ..CELL },
        length: 2,
        ..PLAIN
    },
    Asked {
        what: "t above it",
        domain: Domain { t: ABOVE, ..CELL },
        length: 2,
        ..PLAIN
    },
    Asked {
        what: "t upside down",
        domain: Domain { t: TURNED, ..CELL },
        length: 0,
        ..PLAIN
    },
    Asked {
        what: "x missing",
        domain: Domain {
            x: None,
            y: ONE,
            t: ONE,
        },
        ..PLAIN
    },
    Asked {
        what: "x alone",
        ..PLAIN
    },
];

/// Spans reach from -2,147,483,647 to 2,147,483,647, the lowest not above the highest.
const SPANS: [Asked; 7] = [
    Asked {
        what: "the widest span",
        kind: Kind::Number(Range {
            lo: -2147483647,
            hi: 2147483647,
        }),
        ..PLAIN
    },
    Asked {
        what: "one lower",
        kind: Kind::Number(Range {
            lo: -2147483648,
            hi: 2147483647,
        }),
        ..PLAIN
    },
    Asked {
        what: "one higher",
        kind: Kind::Number(Range {
            lo: -2147483647,
            hi: 2147483648,
        }),
        ..PLAIN
    },
    Asked {
        what: "a single value",
        kind: Kind::Number(Range { lo: 7, hi: 7 }),
        ..PLAIN
    },
    Asked {
        what: "upside down",
        kind: Kind::Number(Range { lo: 8, hi: 7 }),
        ..PLAIN
    },
    Asked {
        what: "upside down and too wide",
        kind: Kind::Number(Range {
            lo: 2147483648,
            hi: -2147483648,
        }),
        ..PLAIN
    },
    Asked {
        what: "truth",
        ..PLAIN
    },
];

const BYTE: Option<Range> = Some(Range { lo: 0, hi: 255 });

const MORE: Option<Range> = Some(Range { lo: 0, hi: 256 });

const FARTHEST: Option<Range> = Some(Range {
    lo: -1000000,
    hi: 1000000,
});

const FOUR: Option<Range> = Some(Range { lo: 1, hi: 4 });

const SIDE: Option<Range> = Some(Range { lo: 1, hi: 64 });

const FULL: Option<Range> = Some(Range { lo: 0, hi: 65535 });

const FULLER: Option<Range> = Some(Range { lo: 0, hi: 65536 });

/// A coverage has 65,536 cells at most.
const CELLS: [Asked; 9] = [
    Asked {
        what: "65,536 in x",
        domain: Domain { x: FULL, ..CELL },
        length: 65536,
        ..PLAIN
    },
    Asked {
        what: "65,537 in x",
        domain: Domain { x: FULLER, ..CELL },
        length: 65537,
        ..PLAIN
    },
    Asked {
        what: "256 by 256",
        domain: Domain {
            x: BYTE,
            y: BYTE,
            ..CELL
        },
        length: 65536,
        ..PLAIN
    },
    Asked {
        what: "256 by 257",
        domain: Domain {
            x: BYTE,
            y: MORE,
            ..CELL
        },
        length: 65792,
        ..PLAIN
    },
    Asked {
        what: "256 by 256 in t",
        domain: Domain {
            x: BYTE,
            t: BYTE,
            ..CELL
        },
        length: 65536,
        ..PLAIN
    },
    Asked {
        what: "257 by 256 in t",
        domain: Domain {
            x: MORE,
            t: BYTE,
            ..CELL
        },
        length: 65792,
        ..PLAIN
    },
    Asked {
        what: "4 by 64 by 256",
        domain: Domain {
            x: FOUR,
            y: SIDE,
            t: BYTE,
        },
        length: 65536,
        ..PLAIN
    },
    Asked {
        what: "4 by 64 by 257",
        domain: Domain {
            x: FOUR,
            y: SIDE,
            t: MORE,
        },
        length: 65792,
        ..PLAIN
    },
    Asked {
        what: "all coordinates",
        domain: Domain {
            x: FARTHEST,
            y: FARTHEST,
            t: FARTHEST,
        },
        length: 0,
        ..PLAIN
    },
];

pub fn limits(rt: &HostRuntime) -> io::Result<()> {
    println!(rt; "COORDINATES")?;
    ask_all(rt, &COORDINATES)?;
    println!(rt; "SPANS")?;
    ask_all(rt, &SPANS)?;
    println!(rt; "CELLS")?;
    ask_all(rt, &CELLS)
}
