// Names: a letter, and up to 15 more letters, digits or underscores.
use crate::asked::{Asked, PLAIN, ask_all};
use std::io;

const NAMES: [Asked; 21] = [
    Asked {
        what: "no byte",
        name: b"",
        ..PLAIN
    },
    Asked {
        what: "one byte",
        name: b"r",
        ..PLAIN
    },
    Asked {
        what: "16 bytes",
        name: b"roof_moisture_16",
        ..PLAIN
    },
    Asked {
        what: "17 bytes",
        name: b"roof_moisture_017",
        ..PLAIN
    },
    Asked {
        what: "a digit first",
        name: b"9roof",
        ..PLAIN
    },
    Asked {
        what: "an underscore first",
        name: b"_roof",
        ..PLAIN
    },
    Asked {
        what: "digits and underscores later",
        name: b"r0_9",
        ..PLAIN
    },
    Asked {
        what: "a hyphen",
        name: b"roof-1",
        ..PLAIN
    },
    Asked {
        what: "a blank last",
        name: b"roof ",
        ..PLAIN
    },
    Asked {
        what: "before A",
        name: b"@",
        ..PLAIN
    },
    Asked {
        what: "A",
        name: b"A",
        ..PLAIN
    },
    Asked {
        what: "Z",
        name: b"Z",
        ..PLAIN
    },
    Asked {
        what: "after Z",
        name: b"[",
        ..PLAIN
    },
    Asked {
        what: "before a",
        name: b"`",
        ..PLAIN
    },
    Asked {
        what: "a",
        name: b"a",
        ..PLAIN
    },
    Asked {
        what: "z",
        name: b"z",
        ..PLAIN
    },
    Asked {
        what: "after z",
        name: b"{",
        ..PLAIN
    },
    Asked {
        what: "later, before 0",
        name: b"r/",
        ..PLAIN
    },
    Asked {
        what: "later, 0",
        name: b"r0",
        ..PLAIN
    },
    Asked {
        what: "later, 9",
        name: b"r9",
        ..PLAIN
    },
    Asked {
        what: "later, after 9",
        name: b"r:",
        ..PLAIN
    },
];

pub fn names(rt: &HostRuntime) -> io::Result<()> {
    println!(rt; "NAMES")?;
    ask_all(rt, &NAMES)
}
