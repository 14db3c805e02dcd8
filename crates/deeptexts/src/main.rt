// Texts of 4,096 bytes that nest as deep as they can: each is answered on a stack of 8 MiB. Every text
// begins a query, and then repeats one piece to its end.
#![tactic(auto)]

use coverage::Refusal;
use parser::node::{Construct, Node};
use parser::text::read;
use std::io;

const HEAD: &[u8] = b"for $c in (r) return encode (  ";

/// What nests, and the piece that is repeated.
const NESTED: [(&str, &[u8]); 7] = [
    ("round brackets", b"("),
    ("prefixes", b"-"),
    ("functions", b"abs("),
    ("slices", b"$c[x("),
    ("condense forms", b"condense + over i x (0:1) using "),
    ("coverage forms", b"coverage v over i x (0:1) values "),
    ("levels", b"1 overlay (1 or (1 and (1 < (1 + (1 * ("),
];

/// The head, and then the piece again and again to the end of the text.
fn nested(piece: &[u8]) -> [u8; 4096] {
    let mut text = [b' '; 4096];
    for (byte, next) in text.iter_mut().zip(HEAD.iter().chain(piece.iter().cycle())) {
        *byte = *next;
    }
    text
}

/// Reads a text, which is accepted or refused.
fn answer(text: &[u8]) -> Result<(), Refusal> {
    let mut nodes = [Node {
        place: 0,
        construct: Construct::Numeral(0),
    }; 64];
    read(text, &mut nodes)?;
    Ok(())
}

fn main(rt: HostRuntime) -> io::Result<()> {
    for (what, piece) in NESTED {
        match answer(&nested(piece)) {
            Ok(()) => println!(rt; "{what}: accepted")?,
            Err(refusal) => {
                let number = refusal.number;
                let place = refusal.returned;
                println!(rt; "{what}: refused {number} at {place}")?;
            }
        }
    }
    Ok(())
}
