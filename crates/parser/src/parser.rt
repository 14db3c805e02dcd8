ghost use Rattle.std.specs.Prelude.{◌≡◌, ℕ, ◌+◌, ◌<◌, ◌≤◌, slice_set};

use crate::node::{Construct, Node};
use cursor::Cursor;

// Nodes are told by their numbers in a table that the caller lends: the parser has no heap.
/// A text that is read from a place on, and the table that nodes are written to while it has room: how many
/// there are, also past its end. No node is without a byte of its own.
#[derive(Drop)]
pub struct Parser<'t, 'n> {
    pub from: Cursor<'t>,
    pub nodes: &'n mut [Node],
    pub count: usize,
    pub ghost few: { count ≤ from.at },
}

/// An expression that was read: its node, the byte where its text begins, and how deep expressions stand in
/// it.
#[derive(Clone, Copy)]
pub struct Done {
    pub root: usize,
    pub place: usize,
    pub inner: usize,
}

impl<'t, 'n> Parser<'t, 'n> {
    ghost use Rattle.parser.specs.Actions.{node};
    ghost use Rattle.parser.specs.Built.{Added};

    /// The start of a text, and no nodes in the table yet.
    pub(crate) fn new(text: &'t [u8], nodes: &'n mut [Node]) -> Parser<'t, 'n>
        ensures text { result.from.text.now ≡ text.now }
        ensures start { result.from.at ≡ 0 }
        ensures none { result.count ≡ 0 }
        ensures nodes { result.nodes.now ≡ nodes.old }
        ensures same_reference { result.nodes.ghost_name ≡ nodes.entry.ghost_name }
    {
        Parser {
            from: Cursor::new(text),
            nodes,
            count: 0,
        }
    }

    /// Adds a construct whose text begins at a place.
    pub fn add(&mut self, place: usize, construct: Construct, inner: usize) -> Done
        requires { self.old.count < self.old.from.at }
        ensures { Added place construct inner self.old self.new result }
    {
        let root = self.count;
        if root < self.nodes.len() {
            self.nodes[root] = Node { place, construct };
        }
        self.count += 1;
        Done { root, place, inner }
    }
}
