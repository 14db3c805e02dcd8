ghost use Rattle.std.specs.Prelude.{◌≡◌, ℕ, true, is_ok, Err};
ghost use Rattle.lexer.specs.Toks.{toks};
ghost use Rattle.parser.specs.declared.fault.TextFault.TheVariants.{NoQuery};
ghost use Rattle.parser.specs.Derived.{DerivedIsSaid, Means};
ghost use Rattle.parser.specs.Grammar.{Admits};
ghost use Rattle.parser.specs.Says.{Said, text_says};
ghost use Rattle.parser.specs.Texts.{TableAfter, WholeRead, answered, judged};
ghost use Rattle.parser.specs.Theorem.{Clean, Refusable, Meant, grammatical};

use crate::fault::TextFault;
use crate::lists::bindings;
use crate::node::{Bindings, Node};
use crate::parser::Parser;
use crate::take::{expect, take_end};
use lexer::{Symbol, first_bad};

/// A query that was read: its bindings, the node of its expression, how deep expressions stand in that
/// one (12 stands for all depths from 12 on), and how many nodes there are.
#[derive(Clone, Copy)]
pub struct Reading {
    pub bindings: Bindings,
    pub root: usize,
    pub inner: usize,
    pub count: usize,
}

const LONGEST_TEXT: usize = 4096;

const MOST_CONSTRUCTS: usize = 64;

const DEEPEST_INNER: usize = 11;

impl Parser<'_, '_> {
    ghost use Rattle.parser.specs.Parsed.{Keeps, QueryRead};

    // Reads all of a text as a query, or tells the place of the first token with which no query begins.
    fn query(&mut self) -> Result<Reading, usize>
        ensures keeps { Keeps self.old self.new }
        ensures read { QueryRead self.old self.new result }
    {
        expect(&mut self.from, Symbol::For)?;
        let bindings = bindings(&mut self.from)?;
        expect(&mut self.from, Symbol::Return)?;
        expect(&mut self.from, Symbol::Encode)?;
        expect(&mut self.from, Symbol::Open)?;
        let d = self.expr()?;
        expect(&mut self.from, Symbol::Comma)?;
        expect(&mut self.from, Symbol::Rows)?;
        expect(&mut self.from, Symbol::Close)?;
        take_end(&mut self.from)?;
        Ok(Reading {
            bindings,
            root: d.root,
            inner: d.inner,
            count: self.count,
        })
    }
}

// Reads all of a text as a query into a table of nodes.
fn whole(text: &[u8], nodes: &mut [Node]) -> Result<Reading, usize>
    ensures { WholeRead text.now nodes.old nodes.new result }
{
    let mut parser = Parser::new(text, nodes);
    parser.query()
}

/// Reads a text as a query into the table of nodes, or tells why not. The table, where it has room for 64
/// nodes, stands for the tree of the query that the grammar derives from the text's tokens.
pub fn read(text: &[u8], nodes: &mut [Node]) -> Result<Reading, TextFault>
    ensures value { result ≡ answered text.now nodes.old }
    ensures table { is_ok result ≡ true → TableAfter nodes.new (judged text.now nodes.old) }
    ensures means { Meant text.now result }
    ensures only { Clean text.now → Admits (toks text.now 0) → grammatical result ≡ true }
    ensures just { (p : ℕ) → Clean text.now → Refusable text.now p → result ≡ Err (NoQuery p) }
    ensures says { Said text.now nodes.new result }
    ensures derived { Means text.now (text_says text.now) }
    ensures whole { DerivedIsSaid text.now }
{
    answer(text, nodes)
}

// The refusals in turn: the text's length, its tokens, the grammar, the limits.
fn answer(text: &[u8], nodes: &mut [Node]) -> Result<Reading, TextFault>
    ensures value { result ≡ answered text.now nodes.old }
    ensures table { is_ok result ≡ true → TableAfter nodes.new (judged text.now nodes.old) }
{
    if text.len() > LONGEST_TEXT {
        return Err(TextFault::TooLong);
    }
    if let Some(p) = first_bad(text) {
        return Err(TextFault::NoToken(p));
    }
    let q = whole(text, nodes).map_err(TextFault::NoQuery)?;
    if q.count > MOST_CONSTRUCTS || q.inner > DEEPEST_INNER {
        return Err(TextFault::TooLarge);
    }
    Ok(q)
}
