ghost use Rattle.std.specs.Prelude.{◌≡◌, ℕ, ◌<◌, [], ◌∷◌};
ghost use Rattle.lexer.specs.Tokens.{tok};
ghost use Rattle.parser.specs.Actions.{deeper as deeper_of};
ghost use Rattle.parser.specs.Reads.{GoesOn, Climbs};
ghost use Rattle.parser.specs.Roles.{operator_of, between};

use crate::lists::iterators;
use crate::node::{Construct, Part};
use crate::parser::{Done, Parser};
use crate::roles::{Function, Opening, Operator, opening_of, operator_of};
use crate::take::{
    Start, eat, expect, lower_end, next, take_axis, take_sign, take_start, take_word, upper_end,
};
use coverage::{Axis, PerAxis, Range};
use cursor::Cursor;
use lexer::{Symbol, Token, peek};
use syntax::Unary;

const LEVELS: usize = 6;

const COMPARISONS: usize = 2;

const NONE_SEEN: PerAxis<bool> = PerAxis {
    x: false,
    y: false,
    t: false,
};

/// Within one more expression; 12 stands for all depths from 12 on.
pub fn deeper(inner: usize) -> usize
    ensures { result ≡ deeper_of inner }
{
    if inner < 12 { inner + 1 } else { 12 }
}

// The operator that a token is, if its level is one of those from `lowest` up to `top`.
fn joining(token: Token, lowest: usize, top: usize) -> Option<Operator>
    ensures { result ≡ between lowest top (operator_of (tok token.entry)) }
{
    let Token::Symbol(s) = token else {
        return None;
    };
    operator_of(s).filter(|o| lowest <= o.level && o.level < top)
}

// Takes an operator of these levels, if one comes next.
fn take_operator(from: &mut Cursor<'_>, lowest: usize, top: usize) -> Option<Operator>
    ensures on { GoesOn from.old from.new }
    ensures read { Climbs lowest top from.old from.new result }
{
    let t = peek(from);
    let o = joining(t.token, lowest, top)?;
    *from = t.next;
    Some(o)
}

impl Parser<'_, '_> {
    ghost use Rattle.std.specs.Prelude.{◌<◌, [], ◌∷◌};
    ghost use Rattle.lexer.specs.declared.symbol.Symbol.TheVariants.{Open as OpenSign, Close as CloseSign};
    ghost use Rattle.parser.specs.Actions.{apply, wrap};
    ghost use Rattle.parser.specs.Machine.{must, acts, ladder, iterating2, covering, sign as sign_item, any_word, expr as expr_item, operand as operand_item, subsets as subsets_item, entry as entry_item, arg as arg_item};
    ghost use Rattle.parser.specs.Built.{value};
    ghost use Rattle.parser.specs.Parsed.{Keeps, Parsed, OpenedRead};

    /// Reads an expression: a condense form, a coverage form or a chain.
    #[cycle(expression)]
    pub fn expr(&mut self) -> Result<Done, usize>
        ensures keeps { Keeps self.old self.new }
        ensures read { Parsed (expr_item ∷ []) [] self.old self.new result }
    {
        match take_start(&mut self.from) {
            Start::Condense(place) => self.condense(place),
            Start::Coverage(place) => self.form(place),
            Start::Chain => self.chain(LEVELS),
        }
    }

    // What follows the word `condense`, which stands at `place`. Kept out of `expr`, as `form` is: their lists would
    // lie in the frame of every bracket.
    #[cycle(expression)]
    #[inline(never)]
    fn condense(&mut self, place: usize) -> Result<Done, usize>
        ensures keeps { Keeps self.old self.new }
        ensures read { Parsed (sign_item place ∷ []) [] self.old self.new result }
    {
        let fold = take_sign(&mut self.from)?;
        expect(&mut self.from, Symbol::Over)?;
        let iterators = iterators(&mut self.from)?;
        if eat(&mut self.from, Symbol::Where) {
            let pick = self.expr()?;
            expect(&mut self.from, Symbol::Using)?;
            let body = self.expr()?;
            let construct = Construct::CondenseWhere(fold, iterators, pick.root, body.root);
            Ok(self.add(place, construct, deeper(pick.inner.max(body.inner))))
        } else {
            expect(&mut self.from, Symbol::Using)?;
            let body = self.expr()?;
            let construct = Construct::Condense(fold, iterators, body.root);
            Ok(self.add(place, construct, deeper(body.inner)))
        }
    }

    // What follows the word `coverage`, which stands at `place`. The form's own word has no effect.
    #[cycle(expression)]
    #[inline(never)]
    fn form(&mut self, place: usize) -> Result<Done, usize>
        ensures keeps { Keeps self.old self.new }
        ensures read { Parsed (any_word ∷ iterating2 (covering place) []) [] self.old self.new result }
    {
        take_word(&mut self.from)?;
        expect(&mut self.from, Symbol::Over)?;
        let iterators = iterators(&mut self.from)?;
        expect(&mut self.from, Symbol::Values)?;
        let body = self.expr()?;
        Ok(self.add(
            place,
            Construct::Form(iterators, body.root),
            deeper(body.inner),
        ))
    }

    // A chain of the levels below `top`: an operand, and operators with their right operands, from the left.
    #[cycle(expression)]
    fn chain(&mut self, top: usize) -> Result<Done, usize>
        ensures keeps { Keeps self.old self.new }
        ensures read { Parsed (operand_item ∷ ladder top 0) [] self.old self.new result }
    {
        let mut left = self.operand()?;
        let mut lowest = 0;
        while let Some(o) = take_operator(&mut self.from, lowest, top) {
            let right = self.chain(o.level)?;
            let construct = Construct::Binary(o.binary, left.root, right.root);
            left = self.add(left.place, construct, left.inner.max(right.inner));
            lowest = if o.level == COMPARISONS {
                COMPARISONS + 1
            } else {
                o.level
            };
        }
        Ok(left)
    }

    // An operand: prefixes, a primary and its subsets.
    #[cycle(expression)]
    fn operand(&mut self) -> Result<Done, usize>
        ensures keeps { Keeps self.old self.new }
        ensures read { Parsed (operand_item ∷ []) [] self.old self.new result }
    {
        let t = next(&mut self.from);
        let leaf = match t.token {
            Token::Numeral(_, n) => Construct::Numeral(n),
            Token::Variable(w) => Construct::Name(Part {
                place: t.place + 1,
                length: w.len(),
            }),
            Token::Word(w) => Construct::Iterator(Part {
                place: t.place,
                length: w.len(),
            }),
            Token::Symbol(s) => {
                let opening = opening_of(s).ok_or(t.place)?;
                return self.opened(opening, t.place);
            }
            Token::Bad | Token::End => return Err(t.place),
        };
        let d = self.add(t.place, leaf, 0);
        self.subsets(d)
    }

    // What follows a symbol that begins an operand, and stands at `place`.
    #[cycle(expression)]
    fn opened(&mut self, opening: Opening, place: usize) -> Result<Done, usize>
        requires { self.old.count < self.old.from.at }
        ensures keeps { Keeps self.old self.new }
        ensures read { OpenedRead opening place self.old self.new result }
    {
        match opening {
            Opening::Round => self.round(place),
            Opening::Truth(b) => {
                let d = self.add(place, Construct::Truth(b), 0);
                self.subsets(d)
            }
            Opening::Prefix(u) => {
                let d = self.operand()?;
                Ok(self.add(place, Construct::Unary(u, d.root), d.inner))
            }
            Opening::Function(f) => self.function(f, place),
        }
    }

    // What follows an open round bracket, which stands at `place`.
    #[cycle(expression)]
    fn round(&mut self, place: usize) -> Result<Done, usize>
        ensures keeps { Keeps self.old self.new }
        ensures read { Parsed (expr_item ∷ must CloseSign ∷ acts (wrap place) ∷ subsets_item ∷ []) [] self.old self.new result }
    {
        let d = self.expr()?;
        expect(&mut self.from, Symbol::Close)?;
        self.subsets(Done {
            place,
            inner: deeper(d.inner),
            ..d
        })
    }

    // What follows the name of a function, which stands at `place`.
    #[cycle(expression)]
    fn function(&mut self, f: Function, place: usize) -> Result<Done, usize>
        ensures keeps { Keeps self.old self.new }
        ensures read { Parsed (must OpenSign ∷ expr_item ∷ must CloseSign ∷ acts (apply place f) ∷ subsets_item ∷ []) [] self.old self.new result }
    {
        expect(&mut self.from, Symbol::Open)?;
        let d = self.expr()?;
        expect(&mut self.from, Symbol::Close)?;
        let construct = match f {
            Function::Abs => Construct::Unary(Unary::Abs, d.root),
            Function::Over(r) => Construct::Reduce(r, d.root),
        };
        let d = self.add(place, construct, deeper(d.inner));
        self.subsets(d)
    }

    // The square brackets that follow what was read.
    #[cycle(expression)]
    fn subsets(&mut self, of: Done) -> Result<Done, usize>
        ensures keeps { Keeps self.old self.new }
        ensures read { Parsed (subsets_item ∷ []) (value of ∷ []) self.old self.new result }
    {
        let mut d = of;
        while eat(&mut self.from, Symbol::OpenSquare) {
            d = self.entries(d, NONE_SEEN)?;
        }
        Ok(d)
    }

    // The entries of a square bracket, to after its end. Axes of earlier entries are marked as seen.
    #[cycle(expression)]
    fn entries(&mut self, of: Done, seen: PerAxis<bool>) -> Result<Done, usize>
        ensures keeps { Keeps self.old self.new }
        ensures read { Parsed (entry_item seen ∷ []) (value of ∷ []) self.old self.new result }
    {
        let axis = take_axis(&mut self.from)?;
        expect(&mut self.from, Symbol::Open)?;
        let d = self.argument(of, seen.on(axis), axis)?;
        if eat(&mut self.from, Symbol::Comma) {
            return self.entries(d, seen.with(axis, true));
        }
        expect(&mut self.from, Symbol::CloseSquare)?;
        Ok(d)
    }

    // What an entry has in its round brackets: a range, for a trim, or a position, for a slice.
    #[cycle(expression)]
    fn argument(&mut self, of: Done, again: bool, axis: Axis) -> Result<Done, usize>
        ensures keeps { Keeps self.old self.new }
        ensures read { Parsed (arg_item again axis ∷ []) (value of ∷ []) self.old self.new result }
    {
        match lower_end(&mut self.from) {
            Some(lo) => {
                let hi = upper_end(&mut self.from)?;
                let construct = Construct::Trim(again, axis, Range { lo, hi }, of.root);
                Ok(self.add(of.place, construct, of.inner))
            }
            None => {
                let position = self.expr()?;
                expect(&mut self.from, Symbol::Close)?;
                let construct = Construct::Slice(again, axis, of.root, position.root);
                Ok(self.add(of.place, construct, of.inner.max(deeper(position.inner))))
            }
        }
    }
}
