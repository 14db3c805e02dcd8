ghost use Rattle.std.specs.Prelude.{◌≡◌, ℕ, ◌+◌, ◌<◌, ◌≤◌, slice_index, MatchOption};
ghost use Rattle.lexer.specs.Bytes.{blank, part, run};
ghost use Rattle.lexer.specs.Reserved.{or_else};
ghost use Rattle.lexer.specs.Tokens.{tok, bad, seen};
ghost use Rattle.lexer.specs.Lexing.{cut, mark_token, pair_token, word_at, variable_at, numeral_at, rows_at, mark_at, token_at};
ghost use Rattle.lexer.specs.Toks.{Peeked};

use crate::numeral::small_value;
use crate::reserved::word_token;
use crate::symbol::Symbol;
use crate::token::{Lexed, Token};
use coverage::name::is_word_byte;
use cursor::Cursor;

const LONGEST_WORD: usize = 16;

// Whether a byte separates tokens.
fn is_blank(b: u8) -> bool
    ensures { result ≡ blank b }
{
    matches!(b, b'\t' | b'\n' | b'\r' | b' ')
}

// The word that stands here, unless it is longer than 16 bytes.
fn short_word<'a>(from: &mut Cursor<'a>) -> Option<&'a [u8]>
    ensures text { from.new.text.now ≡ from.old.text.now }
    ensures end { from.new.at ≡ from.old.at + run part from.old.text.now from.old.at }
    ensures word { let n = run part from.old.text.now from.old.at in MatchOption result (16 < n) (λ w. (n ≤ 16) × (w.now ≡ cut from.old.text.now from.old.at n)) }
{
    let word = from.run(is_word_byte);
    (word.len() <= LONGEST_WORD).then_some(word)
}

// A word that begins here.
fn word<'a>(from: &mut Cursor<'a>) -> Token<'a>
    ensures text { from.new.text.now ≡ from.old.text.now }
    ensures token { seen (tok result) from.old.at from.new.at ≡ word_at from.old.text.now from.old.at }
{
    match short_word(from) {
        Some(word) => word_token(word),
        None => Token::Bad,
    }
}

// A numeral that begins here.
fn numeral<'a>(from: &mut Cursor<'a>) -> Token<'a>
    ensures text { from.new.text.now ≡ from.old.text.now }
    ensures token { seen (tok result) from.old.at from.new.at ≡ numeral_at from.old.text.now from.old.at }
{
    let digits = from.run(|b| b.is_ascii_digit());
    match small_value(digits) {
        Some(n) => Token::Numeral(digits, n),
        None => Token::Bad,
    }
}

// The word after a `$`.
fn variable<'a>(from: &mut Cursor<'a>) -> Token<'a>
    ensures text { from.new.text.now ≡ from.old.text.now }
    ensures token { (s : ℕ) → from.old.at ≡ s + 1 → seen (tok result) s from.new.at ≡ variable_at from.old.text.now s }
{
    if !from.byte().is_some_and(|b| b.is_ascii_alphabetic()) {
        return Token::Bad;
    }
    match short_word(from) {
        Some(word) => Token::Variable(word),
        None => Token::Bad,
    }
}

// The text `"rows"` after its first quote.
fn rows(from: &mut Cursor<'_>) -> Token<'static>
    ensures text { from.new.text.now ≡ from.old.text.now }
    ensures token { (s : ℕ) → from.old.at ≡ s + 1 → slice_index from.old.text.now s ≡ 34 → seen (tok result) s from.new.at ≡ rows_at from.old.text.now s }
{
    match from.literal(b"rows\"") {
        Ok(()) => Token::Symbol(Symbol::Rows),
        Err(_) => Token::Bad,
    }
}

// A mark of one byte.
fn mark_token(b: u8) -> Token<'static>
    ensures { tok result ≡ mark_token b }
{
    match b {
        b'(' => Token::Symbol(Symbol::Open),
        b')' => Token::Symbol(Symbol::Close),
        b'[' => Token::Symbol(Symbol::OpenSquare),
        b']' => Token::Symbol(Symbol::CloseSquare),
        b',' => Token::Symbol(Symbol::Comma),
        b':' => Token::Symbol(Symbol::Colon),
        b'+' => Token::Symbol(Symbol::Plus),
        b'-' => Token::Symbol(Symbol::Minus),
        b'*' => Token::Symbol(Symbol::Star),
        b'/' => Token::Symbol(Symbol::Slash),
        b'=' => Token::Symbol(Symbol::Equal),
        b'<' => Token::Symbol(Symbol::Less),
        b'>' => Token::Symbol(Symbol::Greater),
        _ => Token::Bad,
    }
}

// The mark of two bytes that begins with this one; the second is `=`.
fn pair(b: u8) -> Option<Symbol>
    ensures { or_else result bad ≡ pair_token b }
{
    match b {
        b'!' => Some(Symbol::Unequal),
        b'<' => Some(Symbol::AtMost),
        b'>' => Some(Symbol::AtLeast),
        _ => None,
    }
}

// A mark after its first byte: the longer one if there is one.
fn mark(from: &mut Cursor<'_>, first: u8) -> Token<'static>
    ensures text { from.new.text.now ≡ from.old.text.now }
    ensures token { (s : ℕ) → from.old.at ≡ s + 1 → slice_index from.old.text.now s ≡ first → seen (tok result) s from.new.at ≡ mark_at from.old.text.now s }
{
    if let Some(symbol) = pair(first)
        && from.eat(b'=')
    {
        Token::Symbol(symbol)
    } else {
        mark_token(first)
    }
}

// The token that begins here.
fn token_here<'a>(from: &mut Cursor<'a>) -> Token<'a>
    ensures text { from.new.text.now ≡ from.old.text.now }
    ensures token { seen (tok result) from.old.at from.new.at ≡ token_at from.old.text.now from.old.at }
{
    let Some(first) = from.byte() else {
        return Token::End;
    };
    if first.is_ascii_alphabetic() {
        return word(from);
    }
    if first.is_ascii_digit() {
        return numeral(from);
    }
    from.eat(first);
    match first {
        b'$' => variable(from),
        b'"' => rows(from),
        _ => mark(from, first),
    }
}

/// The token at or after a place: with the tokens after it, it is all of the tokens from there on.
pub fn peek<'a>(from: &Cursor<'a>) -> Lexed<'a>
    ensures { Peeked from.now.text.now from.now.at result }
{
    let mut next = *from;
    next.run(is_blank);
    let place = next.at;
    let token = token_here(&mut next);
    Lexed { token, place, next }
}
