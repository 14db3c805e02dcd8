use crate::symbol::Symbol;
use cursor::Cursor;

/// A token of a query's text. A word, a word after `$` (without it) and a numeral borrow their part of
/// the text; a numeral has its value too. What is no token, and the end of the text, are told as tokens:
/// who reads asks whether what comes next is the token that is due, and they are not.
#[derive(Clone, Copy, Debug, PartialEq, Eq)]
pub enum Token<'a> {
    Word(&'a [u8]),
    Variable(&'a [u8]),
    Numeral(&'a [u8], u32),
    Symbol(Symbol),
    Bad,
    End,
}

/// A token, the byte at which it begins, and the place after it.
#[derive(Clone, Copy)]
pub struct Lexed<'a> {
    pub token: Token<'a>,
    pub place: usize,
    pub next: Cursor<'a>,
}
