ghost use Rattle.std.specs.Prelude.{◌≡◌};
ghost use Rattle.lexer.specs.Toks.{toks, first_bad};

use crate::next::peek;
use crate::token::Token;
use cursor::Cursor;

/// The place of the first byte of no token, numeral too large or word too long.
pub fn first_bad(text: &[u8]) -> Option<usize>
    ensures { result ≡ first_bad (toks text.now 0) }
{
    let mut from = Cursor::new(text);
    // Nothing is counted: each turn goes on where the last token ended, and two kinds of token end it.
    loop {
        let t = peek(&from);
        match t.token {
            Token::End => return None,
            Token::Bad => return Some(t.place),
            _ => from = t.next,
        }
    }
}
