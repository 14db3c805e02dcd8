ghost use Rattle.std.specs.Prelude.{◌≡◌};
ghost use Rattle.lexer.specs.Reserved.{or_else, word_token};
ghost use Rattle.lexer.specs.Tokens.{tok, word};

use crate::symbol::Symbol;
use crate::token::Token;

// The symbol of a reserved word: of the words that hold a query's clauses together, the operators, the truth
// words and the functions.
#[tactic(auto, using(crate::proofs::Texts::few_bytes))]
fn reserved(w: &[u8]) -> Option<Symbol>
    ensures { or_else result (word w.now) ≡ word_token w.now }
{
    match w {
        b"for" => Some(Symbol::For),
        b"in" => Some(Symbol::In),
        b"return" => Some(Symbol::Return),
        b"encode" => Some(Symbol::Encode),
        b"rows" => Some(Symbol::RowsWord),
        b"condense" => Some(Symbol::Condense),
        b"coverage" => Some(Symbol::Coverage),
        b"over" => Some(Symbol::Over),
        b"where" => Some(Symbol::Where),
        b"using" => Some(Symbol::Using),
        b"values" => Some(Symbol::Values),
        b"overlay" => Some(Symbol::Overlay),
        b"or" => Some(Symbol::Or),
        b"xor" => Some(Symbol::Xor),
        b"and" => Some(Symbol::And),
        b"not" => Some(Symbol::Not),
        b"true" => Some(Symbol::True),
        b"false" => Some(Symbol::False),
        b"abs" => Some(Symbol::Abs),
        b"add" => Some(Symbol::Add),
        b"min" => Some(Symbol::Min),
        b"max" => Some(Symbol::Max),
        b"count" => Some(Symbol::Count),
        b"some" => Some(Symbol::SomeOf),
        b"all" => Some(Symbol::AllOf),
        _ => None,
    }
}

/// A word as a token: a reserved word's symbol, or the word.
pub fn word_token<'a>(w: &'a [u8]) -> Token<'a>
    ensures { tok result ≡ word_token w.now }
{
    match reserved(w) {
        Some(s) => Token::Symbol(s),
        None => Token::Word(w),
    }
}
