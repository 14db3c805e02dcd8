ghost use Rattle.std.specs.Prelude.{◌≡◌, ◌<◌, ◌≤◌, Some, None, IfOk, IfErr, unsigned_abs};
ghost use Rattle.std.specs.Option.{option_map};
ghost use Rattle.lexer.specs.Tokens.{tok};
ghost use Rattle.lexer.specs.Toks.{Peeked};
ghost use Rattle.lexer.specs.declared.token.Lexed.{Lexed as ALexed};
ghost use Rattle.parser.specs.Axes.{axis_of};
ghost use Rattle.parser.specs.Roles.{fold_of, number_of, word_of, variable_of};
ghost use Rattle.parser.specs.Reads.{GoesOn, Stood, Starts, Expected, Eaten, Ended, TakenAs, as_axis, as_fold, as_number, as_word, as_variable, LimitRead, Ahead, RangeEnds};

use crate::node::Part;
use crate::roles::fold_of;
use coverage::Axis;
use cursor::Cursor;
use lexer::{Lexed, Symbol, Token, peek};
use syntax::Fold;

/// The axis whose word a token is.
pub fn axis_of(token: Token) -> Option<Axis>
    ensures { result ≡ axis_of (tok token.entry) }
{
    match token {
        Token::Word(b"x") => Some(Axis::X),
        Token::Word(b"y") => Some(Axis::Y),
        Token::Word(b"t") => Some(Axis::T),
        _ => None,
    }
}

/// The value of a numeral.
pub fn number_of(token: Token) -> Option<u32>
    ensures { result ≡ number_of (tok token.entry) }
{
    match token {
        Token::Numeral(_, n) => Some(n),
        _ => None,
    }
}

/// Takes the next token, whatever it is.
pub(crate) fn next<'t>(from: &mut Cursor<'t>) -> Lexed<'t>
    ensures on { GoesOn from.old from.new }
    ensures next { Peeked from.old.text.now from.old.at result }
    ensures moved { from.new ≡ result.next }
{
    let t = peek(from);
    *from = t.next;
    t
}

// Takes the next token, if `read` makes something of it; else tells its place.
fn take<'t, T, F: Fn(Lexed<'t>) -> Option<T>>(from: &mut Cursor<'t>, read: F) -> Result<T, usize>
    requires { (t : ALexed) → Peeked from.old.text.now from.old.at t → F.pre read t }
    ensures on { GoesOn from.old from.new }
    ensures taken { IfOk result (λ v. (t : ALexed) × Peeked from.old.text.now from.old.at t × F.post read t (Some v) × (from.new ≡ t.next)) }
    ensures missed { IfErr result (λ p. (t : ALexed) × Peeked from.old.text.now from.old.at t × F.post read t None × (t.place ≡ p)) }
    ensures stays { IfErr result (λ _. from.new ≡ from.old) }
{
    let t = peek(from);
    let Some(taken) = read(t) else {
        return Err(t.place);
    };
    *from = t.next;
    Ok(taken)
}

/// Takes a symbol that is due, or leaves what stands there. It tells the place of either.
pub fn expect(from: &mut Cursor<'_>, want: Symbol) -> Result<usize, usize>
    ensures on { GoesOn from.old from.new }
    ensures next { Stood want from.old from.new result }
    ensures read { Expected want from.old from.new result }
{
    let t = peek(from);
    if t.token == Token::Symbol(want) {
        *from = t.next;
        Ok(t.place)
    } else {
        Err(t.place)
    }
}

/// Goes past a symbol if it comes next, and answers whether it does.
pub(crate) fn eat(from: &mut Cursor<'_>, symbol: Symbol) -> bool
    ensures on { GoesOn from.old from.new }
    ensures read { Eaten symbol from.old from.new result }
{
    expect(from, symbol).is_ok()
}

/// How an expression begins: with the word of a form, which stands at a place, or as a chain.
#[derive(Clone, Copy)]
pub(crate) enum Start {
    Condense(usize),
    Coverage(usize),
    Chain,
}

// One look for both words: what comes next may be long, or stand behind many blanks.
/// Goes past the word of a form if it comes next, and answers how the expression begins.
pub(crate) fn take_start(from: &mut Cursor<'_>) -> Start
    ensures on { GoesOn from.old from.new }
    ensures read { Starts from.old from.new result }
{
    let t = peek(from);
    if t.token == Token::Symbol(Symbol::Condense) {
        *from = t.next;
        Start::Condense(t.place)
    } else if t.token == Token::Symbol(Symbol::Coverage) {
        *from = t.next;
        Start::Coverage(t.place)
    } else {
        Start::Chain
    }
}

/// Takes the end of the text.
pub(crate) fn take_end(from: &mut Cursor<'_>) -> Result<(), usize>
    ensures on { GoesOn from.old from.new }
    ensures read { Ended from.old result }
{
    let t = next(from);
    match t.token {
        Token::End => Ok(()),
        _ => Err(t.place),
    }
}

/// Takes the word of an axis.
pub fn take_axis(from: &mut Cursor<'_>) -> Result<Axis, usize>
    ensures on { GoesOn from.old from.new }
    ensures read { TakenAs axis_of as_axis from.old from.new result }
    ensures stays { IfErr result (λ _. from.new ≡ from.old) }
{
    take(from, |t| axis_of(t.token))
}

/// Takes a word.
pub fn take_word(from: &mut Cursor<'_>) -> Result<Part, usize>
    ensures on { GoesOn from.old from.new }
    ensures read { TakenAs word_of as_word from.old from.new result }
    ensures stays { IfErr result (λ _. from.new ≡ from.old) }
{
    take(from, |t| match t.token {
        Token::Word(w) => Some(Part {
            place: t.place,
            length: w.len(),
        }),
        _ => None,
    })
}

// The word after a `$`.
fn after_dollar(t: Lexed<'_>) -> Option<Part>
    requires { t.place < usize.MAX }
    ensures { result ≡ option_map (λ w. as_variable w t.entry.place) (variable_of (tok t.entry.token)) }
{
    match t.token {
        Token::Variable(w) => Some(Part {
            place: t.place + 1,
            length: w.len(),
        }),
        _ => None,
    }
}

/// Takes a `$` word: the word without its `$`.
pub fn take_variable(from: &mut Cursor<'_>) -> Result<Part, usize>
    ensures on { GoesOn from.old from.new }
    ensures read { TakenAs variable_of as_variable from.old from.new result }
    ensures stays { IfErr result (λ _. from.new ≡ from.old) }
{
    take(from, after_dollar)
}

/// Takes the sign of a condense form.
pub fn take_sign(from: &mut Cursor<'_>) -> Result<Fold, usize>
    ensures on { GoesOn from.old from.new }
    ensures read { TakenAs fold_of as_fold from.old from.new result }
    ensures stays { IfErr result (λ _. from.new ≡ from.old) }
{
    take(from, |t| match t.token {
        Token::Symbol(s) => fold_of(s),
        _ => None,
    })
}

/// Takes a numeral.
pub fn take_number(from: &mut Cursor<'_>) -> Result<u32, usize>
    ensures on { GoesOn from.old from.new }
    ensures read { TakenAs number_of as_number from.old from.new result }
    ensures stays { IfErr result (λ _. from.new ≡ from.old) }
{
    take(from, |t| number_of(t.token))
}

/// Takes an end of a range: a numeral with at most one minus.
pub fn take_limit(from: &mut Cursor<'_>) -> Result<i64, usize>
    ensures on { GoesOn from.old from.new }
    ensures read { LimitRead from.old from.new result }
    ensures small { IfOk result (λ v. unsigned_abs v ≤ 4294967295) }
{
    let minus = eat(from, Symbol::Minus);
    let size = i64::from(take_number(from)?);
    Ok(if minus { -size } else { size })
}

/// Takes the first end of a range and its colon, if both come next.
pub(crate) fn lower_end(from: &mut Cursor<'_>) -> Option<i64>
    ensures on { GoesOn from.old from.new }
    ensures read { Ahead from.old from.new result }
{
    let mut ahead = *from;
    let minus = eat(&mut ahead, Symbol::Minus);
    let t = peek(&ahead);
    let size = i64::from(number_of(t.token)?);
    ahead = t.next;
    if !eat(&mut ahead, Symbol::Colon) {
        return None;
    }
    *from = ahead;
    Some(if minus { -size } else { size })
}

/// Takes the second end of a range and the bracket that closes it.
pub(crate) fn upper_end(from: &mut Cursor<'_>) -> Result<i64, usize>
    ensures on { GoesOn from.old from.new }
    ensures read { RangeEnds from.old from.new result }
{
    let hi = take_limit(from)?;
    expect(from, Symbol::Close)?;
    Ok(hi)
}
