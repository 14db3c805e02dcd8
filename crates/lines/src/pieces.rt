// The pieces of a form. Each goes past its bytes and answers what they say, or the place where the line stops.
ghost use Rattle.std.specs.Prelude.{◌≡◌, ◌+◌, true, [], ◌∷◌, ◌++◌, codes, IfErr};
ghost use Rattle.std.specs.List.{prefix_len};
ghost use Rattle.cursor.specs.Moves.{GoesOn};
ghost use Rattle.cursor.specs.Rest.{rest};
ghost use Rattle.lines.specs.Numerals.{all_numbers, is_count, is_number, words_of};
ghost use Rattle.lines.specs.Pieces.{Ends, IsPart, Read, Reads, digits as some_digits, is_grid_name, is_name_byte, name as a_name, number as a_number, others, text as a_text, word as exactly};
ghost use Rattle.lines.specs.Says.{Counts, Numbers};

use crate::numeral::{count_of, int_of};
use cursor::Cursor;

/// The fixed bytes `word`.
pub fn literal(from: &mut Cursor, word: &[u8]) -> Result<(), usize>
    ensures on { GoesOn from.old from.new }
    ensures read { Read (exactly word.now ∷ []) (λ w _. w ≡ word.now) from.old from.new result }
    ensures stays { IfErr result (λ _. from.new.at ≡ from.old.at) }
{
    from.literal(word)
}

/// Any bytes of a name, none too: neither blanks nor brackets.
pub fn name<'a>(from: &mut Cursor<'a>) -> &'a [u8]
    ensures read { Reads (a_name ∷ []) result.now from.old from.new }
    ensures name { is_grid_name result.now ≡ true }
    ensures longest { from.new.at ≡ from.old.at + prefix_len is_name_byte (rest from.old) }
{
    from.run(|b| b != b' ' && b != b'(' && b != b')')
}

/// Digits, one at least.
pub fn digits<'a>(from: &mut Cursor<'a>) -> Result<&'a [u8], usize>
    ensures on { GoesOn from.old from.new }
    ensures read { Read (some_digits ∷ []) (λ w a. IsPart is_count w a.now) from.old from.new result }
{
    let digits = from.run(|b| b.is_ascii_digit());
    if digits.is_empty() {
        return Err(from.at);
    }
    Ok(digits)
}

/// A numeral: at most one minus, then digits, one at least.
pub fn numeral<'a>(from: &mut Cursor<'a>) -> Result<&'a [u8], usize>
    ensures on { GoesOn from.old from.new }
    ensures read { Read (a_number ∷ []) (λ w a. IsPart is_number w a.now) from.old from.new result }
{
    let start = from.at;
    from.eat(b'-');
    digits(from)?;
    Ok(&from.text[start..from.at])
}

/// Numerals with one blank between them, one at least.
pub fn numerals<'a>(from: &mut Cursor<'a>) -> Result<&'a [u8], usize>
    ensures on { GoesOn from.old from.new }
    ensures read { Read (a_number ∷ others ∷ []) (λ w a. IsPart (λ v. all_numbers (words_of v)) w a.now) from.old from.new result }
{
    let start = from.at;
    numeral(from)?;
    while from.eat(b' ') {
        numeral(from)?;
    }
    Ok(&from.text[start..from.at])
}

/// A count.
pub fn count(from: &mut Cursor) -> Result<usize, usize>
    ensures on { GoesOn from.old from.new }
    ensures read { Read (some_digits ∷ []) Counts from.old from.new result }
{
    digits(from).map(count_of)
}

/// A number.
pub fn number(from: &mut Cursor) -> Result<i64, usize>
    ensures on { GoesOn from.old from.new }
    ensures read { Read (a_number ∷ []) Numbers from.old from.new result }
{
    numeral(from).map(int_of)
}

/// The closing bracket with which the line ends.
pub fn last(from: &mut Cursor) -> Result<(), usize>
    ensures on { GoesOn from.old from.new }
    ensures read { Ends (exactly (codes ")") ∷ []) (λ w _. w ≡ codes ")") from.old result }
{
    literal(from, b")")?;
    match from.byte() {
        None => Ok(()),
        Some(_) => Err(from.at),
    }
}

/// The text of a query: it goes to the last byte of the line, which is a closing bracket.
pub fn query<'a>(from: &Cursor<'a>) -> Result<&'a [u8], usize>
    ensures { Ends (a_text ∷ []) (λ w q. w ≡ q.now ++ codes ")") from.now result }
{
    from.rest().strip_suffix(b")").ok_or(from.text.len())
}
