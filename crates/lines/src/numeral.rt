// The values of numerals of any length, as far as they can be told.
ghost use Rattle.std.specs.Prelude.{◌≡◌, ◌==◌, true, not, drop, pos, int_le, nat_lt};
ghost use Rattle.lines.specs.Numerals.{all_digits, digits_of, has_minus, is_number, signed_worth, told_cell, told_count, told_number, told_range, worth};
ghost use Rattle.std.specs.List.{prefix_len};
ghost use Rattle.coverage.specs.Limits.{ordered};

use coverage::Range;
use cursor::Cursor;
use std::cmp::Ordering;

/// The value of decimal digits, or the largest `usize` where it is larger.
pub fn count_of(digits: &[u8]) -> usize
    ensures { result ≡ told_count (worth digits.now) }
{
    digits.iter().fold(0usize, |n, b| {
        n.saturating_mul(10)
            .saturating_add(usize::from(b.saturating_sub(b'0')))
    })
}

/// Whether a numeral has a minus.
fn is_negative(numeral: &[u8]) -> bool
    ensures { result ≡ has_minus numeral.now }
{
    numeral.starts_with(b"-")
}

/// The digits of a numeral, without its minus.
fn digits_of(numeral: &[u8]) -> &[u8]
    ensures { result.now ≡ digits_of numeral.now }
{
    numeral.strip_prefix(b"-").unwrap_or(numeral)
}

/// The value of decimal digits, or the largest `i64` where it is larger.
fn magnitude_of(digits: &[u8]) -> i64
    ensures { result ≡ told_number (pos (worth digits.now)) }
{
    i64::try_from(count_of(digits)).unwrap_or(i64::MAX)
}

/// The value of a numeral, or the farthest on its side of 0 that can be told.
pub fn int_of(numeral: &[u8]) -> i64
    ensures { result ≡ told_number (signed_worth numeral.now) }
{
    if is_negative(numeral) {
        -magnitude_of(digits_of(numeral))
    } else {
        magnitude_of(numeral)
    }
}

/// The value of a cell, or the one that is of no kind where it is past 32 bits.
pub fn cell_of(numeral: &[u8]) -> i32
    ensures { result ≡ told_cell (signed_worth numeral.now) }
{
    i32::try_from(int_of(numeral)).unwrap_or(i32::MIN)
}

/// The digits of a number, from the first that is not 0 on.
fn significant(digits: &[u8]) -> &[u8]
    ensures { result.now ≡ drop (prefix_len (λ b. b == 48) digits.now) digits.now }
{
    let mut from = Cursor::new(digits);
    from.run(|b| b == b'0');
    from.rest()
}

/// Whether one number is above another, whatever their lengths.
fn is_more(a: &[u8], b: &[u8]) -> bool
    ensures { all_digits a.now ≡ true → all_digits b.now ≡ true → result ≡ nat_lt (worth b.now) (worth a.now) }
{
    let (a, b) = (significant(a), significant(b));
    (a.len(), a) > (b.len(), b)
}

/// Whether ends that are told alike are upside down.
fn is_upside_down(told: i64, lo: &[u8], hi: &[u8]) -> bool
    ensures { is_number lo.now ≡ true → is_number hi.now ≡ true → told ≡ told_number (signed_worth lo.now) → told ≡ told_number (signed_worth hi.now) → result ≡ not (int_le (signed_worth lo.now) (signed_worth hi.now)) }
{
    match told.cmp(&0) {
        Ordering::Greater => is_more(digits_of(lo), digits_of(hi)),
        Ordering::Less => is_more(digits_of(hi), digits_of(lo)),
        Ordering::Equal => false,
    }
}

/// A range by the numerals of its ends: the lowest is above the highest just where it is so written.
pub fn range_of(lo: &[u8], hi: &[u8]) -> Range
    ensures value { is_number lo.now ≡ true → is_number hi.now ≡ true → result ≡ told_range (signed_worth lo.now) (signed_worth hi.now) }
    ensures order { is_number lo.now ≡ true → is_number hi.now ≡ true → ordered result ≡ int_le (signed_worth lo.now) (signed_worth hi.now) }
{
    let low = int_of(lo);
    let high = int_of(hi);
    if low == high && is_upside_down(low, lo, hi) {
        return Range { lo: 1, hi: 0 };
    }
    Range { lo: low, hi: high }
}
