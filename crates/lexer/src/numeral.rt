ghost use Rattle.std.specs.Prelude.{◌≡◌, if◌then◌else◌, Some, None, min, nat_le};
ghost use Rattle.lexer.specs.Numerals.{decimal};

/// The largest value of a numeral.
pub const LARGEST: u32 = 2_147_483_647;

const TOO_LARGE: u32 = 2_147_483_648;

/// The value of a row of digits, unless it is too large for a numeral.
pub fn small_value(digits: &[u8]) -> Option<u32>
    ensures { result ≡ (if nat_le (decimal 0 digits.now) 2147483647 then Some (decimal 0 digits.now) else None) }
{
    let mut value: u32 = 0;
    for b in digits {
        let digit = u32::from(b.saturating_sub(b'0'));
        value = value.checked_mul(10)?.checked_add(digit)?;
    }
    Some(value).filter(|v| *v <= LARGEST)
}

/// The value of a row of digits; whatever is too large is told as 2,147,483,648.
pub fn value(digits: &[u8]) -> u32
    ensures { result ≡ min 2147483648 (decimal 0 digits.now) }
{
    small_value(digits).unwrap_or(TOO_LARGE)
}
