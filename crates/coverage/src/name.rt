ghost use Rattle.coverage.specs.Limits.{all_bytes, is_letter, is_name, is_word_byte, name_bytes};
ghost use Rattle.std.specs.Option.{option_map};
ghost use Rattle.std.specs.Prelude.{◌≡◌, if◌then◌else◌, Some, None};
ghost use Rattle.std.specs.Str.{bytes_eq};

/// The name of a coverage: the first `len` of the bytes.
// A buffer with its length: there is no heap for it, and a name is copied with its description.
#[derive(Clone, Copy)]
pub struct Name {
    pub len: usize,
    pub bytes: [u8; 16],
}

/// Whether a byte is an ASCII letter.
pub fn is_letter(b: u8) -> bool
    ensures { result ≡ is_letter b }
{
    b.is_ascii_alphabetic()
}

/// Whether a byte may stand in a word after its first: a letter, a digit or an underscore.
pub fn is_word_byte(b: u8) -> bool
    ensures { result ≡ is_word_byte b }
{
    b.is_ascii_alphanumeric() || b == b'_'
}

/// Whether all bytes may stand in a word.
fn all_word_bytes(text: &[u8]) -> bool
    ensures { result ≡ all_bytes text.now }
{
    text.iter().all(|b| is_word_byte(*b))
}

/// Whether bytes are a name: a letter, and up to 15 more letters, digits or underscores.
pub fn is_name(text: &[u8]) -> bool
    ensures { result ≡ is_name text.now }
{
    text.len() <= 16 && text.first().is_some_and(|b| is_letter(*b)) && all_word_bytes(text)
}

impl Name {
    /// The name of these bytes, or none where they are no name.
    pub fn new(text: &[u8]) -> Option<Name>
        ensures { option_map name_bytes result ≡ (if is_name text.now then Some text.now else None) }
    {
        if !is_name(text) {
            return None;
        }
        let mut bytes = [0; 16];
        let len = text.len();
        bytes[0..len].copy_from_slice(text);
        Some(Name { len, bytes })
    }

    /// Whether the name is made of these bytes.
    pub fn is(self, text: &[u8]) -> bool
        ensures { result ≡ bytes_eq (name_bytes self) text.now }
    {
        let bytes = self.bytes;
        let len = self.len.min(16);
        let own = &bytes[0..len];
        own == text
    }
}
