ghost use Rattle.std.specs.Prelude.{◌≡◌, ◌≢◌, ℕ, ◌+◌, ◌<◌, ◌≤◌, Bool, Some, ◌++◌, length, drop, slice_get, MatchBool, MatchResult};

use crate::lengths::{common_length, run_length};

/// A place in a text, at most its end.
#[derive(Clone, Copy)]
pub struct Cursor<'a> {
    pub text: &'a [u8],
    pub at: usize,
    pub ghost within: { at ≤ length text.now },
}

impl<'a> Cursor<'a> {
    ghost use Rattle.std.specs.List.{prefix_len, between};
    ghost use Rattle.cursor.specs.Tests.{Computes};
    ghost use Rattle.cursor.specs.Rest.{rest};
    ghost use Rattle.cursor.specs.Words.{stand};

    /// The start of a text.
    pub fn new(text: &'a [u8]) -> Cursor<'a>
        ensures text { result.text.now ≡ text.now }
        ensures start { result.at ≡ 0 }
    {
        Cursor { text, at: 0 }
    }

    /// The byte at the place, if it is not the end.
    pub fn byte(&self) -> Option<u8>
        ensures { result ≡ slice_get self.now.text.now self.now.at }
    {
        self.text.get(self.at).copied()
    }

    /// The text from the place on.
    pub fn rest(&self) -> &'a [u8]
        ensures { result.now ≡ rest self.now }
    {
        &self.text[self.at..]
    }

    /// Goes past the longest run of bytes of which the test holds, and answers the run.
    pub fn run<F: Fn(u8) -> bool>(&mut self, test: F) -> &'a [u8]
        requires { F.IsAlwaysCallable test }
        ensures text { self.new.text.now ≡ self.old.text.now }
        ensures forward { self.old.at ≤ self.new.at }
        ensures run { result.now ≡ between self.old.at self.new.at self.old.text.now }
        ensures rest { rest self.old ≡ result.now ++ rest self.new }
        ensures by_test { (p : ℕ → Bool) → Computes F.Fn p test → self.new.at ≡ self.old.at + prefix_len p (drop self.old.at self.old.text.now) }
    {
        let rest = self.rest();
        let length = run_length(rest, test);
        self.at += length;
        &rest[..length]
    }

    /// Goes past one byte if it stands at the place, and answers whether it does.
    pub fn eat(&mut self, byte: u8) -> bool
        ensures text { self.new.text.now ≡ self.old.text.now }
        ensures eaten { MatchBool result ((slice_get self.old.text.now self.old.at ≡ Some byte) × (self.new.at ≡ self.old.at + 1)) ((slice_get self.old.text.now self.old.at ≢ Some byte) × (self.new.at ≡ self.old.at)) }
    {
        let is_here = self.byte() == Some(byte);
        if is_here {
            self.at += 1;
        }
        is_here
    }

    /// Goes past fixed bytes if they stand at the place; else stays, and answers where other bytes begin.
    pub fn literal(&mut self, word: &[u8]) -> Result<(), usize>
        ensures text { self.new.text.now ≡ self.old.text.now }
        ensures read { MatchResult result (λ _. (self.new.at ≡ self.old.at + length word.now) × (between self.old.at self.new.at self.old.text.now ≡ word.now)) (λ p. (self.new.at ≡ self.old.at) × (p ≡ self.old.at + stand word.now (drop self.old.at self.old.text.now)) × (p < self.old.at + length word.now)) }
    {
        let length = common_length(word, self.rest());
        if length < word.len() {
            return Err(self.at + length);
        }
        self.at += length;
        Ok(())
    }
}
