//! The words of a line.

ghost use Rattle.std.specs.Prelude.{◌≡◌, ◌∷◌, [], MatchOption, ◌≤◌, ◌||◌, true, false, codes, length};
ghost use Rattle.bohm_text.specs.Ahead.{is_ahead};
ghost use Rattle.bohm_text.specs.Cut.{split};
ghost use Rattle.bohm_text.specs.Signs.{begins_signed, behind_sign, sign_ahead};

use crate::fixed_words::{begins_test, behind_equals};
use crate::separators::{space_at, space_near};
use bohm_types::PackedWord;
use std::marker::Model;

/// The rest of a line: its words, with one space between adjacent words.
#[derive(Drop)]
pub struct Words<'a> {
    rest: Option<&'a [u8]>,
}

impl<'a> Model for Words<'a> {
    ghost use Rattle.std.specs.Prelude.{List, ℕ};

    ghost Value = { List (List ℕ) };

    ghost use Rattle.bohm_text.specs.WordsInside.{words_of};

    ghost view = { words_of };
}

/// Whether the bytes begin with a sign and a space.
#[inline(always)]
#[tactic(auto, unfolding(crate::specs::Signs::begins_signed))]
fn begins_signed(bytes: &[u8]) -> bool
    ensures signed { result ≡ begins_signed bytes.now }
    ensures long { result ≡ true → 2 ≤ length bytes.now }
{
    match bytes {
        [sign, space, ..] => *space == b' ' && (*sign == b'-' || *sign == b'+'),
        _ => false,
    }
}

impl<'a> Words<'a> {
    pub fn of(line: &'a [u8]) -> Words<'a>
        ensures { result ≡ split 32 line.now }
    {
        Words { rest: Some(line) }
    }

    /// A copy, to be read independently.
    pub fn fork(&self) -> Words<'a>
        ensures { result ≡ self.now }
    {
        Words { rest: self.rest }
    }

    /// The sign of a further term, if the next word is a sign and another word follows it. In that
    /// case the sign is consumed.
    #[inline(always)]
    pub fn next_sign(&mut self) -> Option<bool>
        ensures sign { result ≡ sign_ahead self.old }
        ensures rest { self.new ≡ behind_sign result self.old }
    {
        let rest = self.rest?;
        if !begins_signed(rest) {
            return None;
        }
        self.rest = Some(&rest[2..]);
        Some(rest[0] == b'-')
    }

    /// Takes the next word if it is an equals sign and another word follows it.
    #[inline(always)]
    pub fn take_equals(&mut self) -> bool
        ensures taken { result ≡ true → self.old ≡ codes "=" ∷ self.new }
        ensures left { result ≡ false → self.new ≡ self.old }
    {
        let Some(rest) = self.rest else {
            return false;
        };
        match behind_equals(rest) {
            None => false,
            Some(words) => {
                self.rest = Some(words);
                true
            }
        }
    }

    /// Whether the next word is `has` or `no`, and another word follows it. At most 4 bytes are
    /// compared.
    #[inline(always)]
    pub fn begins_test(&self) -> bool
        ensures { result ≡ (is_ahead (codes "has") self.now || is_ahead (codes "no") self.now) }
    {
        match self.rest {
            Some(rest) => begins_test(rest),
            None => false,
        }
    }

    /// The next word, packed. If it is short and at least 8 bytes of the line are left, the 8 bytes
    /// are read at once. If fewer are left, they are packed first, and the packed number shows
    /// whether they are the last word.
    #[inline(always)]
    pub fn next_packed(&mut self) -> Option<PackedWord<'a>>
        ensures { MatchOption result ((self.old ≡ []) × (self.new ≡ []))
            (λ word. self.old ≡ word ∷ self.new) }
    {
        let rest = self.rest?;
        if let Some(at) = space_near(rest) {
            self.rest = Some(&rest[at + 1..]);
            return Some(PackedWord::front(rest, at));
        }
        if rest.len() < 8 {
            let word = PackedWord::new(rest);
            if word.lacks(b' ') {
                self.rest = None;
                return Some(word);
            }
        }
        Some(PackedWord::new(self.next()?))
    }

    #[inline(always)]
    pub fn next(&mut self) -> Option<&'a [u8]>
        ensures { MatchOption result ((self.old ≡ []) × (self.new ≡ []))
            (λ word. self.old ≡ word.now ∷ self.new) }
    {
        let rest = self.rest?;
        match space_at(rest) {
            None => {
                self.rest = None;
                Some(rest)
            }
            Some(at) => {
                self.rest = Some(&rest[at + 1..]);
                Some(&rest[..at])
            }
        }
    }
}
