//! A word of a text, packed so that it can be compared with names in place.

ghost use Rattle.std.specs.Prelude.{◌≡◌, ◌<◌, ◌≤◌, ◌==◌, None, true, length, take};
ghost use Rattle.std.specs.List.{position_from};
ghost use Rattle.std.specs.Int.{w64, from_be_bytes};
ghost use Rattle.bohm_types.specs.Words.{padded, words_of};

use crate::packing::{first_word, next_word, short_hash_at, short_hash_of, words_at};
use std::marker::Model;
use std::simd::prelude::*;

/// A word at the beginning of a text, and its first 8 bytes as a number: most significant byte
/// first, padded with zeros. It borrows the text.
#[derive(Drop)]
pub struct PackedWord<'a> {
    text: &'a [u8],
    size: usize,
    first: u64,
}

impl<'a> Model for PackedWord<'a> {
    ghost use Rattle.std.specs.Prelude.{◌≡◌, ◌≤◌, ℕ, List, length, take};
    ghost use Rattle.std.specs.Int.{w64, from_be_bytes};
    ghost use Rattle.bohm_types.specs.Words.{padded};

    ghost Value = { List ℕ };

    ghost view = { λ w. take w.size w.text.now };

    ghost invariant = { λ w. (w.size ≤ length w.text.now)
        × (w.first ≡ from_be_bytes w64 (padded 8 (take w.size w.text.now))) };
}

/// `short_hash` of a text's first `size` bytes, which are more than 7. Few words are this long: the
/// code isn't inlined, and it takes no packed word, so that packed words stay in registers.
#[inline(never)]
fn long_hash(text: &[u8], size: usize) -> usize
    requires { size ≤ length text.now }
    ensures { result < 256 }
{
    short_hash_at(&words_at(text, size))
}

/// Whether a packed word doesn't contain a byte. The padding has zeros, so a 0 may be found there.
#[inline(always)]
fn lacks(word: &[u8], packed: u64, byte: u8) -> bool
    requires short { length word.now ≤ 8 }
    requires packed { packed ≡ from_be_bytes w64 (padded 8 word.now) }
    ensures lacking { result ≡ true → position_from (λ other. other == byte) 0 word.now ≡ None }
    ensures exact { 0 < byte → position_from (λ other. other == byte) 0 word.now ≡ None → result ≡ true }
{
    let block = u64x1::splat(packed).to_le_bytes();
    block.simd_eq(u8x8::splat(byte)).to_bitmask() == 0
}

impl<'a> PackedWord<'a> {
    /// The word of these bytes.
    #[inline(always)]
    pub fn new(bytes: &'a [u8]) -> PackedWord<'a>
        ensures { result ≡ bytes.now }
    {
        PackedWord {
            text: bytes,
            size: bytes.len(),
            first: first_word(bytes),
        }
    }

    /// The word of a text's first `size` bytes. The text has at least 8 bytes, so the first bytes are
    /// read at once.
    #[inline(always)]
    pub fn front(text: &'a [u8], size: usize) -> PackedWord<'a>
        requires size { size ≤ length text.now }
        requires there { 8 ≤ length text.now }
        ensures { result ≡ take size text.now }
    {
        PackedWord {
            text,
            size,
            first: next_word(text, size),
        }
    }

    /// Its bytes.
    #[inline(always)]
    pub fn bytes(&self) -> &'a [u8]
        ensures { result.now ≡ self.now }
    {
        &self.text[..self.size]
    }

    /// A text that begins with the word, and the word's length.
    #[inline(always)]
    pub(crate) fn place(&self) -> (&'a [u8], usize)
        ensures size { result.1 ≤ length result.0.now }
        ensures word { take result.1 result.0.now ≡ self.now }
    {
        (self.text, self.size)
    }

    /// Its first 8 bytes as a number.
    #[inline(always)]
    pub(crate) fn first(&self) -> u64
        ensures { result ≡ from_be_bytes w64 (padded 8 self.now) }
    {
        self.first
    }

    /// Whether a word of at most 8 bytes doesn't contain a byte. Its bytes are compared at once,
    /// padded with zeros, so a 0 may be found in the padding.
    #[inline(always)]
    pub fn lacks(&self, byte: u8) -> bool
        requires { length self.now ≤ 8 }
        ensures lacking { result ≡ true → position_from (λ other. other == byte) 0 self.now ≡ None }
        ensures exact { 0 < byte → position_from (λ other. other == byte) 0 self.now ≡ None → result ≡ true }
    {
        lacks(self.bytes(), self.first, byte)
    }

    /// The bytes as the four words of a key. Most of them fit in the first word.
    #[inline(always)]
    #[tactic(auto, using(crate::proofs::Words::one_word))]
    pub(crate) fn words(&self) -> [u64; 4]
        ensures { result ≡ words_of self.now }
    {
        if self.size > 8 {
            return words_at(self.text, self.size);
        }
        [self.first, 0, 0, 0]
    }

    /// The short hash of the key that the word spells, if it spells one.
    #[inline(always)]
    pub(crate) fn short_hash(&self) -> usize
        ensures { result < 256 }
    {
        if self.size > 7 {
            return long_hash(self.text, self.size);
        }
        short_hash_of(self.first)
    }
}
