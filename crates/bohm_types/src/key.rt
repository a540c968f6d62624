//! Keys and names of locals.

ghost use Rattle.std.specs.Prelude.{◌≡◌, ◌<◌, ◌≤◌, Some, IfSome, true, length, nat_eq, take};
ghost use Rattle.std.specs.Ordering.{nat_cmp};
ghost use Rattle.std.specs.Cmp.{partial_equiv_from_equiv};
ghost use Rattle.std.specs.Cmp.Lexicographic.{pointwise, slice_cmp, nat_list_eq_equiv};
ghost use Rattle.std.specs.Cmp.Lexicographic.{nat_list_cmp_total, texts_ties, texts_po};
ghost use Rattle.std.proofs.Common.{refl};
ghost use Rattle.std.specs.List.{list_all};
ghost use Rattle.std.specs.Str.{bytes_eq};
ghost use Rattle.bohm_types.specs.Name.{key_of, is_name, is_name_byte};
ghost use Rattle.std.specs.Int.{w64, from_be_bytes};
ghost use Rattle.bohm_types.specs.Words.{padded};
ghost use Rattle.bohm_types.specs.Keys.{place};
ghost use Rattle.bohm_types.specs.Limits.{longest_name};

use crate::packed_word::PackedWord;
use crate::packing::{mixed, short_hash_at, size_of, spread, words_at, zeros_behind};
use std::cmp::Ordering;
use std::hash::{Hash, Hasher};
use std::marker::Model;

/// A name of 1 to 32 bytes: a lower-case letter, then lower-case letters, digits and underscores.
/// It is stored in four words, most significant byte first, padded with zeros, so names are ordered
/// as their words are.
#[derive(Clone, Copy, Debug)]
pub struct Key {
    words: [u64; 4],
}

impl Model for Key {
    ghost use Rattle.std.specs.Prelude.{ℕ, List};

    ghost Value = { List ℕ };

    ghost use Rattle.bohm_types.specs.KeyInside.{name_of, IsWorded, worded, worded_ok};

    ghost view = { name_of };

    ghost invariant = { IsWorded };

    ghost inverse = { worded };

    ghost inverse_ok = { worded_ok };
}

/// Maps each byte that a name may contain to itself, and each other byte to a different one, `_`.
const NAME_BYTES: [u8; 256] = *b"\
    ________________________________________________0123456789______\
    _________________________________abcdefghijklmnopqrstuvwxyz_____\
    ________________________________________________________________\
    ________________________________________________________________";

#[tactic(auto, using(crate::proofs::NameBytes::in_table))]
fn is_name_byte(byte: u8) -> bool
    ensures { result ≡ is_name_byte byte }
{
    NAME_BYTES[byte as usize] == byte
}

fn are_name_bytes(bytes: &[u8]) -> bool
    ensures { result ≡ list_all is_name_byte bytes.now }
{
    bytes.iter().all(|byte| is_name_byte(*byte))
}

#[inline(always)]
fn is_name(name: &[u8]) -> bool
    ensures { result ≡ is_name name.now }
{
    match name {
        [] => false,
        [first, others @ ..] => {
            others.len() <= 31 && first.is_ascii_lowercase() && are_name_bytes(others)
        }
    }
}

/// The bytes of a name, in a buffer.
#[derive(Debug, Drop)]
pub struct KeyText {
    bytes: [u8; 32],
    size: usize,
}

impl Model for KeyText {
    ghost use Rattle.std.specs.Prelude.{◌≤◌, ℕ, List, take};
    ghost use Rattle.bohm_types.specs.Limits.{longest_name};

    ghost Value = { List ℕ };

    ghost view = { λ t. take t.size t.bytes };

    ghost invariant = { λ t. t.size ≤ longest_name };
}

impl KeyText {
    /// The name itself.
    pub fn as_slice(&self) -> &[u8]
        ensures name { result.now ≡ self.now }
        ensures short { length result.now ≤ longest_name }
    {
        &self.bytes[..self.size]
    }
}

impl Key {
    /// The key with these bytes, if they are a name.
    #[inline(always)]
    pub fn new(name: &[u8]) -> Option<Key>
        ensures { result ≡ key_of name.now }
    {
        Key::of_word(&PackedWord::new(name))
    }

    /// The key of the name that a word spells, if it spells one.
    #[inline(always)]
    #[tactic(auto, using(crate::proofs::Words::new_name))]
    pub fn of_word(word: &PackedWord<'_>) -> Option<Key>
        ensures { result ≡ key_of word.now }
    {
        if !is_name(word.bytes()) {
            return None;
        }
        Some(Key {
            words: word.words(),
        })
    }

    /// Whether the key is the name that a word spells. No `Key` is built from the word.
    #[inline(always)]
    pub fn is_word(&self, word: &PackedWord<'_>) -> bool
        ensures same { result ≡ bytes_eq self.now word.now }
        ensures name { result ≡ true → is_name word.now ≡ true }
    {
        let (text, size) = word.place();
        if size > 7 {
            return self.is_long(text, size);
        }
        self.is_short(word.bytes(), word.first())
    }

    /// `is_word` for the word of a text's first `size` bytes, which are more than 7. Few words are
    /// this long: the code isn't inlined, and it takes no packed word, so that packed words stay in
    /// registers.
    #[inline(never)]
    fn is_long(&self, text: &[u8], size: usize) -> bool
        requires { size ≤ length text.now }
        ensures same { result ≡ bytes_eq self.now (take size text.now) }
        ensures name { result ≡ true → is_name (take size text.now) ≡ true }
    {
        let words = words_at(text, size);
        self.words == words && size == size_of(&self.words)
    }

    /// `is_word` for a word of at most 7 bytes, packed into one word. A longer name has no 0 at the
    /// end of its first word, so the other words aren't compared.
    #[inline(always)]
    fn is_short(&self, word: &[u8], packed: u64) -> bool
        requires short { length word.now ≤ 7 }
        requires packed { packed ≡ from_be_bytes w64 (padded 8 word.now) }
        ensures same { result ≡ bytes_eq self.now word.now }
        ensures name { result ≡ true → is_name word.now ≡ true }
    {
        self.words[0] == packed && word.len() == 8 - zeros_behind(packed)
    }

    /// The bytes of the key, which are a name.
    #[tactic(auto, unfolding(crate::specs::KeyInside::name_of))]
    pub fn text(&self) -> KeyText
        ensures same { result ≡ self.now }
        ensures name { is_name result ≡ true }
    {
        KeyText {
            bytes: spread(&self.words),
            size: size_of(&self.words),
        }
    }

    /// A law: the bytes of the key are a name. The call costs nothing.
    #[inline(always)]
    pub fn has_name(&self)
        ensures { is_name self.now ≡ true }
    {
        // Reading a field makes the type's invariant known to the prover.
        let _ = &self.words;
    }

    /// A hash below 256: equal keys have the same one.
    #[inline(always)]
    pub(crate) fn short_hash(&self) -> usize
        ensures { result < 256 }
    {
        short_hash_at(&self.words)
    }

    /// A hash: equal keys have the same one, and different keys seldom do. Its upper bits vary the
    /// most. Whoever chooses the keys can make them collide, so it is for hints alone.
    #[inline(always)]
    pub fn mixed(&self) -> u64 {
        mixed(&self.words)
    }

    /// The index of the key's first occurrence in `keys`, if there is one. The time grows with the
    /// number of keys.
    pub fn place_among(&self, keys: &[Key]) -> Option<usize>
        ensures place { result ≡ place keys.now self.now }
        ensures inside { IfSome result (λ i. i < length keys.now) }
    {
        keys.iter().position(|key| *key == *self)
    }
}

impl PartialEq for Key {
    ghost eq = { pointwise nat_eq };

    ghost laws = { partial_equiv_from_equiv nat_list_eq_equiv };

    fn eq(&self, other: &Key) -> bool {
        self.words == other.words
    }
}

impl Eq for Key {
    ghost laws = { nat_list_eq_equiv };
}

impl PartialOrd for Key {
    ghost partial_cmp = { λ x y. Some (slice_cmp nat_cmp x y) };

    ghost laws = { texts_po };

    fn partial_cmp(&self, other: &Key) -> Option<Ordering> {
        Some(self.cmp(other))
    }
}

/// Bytewise order: a key is below the keys that extend it.
impl Ord for Key {
    ghost cmp = { slice_cmp nat_cmp };

    ghost total = { nat_list_cmp_total };

    ghost matches_partial_cmp = { λ x y. refl };

    ghost matches_eq = { texts_ties };

    fn cmp(&self, other: &Key) -> Ordering {
        self.words.cmp(&other.words)
    }
}

/// Hashes the name in one write.
impl Hash for Key {
    ghost use Rattle.std.specs.Prelude.{[], ◌∷◌};
    ghost use Rattle.std.specs.Hash.{same_Alike};
    ghost use Rattle.std.proofs.lemmas.Slice.Eq.{bytes_eq-Decides};

    ghost hash_input = { λ k. k ∷ [] };

    ghost respects_eq = { (same_Alike (λ k. k ∷ []) bytes_eq-Decides).fed };

    fn hash<H: Hasher>(&self, state: &mut H) {
        state.write(self.text().as_slice());
    }
}
