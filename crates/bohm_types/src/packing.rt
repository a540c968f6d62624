//! A name as four words.

ghost use Rattle.std.specs.Prelude.{◌≡◌, ◌<◌, ◌≤◌, ◌/◌, List, ℕ, true, length, drop, take};
ghost use Rattle.std.specs.Int.{w64, from_be_bytes, trailing_zeros};
ghost use Rattle.bohm_types.specs.Name.{is_name};
ghost use Rattle.bohm_types.specs.Words.{padded, words_of, spread};
ghost use Rattle.bohm_types.specs.Limits.{longest_name};

/// The word of the first 8 bytes, padded with zeros. No buffer is filled with them, since most
/// names are short.
#[inline(always)]
pub(crate) fn first_word(bytes: &[u8]) -> u64
    ensures { result ≡ from_be_bytes w64 (padded 8 bytes.now) }
{
    match bytes {
        [] => 0,
        [a] => u64::from_be_bytes([*a, 0, 0, 0, 0, 0, 0, 0]),
        [a, b] => u64::from_be_bytes([*a, *b, 0, 0, 0, 0, 0, 0]),
        [a, b, c] => u64::from_be_bytes([*a, *b, *c, 0, 0, 0, 0, 0]),
        [a, b, c, d] => u64::from_be_bytes([*a, *b, *c, *d, 0, 0, 0, 0]),
        [a, b, c, d, e] => u64::from_be_bytes([*a, *b, *c, *d, *e, 0, 0, 0]),
        [a, b, c, d, e, f] => u64::from_be_bytes([*a, *b, *c, *d, *e, *f, 0, 0]),
        [a, b, c, d, e, f, g] => u64::from_be_bytes([*a, *b, *c, *d, *e, *f, *g, 0]),
        [a, b, c, d, e, f, g, h, ..] => { u64::from_be_bytes([*a, *b, *c, *d, *e, *f, *g, *h]) }
    }
}

/// `first_word` of a text's first `size` bytes. The text has at least 8 bytes, which are read at
/// once.
#[inline(always)]
pub(crate) fn front_word(text: &[u8], size: usize) -> u64
    requires short { size < 8 }
    requires there { 8 ≤ length text.now }
    ensures { result ≡ from_be_bytes w64 (padded 8 (take size text.now)) }
{
    if size == 0 {
        return 0;
    }
    let shift = 64 - 8 * size as u32;
    first_word(text) >> shift << shift
}

/// `first_word` of a text's first `size` bytes, which may be more than 8. The text has at least 8
/// bytes, which are read at once.
#[inline(always)]
pub(crate) fn next_word(text: &[u8], size: usize) -> u64
    requires there { 8 ≤ length text.now }
    ensures { result ≡ from_be_bytes w64 (padded 8 (take size text.now)) }
{
    if size < 8 {
        return front_word(text, size);
    }
    first_word(text)
}

/// The words of a text's first `size` bytes. The text has at least 32 bytes, so each word is read
/// at once.
#[inline(always)]
fn front_words(text: &[u8], size: usize) -> [u64; 4]
    requires there { 32 ≤ length text.now }
    ensures { result ≡ words_of (take size text.now) }
{
    let first = next_word(text, size);
    if size <= 8 {
        return [first, 0, 0, 0];
    }
    let second = next_word(&text[8..], size - 8);
    if size <= 16 {
        return [first, second, 0, 0];
    }
    let third = next_word(&text[16..], size - 16);
    if size <= 24 {
        return [first, second, third, 0];
    }
    [first, second, third, next_word(&text[24..], size - 24)]
}

/// The bytes after the first 8.
fn behind(bytes: &[u8]) -> &[u8]
    ensures { result.now ≡ drop 8 bytes.now }
{
    if bytes.len() <= 8 { &[] } else { &bytes[8..] }
}

/// `first_word` for a name of several words. Few names have several, so it isn't inlined.
#[inline(never)]
fn further_word(bytes: &[u8]) -> u64
    ensures { result ≡ from_be_bytes w64 (padded 8 bytes.now) }
{
    first_word(bytes)
}

/// The words of a name of more than 16 bytes. Few names are this long, so it isn't inlined.
#[inline(never)]
fn longest_words_of(name: &[u8]) -> [u64; 4]
    ensures { result ≡ words_of name.now }
{
    let second = behind(name);
    let third = behind(second);
    let fourth = behind(third);
    [
        further_word(name),
        further_word(second),
        further_word(third),
        further_word(fourth),
    ]
}

/// The words of a name of more than 8 bytes. They are returned one by one, so that short names
/// don't go through memory.
#[inline(always)]
#[tactic(auto, using(crate::proofs::Words::two_words))]
fn long_words_of(name: &[u8]) -> [u64; 4]
    ensures { result ≡ words_of name.now }
{
    let second = behind(name);
    if second.len() <= 8 {
        return [first_word(name), first_word(second), 0, 0];
    }
    longest_words_of(name)
}

/// The words of a text's first `size` bytes. They are read at once if the text has enough bytes
/// behind them.
#[inline(always)]
pub(crate) fn words_at(text: &[u8], size: usize) -> [u64; 4]
    requires { size ≤ length text.now }
    ensures { result ≡ words_of (take size text.now) }
{
    if text.len() >= 32 {
        return front_words(text, size);
    }
    long_words_of(&text[..size])
}

/// The bytes of four words.
pub(crate) fn spread(words: &[u64; 4]) -> [u8; 32]
    ensures { result ≡ spread words.now }
{
    let mut bytes = [0; 32];
    bytes[..8].copy_from_slice(&words[0].to_be_bytes());
    bytes[8..16].copy_from_slice(&words[1].to_be_bytes());
    bytes[16..24].copy_from_slice(&words[2].to_be_bytes());
    bytes[24..].copy_from_slice(&words[3].to_be_bytes());
    bytes
}

/// How many zero bytes a word ends with.
#[inline(always)]
pub(crate) fn zeros_behind(word: u64) -> usize
    ensures { result ≡ trailing_zeros w64 word / 8 }
{
    (word.trailing_zeros() / 8) as usize
}

/// The length of the name in four words, which ends before the padding zeros.
#[inline(always)]
pub(crate) fn size_of(words: &[u64; 4]) -> usize
    ensures short { result ≤ longest_name }
    ensures size { (name : List ℕ) → is_name name ≡ true → words.now ≡ words_of name
        → result ≡ length name }
{
    if words[3] != 0 {
        return 32 - zeros_behind(words[3]);
    }
    if words[2] != 0 {
        return 24 - zeros_behind(words[2]);
    }
    if words[1] != 0 {
        return 16 - zeros_behind(words[1]);
    }
    8 - zeros_behind(words[0])
}

/// A hash below 256 of these words.
#[inline(always)]
pub(crate) fn short_hash_at(words: &[u64; 4]) -> usize
    ensures { result < 256 }
{
    (mixed(words) >> 56) as usize
}

/// A hash below 256 of a name of one word.
#[inline(always)]
pub(crate) fn short_hash_of(word: u64) -> usize
    ensures { result < 256 }
{
    (mixed_word(word) >> 56) as usize
}

/// A hash of these words. Its upper bits depend on all bits of the words.
#[inline(always)]
pub(crate) fn mixed(words: &[u64; 4]) -> u64 {
    mixed_word(words[0] ^ words[1] ^ words[2] ^ words[3])
}

#[inline(always)]
fn mixed_word(word: u64) -> u64 {
    word.wrapping_mul(0x9e37_79b9_7f4a_7c15)
}
