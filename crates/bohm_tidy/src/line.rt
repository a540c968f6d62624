//! One line of a loose text, as it is in the exact text.

ghost use Rattle.std.specs.Prelude.{◌≡◌, ◌++◌, ◌∷◌, [], IfOk};
ghost use Rattle.bohm_tidy.specs.declared.line.Gap.TheVariants.{Start};
ghost use Rattle.bohm_tidy.specs.Line.{is_sign, is_cut, cut_text, shown, apart, without_return};
ghost use Rattle.bohm_tidy.specs.Line.{before_comment, gap_behind, next_gap, word_text, joined};
ghost use Rattle.bohm_tidy.specs.Line.{is_held_back, is_minus, is_plus, is_taken, sign_alone};
ghost use Rattle.bohm_tidy.specs.Line.{sign_before, starts_sign};
ghost use Rattle.bohm_tidy.specs.Line.{exact_line};

use crate::bytes::place_of;
use bohm_text::Words;
use bohm_types::NoMemory;

/// What precedes the next word.
#[derive(Clone, Copy)]
pub enum Gap {
    /// No word yet.
    Start,
    /// A word after which a sum begins, or continues with an atom.
    Sum,
    /// The signs before a sum's first term, and whether the term is taken away.
    First(bool),
    /// The signs before a further term.
    Further(bool),
    /// An atom or a key.
    Atom,
}

/// Whether a byte is part of a sign or of a comparison.
fn is_sign(byte: u8) -> bool
    ensures { result ≡ is_sign byte }
{
    matches!(byte, b'+' | b'-' | b'<' | b'=' | b'>')
}

/// Whether a word ends between two bytes that aren't blanks.
fn is_cut(byte: u8, next: u8) -> bool
    ensures { result ≡ is_cut byte next }
{
    if next == b'=' && (byte == b'<' || byte == b'>') {
        return false;
    }
    is_sign(byte) || is_sign(next)
}

/// The byte, or a space for a tab.
fn shown(byte: u8) -> u8
    ensures { result ≡ shown byte }
{
    if byte == b'\t' { b' ' } else { byte }
}

/// Appends a byte that follows another one, with a space between them if a word ends there.
fn put_byte(out: &mut Vec<u8>, signs: bool, before: u8, byte: u8) -> Result<(), NoMemory>
    ensures { IfOk result (λ _. out.new.items
        ≡ out.old.items ++ (cut_text signs before byte ++ shown byte ∷ [])) }
{
    if signs && is_cut(before, byte) {
        out.push(b' ')?;
        out.push(shown(byte))?;
        return Ok(());
    }
    out.push(shown(byte))?;
    Ok(())
}

/// Appends the bytes with a space between any two words. `signs` says whether a sign is a separate
/// word.
#[tactic(auto, unfolding(crate::specs::Line::apart))]
fn set_apart(out: &mut Vec<u8>, signs: bool, bytes: &[u8]) -> Result<(), NoMemory>
    ensures { IfOk result (λ _. out.new.items ≡ out.old.items ++ apart signs 32 bytes.now) }
{
    let mut before = b' ';
    for byte in bytes {
        put_byte(out, signs, before, *byte)?;
        before = *byte;
    }
    Ok(())
}

fn is_minus(word: &[u8]) -> bool
    ensures { result ≡ is_minus word.now }
{
    word == b"-".as_slice()
}

fn is_plus(word: &[u8]) -> bool
    ensures { result ≡ is_plus word.now }
{
    word == b"+".as_slice()
}

/// Whether a word begins with a sign.
#[tactic(auto, unfolding(crate::specs::Line::starts_sign))]
fn starts_sign(word: &[u8]) -> bool
    ensures { result ≡ starts_sign word.now }
{
    match word {
        [first, ..] => is_sign(*first),
        [] => false,
    }
}

/// The gap after a word that is a sign, or an atom.
#[tactic(auto, unfolding(crate::specs::Line::gap_behind))]
fn gap_behind(word: &[u8]) -> Gap
    ensures { result ≡ gap_behind word.now }
{
    if starts_sign(word) {
        Gap::Sum
    } else {
        Gap::Atom
    }
}

/// The gap after a word. The sign of a term waits for the term.
#[tactic(auto, unfolding(crate::specs::Line::next_gap))]
fn next_gap(gap: Gap, signs: bool, word: &[u8]) -> Gap
    ensures { result ≡ next_gap gap signs word.now }
{
    match gap {
        Gap::Start => if signs { Gap::Sum } else { Gap::Atom },
        Gap::Sum => if is_minus(word) {
            Gap::First(true)
        } else {
            gap_behind(word)
        },
        Gap::First(taken) => if is_minus(word) {
            Gap::First(!taken)
        } else {
            gap_behind(word)
        },
        Gap::Further(taken) => if is_minus(word) {
            Gap::Further(!taken)
        } else {
            gap_behind(word)
        },
        Gap::Atom => if signs && is_minus(word) {
            Gap::Further(true)
        } else if signs && is_plus(word) {
            Gap::Further(false)
        } else if word == b"when".as_slice() {
            Gap::Sum
        } else {
            gap_behind(word)
        },
    }
}

/// Whether a word is a sign that waits for its term.
fn is_held_back(gap: Gap, signs: bool, word: &[u8]) -> bool
    ensures { result ≡ is_held_back gap signs word.now }
{
    match gap {
        Gap::Start => false,
        Gap::Sum | Gap::First(_) | Gap::Further(_) => is_minus(word),
        Gap::Atom => signs && (is_minus(word) || is_plus(word)),
    }
}

/// Whether a term that a minus precedes is taken away: 0 is added.
fn is_taken(taken: bool, word: &[u8]) -> bool
    ensures { result ≡ is_taken taken word.now }
{
    taken && word != b"0".as_slice()
}

/// What precedes a word.
#[tactic(auto, unfolding(crate::specs::Line::sign_before))]
fn sign_before(gap: Gap, word: &[u8]) -> &'static [u8]
    ensures { result.now ≡ sign_before gap word.now }
{
    match gap {
        Gap::Start => b"",
        Gap::Sum | Gap::Atom => b" ",
        Gap::First(taken) => if !is_taken(taken, word) {
            b" "
        } else if starts_sign(word) {
            b" - "
        } else {
            b" -"
        },
        Gap::Further(taken) => if is_taken(taken, word) {
            b" - "
        } else {
            b" + "
        },
    }
}

/// Appends a word of the line after others, with the signs that waited for it.
fn put_word(out: &mut Vec<u8>, gap: Gap, signs: bool, word: &[u8]) -> Result<(), NoMemory>
    ensures { IfOk result (λ _. out.new.items ≡ out.old.items ++ word_text gap signs word.now) }
{
    if is_held_back(gap, signs, word) {
        return Ok(());
    }
    out.extend_from_slice(sign_before(gap, word))?;
    out.extend_from_slice(word)?;
    Ok(())
}

/// A sign that no term follows.
fn sign_alone(gap: Gap) -> &'static [u8]
    ensures { result.now ≡ sign_alone gap }
{
    match gap {
        Gap::Start | Gap::Sum | Gap::Atom => b"",
        Gap::First(taken) => if taken { b" -" } else { b"" },
        Gap::Further(taken) => if taken { b" -" } else { b" +" },
    }
}

/// Appends the words, spaced as in the exact text.
#[tactic(auto, unfolding(crate::specs::Line::joined))]
fn put_joined(out: &mut Vec<u8>, signs: bool, words: &mut Words) -> Result<(), NoMemory>
    ensures { IfOk result (λ _. out.new.items ≡ out.old.items ++ joined signs Start words.old) }
{
    let mut gap = Gap::Start;
    'each: while let Some(word) = words.next() {
        if word.is_empty() {
            continue;
        }
        put_word(out, gap, signs, word)?;
        gap = next_gap(gap, signs, word);
    }
    out.extend_from_slice(sign_alone(gap))?;
    Ok(())
}

/// The line without a carriage return at its end.
fn without_return(line: &[u8]) -> &[u8]
    ensures { result.now ≡ without_return line.now }
{
    match line.strip_suffix(b"\r".as_slice()) {
        Some(front) => front,
        None => line,
    }
}

/// The line up to a comment.
fn before_comment(line: &[u8]) -> &[u8]
    ensures { result.now ≡ before_comment line.now }
{
    match place_of(b'#', line) {
        None => line,
        Some(at) => &line[..at],
    }
}

/// Appends the line as it is in an exact text, without its newline: its words with a space between
/// two of them, without its comment. A line without words appends nothing. `signs` says whether the
/// signs of sums and comparisons are separate words: then a term has one sign, a plus for two minus
/// signs and before 0. `room` is a working buffer.
pub fn put_line(
    out: &mut Vec<u8>,
    room: &mut Vec<u8>,
    signs: bool,
    line: &[u8],
) -> Result<(), NoMemory>
    ensures { IfOk result (λ _. out.new.items ≡ out.old.items ++ exact_line signs line.now) }
{
    room.clear();
    set_apart(room, signs, before_comment(without_return(line)))?;
    put_joined(out, signs, &mut Words::of(room.as_slice()))
}
