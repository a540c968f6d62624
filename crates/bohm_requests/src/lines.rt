//! The lines of answers.

ghost use Rattle.std.specs.Prelude.{◌≡◌, ◌<◌, ◌++◌, ◌∷◌, [], OnOk, codes, option_map};
ghost use Rattle.bohm_request_text.specs.Lines.{answer_line, refusal_words};
ghost use Rattle.bohm_requests.specs.Lines.{cell_line, hex_digit, hex_of, numbered_words};

use bohm_entries::Refusal;
use bohm_request_text::{put_answer, refusal_line};
use bohm_text::put_entries;
use bohm_types::{Cell, Key, NoMemory};
use itoa::Buffer;
use std::alloc::Global;

/// Appends the line that refuses an entry, behind the id that it carried.
pub(crate) fn put_refusal(
    out: &mut Vec<u8>,
    alloc: Global,
    id: Option<&[u8]>,
    refusal: Refusal,
) -> Result<(), NoMemory>
    ensures { OnOk result (out.new.items ≡ out.old.items ++ answer_line (option_map (λ i. i.now) id.entry) (refusal_words refusal)) }
{
    let mut text = refusal_line(alloc, refusal)?;
    text.pop();
    put_answer(out, id, text.as_slice())
}

/// Appends a word, a space, and a number.
fn put_numbered(out: &mut Vec<u8>, word: &[u8], number: u64) -> Result<(), NoMemory>
    ensures { OnOk result (out.new.items ≡ out.old.items ++ numbered_words word.now number) }
{
    out.extend_from_slice(word)?;
    out.push(b' ')?;
    out.extend_from_slice(Buffer::new().format(number).as_bytes())?;
    Ok(())
}

/// Appends the line of a word and a number.
pub(crate) fn put_number(out: &mut Vec<u8>, word: &[u8], number: u64) -> Result<(), NoMemory>
    ensures { OnOk result (out.new.items ≡ out.old.items ++ numbered_words word.now number ++ 10 ∷ []) }
{
    put_numbered(out, word, number)?;
    out.push(b'\n')?;
    Ok(())
}

/// Appends a line of these words.
pub(crate) fn put_line(out: &mut Vec<u8>, words: &[u8]) -> Result<(), NoMemory>
    ensures { OnOk result (out.new.items ≡ out.old.items ++ words.now ++ 10 ∷ []) }
{
    out.extend_from_slice(words)?;
    out.push(b'\n')?;
    Ok(())
}

/// Appends the line of what a key holds.
pub(crate) fn put_cell(out: &mut Vec<u8>, key: &Key, cell: Cell) -> Result<(), NoMemory>
    ensures { OnOk result (out.new.items ≡ out.old.items ++ cell_line key.now cell) }
{
    match cell {
        Cell::Present(value) => put_entries(out, &[(*key, value)]),
        Cell::Absent => put_line(out, key.text().as_slice()),
    }
}

/// A hexadecimal digit.
fn hex_digit(number: u8) -> u8
    requires { number < 16 }
    ensures { result ≡ hex_digit number }
{
    if number < 10 {
        b'0' + number
    } else {
        b'a' - 10 + number
    }
}

/// Appends bytes in hexadecimal.
fn put_hex(out: &mut Vec<u8>, bytes: &[u8]) -> Result<(), NoMemory>
    ensures { OnOk result (out.new.items ≡ out.old.items ++ hex_of bytes.now) }
{
    let mut rest = bytes;
    'bytes: while let Some((byte, others)) = rest.split_first() {
        out.push(hex_digit(*byte / 16))?;
        out.push(hex_digit(*byte % 16))?;
        rest = others;
    }
    Ok(())
}

/// Appends the line of a digest.
pub(crate) fn put_digest(out: &mut Vec<u8>, number: u64, digest: &[u8]) -> Result<(), NoMemory>
    ensures { OnOk result (out.new.items ≡ out.old.items ++ numbered_words (codes "digest") number ++ 32 ∷ hex_of digest.now ++ 10 ∷ []) }
{
    put_numbered(out, b"digest", number)?;
    out.push(b' ')?;
    put_hex(out, digest)?;
    out.push(b'\n')?;
    Ok(())
}
