//! Words at the beginning of a text, up to a space or a newline.

ghost use Rattle.std.specs.Prelude.{◌≡◌, ◌≤◌, length, take};

use bohm_types::PackedWord;
use std::simd::prelude::*;

/// How many bytes are compared at once to find the end of a word.
const WORD_BLOCK: usize = 16;

/// The bytes of a packed word that is read at once.
const PACKED: usize = 8;

/// The bits of the first `WORD_BLOCK` bytes that are a space or a newline.
#[inline(always)]
fn ends_in(text: &[u8]) -> u64
    requires { WORD_BLOCK ≤ length text.now }
{
    let block = u8x16::from_slice(text);
    let spaces = block.simd_eq(u8x16::splat(b' ')).to_bitmask();
    let newlines = block.simd_eq(u8x16::splat(b'\n')).to_bitmask();
    spaces | newlines
}

/// The index of the first space or newline from an index on, or the text's length.
#[inline(never)]
fn far_end(text: &[u8], from: usize) -> usize
    requires { from ≤ length text.now }
    ensures { result ≤ length text.now }
{
    let behind = &text[from..];
    if behind.len() >= WORD_BLOCK {
        let ends = ends_in(behind);
        if ends != 0 {
            return text.len().min(from + ends.trailing_zeros() as usize);
        }
    }
    for end in from..text.len() {
        if text[end] == b' ' || text[end] == b'\n' {
            return end;
        }
    }
    text.len()
}

/// Where the first word ends: at a space, at a newline, or at the text's end. No contract depends
/// on the place, since what is read is compared with what would be printed.
#[inline(always)]
pub(crate) fn word_end(text: &[u8]) -> usize
    ensures { result ≤ length text.now }
{
    if text.len() < WORD_BLOCK {
        return far_end(text, 0);
    }
    let ends = ends_in(text);
    if ends == 0 {
        return far_end(text, WORD_BLOCK);
    }
    let end = ends.trailing_zeros() as usize;
    end.min(text.len())
}

/// The word of a text's first `size` bytes.
#[inline(always)]
pub(crate) fn word_of<'a>(text: &'a [u8], size: usize) -> PackedWord<'a>
    requires { size ≤ length text.now }
    ensures { result ≡ take size text.now }
{
    if text.len() >= PACKED {
        return PackedWord::front(text, size);
    }
    PackedWord::new(&text[..size])
}
