//! Where words and lines end. Several bytes are compared at once, since most ends are near.

ghost use Rattle.std.specs.Prelude.{◌≡◌, ◌≤◌, ◌<◌, ◌==◌, IfSome, IsSome, Some, length};
ghost use Rattle.std.specs.List.{position_from};
ghost use Rattle.bohm_text.specs.Parse.{newline_in};

use memchr::memchr;
use std::simd::prelude::*;

/// How many bytes of a line are compared at once.
const LINE_BLOCK: usize = 32;

/// How many bytes of a word are compared at once.
const WORD_BLOCK: usize = 8;

/// The index of the first newline, if it is among the first `LINE_BLOCK` bytes.
#[inline(always)]
fn newline_near(bytes: &[u8]) -> Option<usize>
    requires { LINE_BLOCK ≤ length bytes.now }
    ensures { IfSome result (λ at. newline_in bytes.now ≡ Some at) }
{
    let block = u8x32::from_slice(bytes);
    let marks = block.simd_eq(u8x32::splat(b'\n')).to_bitmask();
    if marks == 0 {
        None
    } else {
        Some(marks.trailing_zeros() as usize)
    }
}

/// The index of the first newline.
#[inline(always)]
#[tactic(auto, using(crate::proofs::Searches::first_newline))]
pub fn newline_at(bytes: &[u8]) -> Option<usize>
    ensures first { result ≡ newline_in bytes.now }
    ensures inside { IfSome result (λ at. at < length bytes.now) }
{
    if bytes.len() >= LINE_BLOCK {
        if let Some(at) = newline_near(bytes) {
            return Some(at);
        }
    }
    memchr(b'\n', bytes)
}

/// The index of the first space, if there are at least 8 bytes and it is among the first 8.
#[inline(always)]
pub fn space_near(bytes: &[u8]) -> Option<usize>
    ensures first { IfSome result
        (λ at. position_from (λ byte. byte == 32) 0 bytes.now ≡ Some at) }
    ensures near { IfSome result (λ at. at < 8) }
    ensures long { IsSome result → 8 ≤ length bytes.now }
{
    if bytes.len() < WORD_BLOCK {
        return None;
    }
    let block = u8x8::from_slice(bytes);
    let marks = block.simd_eq(u8x8::splat(b' ')).to_bitmask();
    if marks == 0 {
        None
    } else {
        Some(marks.trailing_zeros() as usize)
    }
}

/// The index of the first space.
#[inline(always)]
pub fn space_at(bytes: &[u8]) -> Option<usize>
    ensures first { result ≡ position_from (λ byte. byte == 32) 0 bytes.now }
    ensures inside { IfSome result (λ at. at < length bytes.now) }
{
    if let Some(at) = space_near(bytes) {
        return Some(at);
    }
    bytes.iter().position(|byte| *byte == b' ')
}
