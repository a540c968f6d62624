//! The bytes of a text, window by window.

ghost use Rattle.std.specs.Prelude.{◌≡◌, ◌+◌, ◌++◌, ◌<◌, ◌≤◌, ℕ, List};
ghost use Rattle.std.specs.Prelude.{length, take, drop, IfOk, IfErr, OnOk, Err};
ghost use Rattle.std.specs.Io.KnownBytes.{Consumes};
ghost use Rattle.bohm_reading.specs.Pieces.{IsPiece, ReadsBehind};
ghost use Rattle.bohm_reading.specs.Reading.{IsReadFailure, IsSourceFault};

use crate::cutting::{CutLine, OPENING, cut_at};
use crate::fault::ReadingFault;
use bohm_types::{LONGEST_TEXT, NoMemory};
use std::alloc::Global;
use std::io::Read;

/// The maximum number of bytes that one read requests.
pub(crate) const READ_SIZE: usize = 65_536;

/// The length of a newline and `txn`. A cut may begin in one read and end in the next.
const HALF_CUT: usize = 4;

/// A window, and the bytes read after it.
#[derive(Drop)]
pub(crate) struct Piece {
    pub text: Vec<u8>,
    pub rest: Vec<u8>,
    /// How many bytes were read so far.
    pub total: usize,
    /// Whether the reader is at its end. Then there is no next window.
    pub ended: bool,
}

/// Lengthens the buffer to at least `count` bytes.
fn make_room(buffer: &mut Vec<u8>, count: usize) -> Result<(), NoMemory>
    ensures room { OnOk result (count ≤ length buffer.new.items) }
    ensures same { (n : ℕ) → n ≤ length buffer.old.items
        → take n buffer.new.items ≡ take n buffer.old.items }
{
    if buffer.len() < count {
        buffer.resize(count, 0)?;
    }
    Ok(())
}

/// A buffer that begins with the bytes `begun`: a spare buffer, or a new one with this capacity.
/// The bytes after them may be overwritten.
fn begun_with(
    alloc: Global,
    spare: &mut Vec<Vec<u8>>,
    begun: &[u8],
    capacity: usize,
) -> Result<Vec<u8>, NoMemory>
    ensures room { IfOk result (λ b. length begun.now ≤ length b.items) }
    ensures begun { IfOk result (λ b. take (length begun.now) b.items ≡ begun.now) }
{
    let mut buffer = match spare.pop() {
        Some(buffer) => buffer,
        None => Vec::with_capacity(alloc, capacity)?,
    };
    make_room(&mut buffer, begun.len())?;
    buffer[0..begun.len()].copy_from_slice(begun);
    Ok(buffer)
}

/// Reads at most `most` bytes into the buffer after its first `filled` bytes, and returns their
/// number. The buffer is lengthened if it has no room for `most` bytes there.
fn read_behind<R: Read>(
    reader: &mut R,
    buffer: &mut Vec<u8>,
    filled: usize,
    most: usize,
) -> Result<usize, ReadingFault>
    requires filled { filled ≤ length buffer.old.items }
    requires some { 0 < most }
    requires most { most ≤ READ_SIZE }
    ensures ok { IfOk result
        (ReadsBehind (R.remaining reader.old) (R.remaining reader.new) filled buffer.old.items
        buffer.new.items) }
    ensures err { IfErr result IsReadFailure }
{
    make_room(buffer, filled + most)?;
    let Ok(count) = reader.read(&mut buffer[filled..filled + most]) else {
        return Err(ReadingFault::Read);
    };
    Ok(count)
}

/// Divides the first `filled` bytes of a buffer: those before the offset `at` remain as the text,
/// and the others replace the contents of `rest`.
fn divided(
    mut text: Vec<u8>,
    mut rest: Vec<u8>,
    filled: usize,
    at: usize,
    total: usize,
    ended: bool,
) -> Result<Piece, NoMemory>
    requires at { at ≤ filled }
    requires filled { filled ≤ length text.items }
    ensures same { IfOk result (λ p. p.text.items ++ p.rest.items ≡ take filled text.items) }
    ensures text { IfOk result (λ p. p.text.items ≡ take at text.items) }
    ensures rest { IfOk result (λ p. p.rest.items ≡ drop at (take filled text.items)) }
    ensures total { IfOk result (λ p. p.total ≡ total) }
    ensures ended { IfOk result (λ p. p.ended ≡ ended) }
{
    rest.clear();
    rest.extend_from_slice(&text[at..filled])?;
    text.truncate(at);
    Ok(Piece {
        text,
        rest,
        total,
        ended,
    })
}

/// Reads the next window, which begins with the bytes `begun` that were read before. Once it has
/// `size` bytes, it is cut before its first or last line `txn`, unless the window begins with that
/// line: then reading continues. Only bytes that are new since the last search are searched.
pub(crate) fn next_piece<R: Read>(
    alloc: Global,
    reader: &mut R,
    spare: &mut Vec<Vec<u8>>,
    begun: Vec<u8>,
    total: usize,
    size: usize,
    line: CutLine,
) -> Result<Piece, ReadingFault>
    requires { total ≤ LONGEST_TEXT }
    ensures piece { IfOk result
        (IsPiece (R.remaining reader.old) (R.remaining reader.new) begun.items total) }
    ensures long { result ≡ Err ReadingFault.TooLong → (more : List ℕ)
        × (LONGEST_TEXT < total + length more)
        × Consumes (R.remaining reader.old) (R.remaining reader.new) more }
    ensures refusals { IfErr result IsSourceFault }
{
    let capacity = size.min(LONGEST_TEXT) + READ_SIZE;
    let mut text = begun_with(alloc, spare, &begun, capacity)?;
    let mut filled = begun.len();
    let mut total = total;
    // No cut begins before this offset.
    let mut seen = 0usize;
    // A read requests at most a window's size, so that small windows stay small.
    let most = size.clamp(1, READ_SIZE);
    'reads: while total <= LONGEST_TEXT {
        if filled >= size {
            let from = if seen < OPENING { OPENING } else { seen };
            if let Some(at) = cut_at(&text[..filled], from, line) {
                return Ok(divided(text, begun, filled, at, total, false)?);
            }
            seen = filled.saturating_sub(HALF_CUT);
        }
        let count = read_behind(reader, &mut text, filled, most)?;
        if count == 0 {
            return Ok(divided(text, begun, filled, filled, total, true)?);
        }
        filled += count;
        total += count;
    }
    Err(ReadingFault::TooLong)
}
