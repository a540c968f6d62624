//! Reading a document from a reader: the first window, and then one window after another.

ghost use Rattle.std.specs.Prelude.{◌≡◌, ◌+◌, ◌≤◌, false, length, IfOk, IfErr, OnOk, Ok, Err};
ghost use Rattle.bohm_text.specs.Windowing.{ReadsFirst, ReadsWindow};
ghost use Rattle.bohm_reading.specs.InOrder.{RefusesWindow};
ghost use Rattle.bohm_reading.specs.Reading.{FirstRefused, IsReady, ReadsBeginning, ReadsNext};
ghost use Rattle.bohm_reading.specs.Reading.{RefusesNext, RefusesReading, RefusesTaking};
ghost use Rattle.bohm_reading.specs.Reading.{TakesWindow};
ghost use Rattle.bohm_types.specs.Limits.{longest_text};

use crate::cutting::CutLine;
use crate::draining::drain;
use crate::fault::ReadingFault;
use crate::source::{Piece, next_piece};
use crate::window::{Parsed, Window};
use bohm_log::DrawnSeed;
use bohm_text::{Chunk, FirstWindow, WindowFault, parse_first_window};
use bohm_types::Edition;
use std::alloc::Global;
use std::io::Read;
use std::mem;

/// A reader's state after the windows that were read.
#[derive(Drop)]
pub struct Source {
    /// The beginning of the next window.
    pub rest: Vec<u8>,
    /// How many bytes were read so far.
    pub total: usize,
    /// The number of lines in the windows whose chunks were taken.
    pub lines: u64,
    /// Whether the reader is at its end. Then there is no next window.
    pub ended: bool,
    /// Buffers of earlier windows, for reuse.
    pub spare: Vec<Vec<u8>>,
}

/// Why the first window is refused, given whether it is the last one.
fn first_refusal(text: &[u8], last: bool, fault: WindowFault) -> ReadingFault
    requires { ReadsFirst text.now (Err fault) }
    ensures { FirstRefused text.now last result }
{
    // Only the contract needs the text.
    let _ = text;
    match fault {
        WindowFault::Line(n) => ReadingFault::Line(n),
        WindowFault::Open(_) if last => ReadingFault::Short,
        WindowFault::Open(n) => ReadingFault::Line(n + 1),
        WindowFault::NoMemory => ReadingFault::NoMemory,
    }
}

/// Reads the first window of a text: the whole text if it is shorter than `size` bytes, and
/// otherwise the head and the store, so that windows of transactions begin as early as possible. If
/// the window is refused, the rest of the text is still read, since a failed read and a text that
/// is too long take precedence.
///
/// The time and memory grow with the length of the window.
pub fn read_first<R: Read>(
    alloc: Global,
    seed: DrawnSeed,
    reader: &mut R,
    size: usize,
) -> Result<(FirstWindow, Source), ReadingFault>
    ensures ok { IfOk result
        (λ r. ReadsBeginning (R.remaining reader.old) (R.remaining reader.new) r.0 r.1) }
    ensures err { IfErr result (RefusesReading (R.remaining reader.old) (R.remaining reader.new)) }
{
    let mut spare = Vec::new(alloc);
    let Piece {
        text,
        rest,
        total,
        ended,
    } = next_piece(
        alloc,
        reader,
        &mut spare,
        Vec::new(alloc),
        0,
        size,
        CutLine::First,
    )?;
    let fault = match parse_first_window(alloc, seed, text.as_slice()) {
        Ok(first) => {
            let source = Source {
                rest,
                total,
                lines: first.chunk.lines,
                ended,
                spare,
            };
            return Ok((first, source));
        }
        Err(fault) => first_refusal(text.as_slice(), ended, fault),
    };
    if ended {
        return Err(fault);
    }
    Err(drain(reader, total, fault))
}

/// Reads the next window of a text. Once it has `size` bytes, it is cut before its last line `txn`;
/// it is longer if a transaction is longer. After an `Err` reading can't continue.
///
/// The time grows with the length of the window, and so does the memory if no buffer is spare.
pub fn next_window<R: Read>(
    alloc: Global,
    reader: &mut R,
    source: &mut Source,
    size: usize,
) -> Result<Window, ReadingFault>
    requires going { source.old.ended ≡ false }
    requires ready { IsReady source.old }
    ensures ok { IfOk result
        (ReadsNext (R.remaining reader.old) (R.remaining reader.new) source.old source.new) }
    ensures err { IfErr result
        (RefusesNext (R.remaining reader.old) (R.remaining reader.new) source.old) }
{
    let begun = mem::replace(&mut source.rest, Vec::new(alloc));
    let Piece {
        text,
        rest,
        total,
        ended,
    } = next_piece(
        alloc,
        reader,
        &mut source.spare,
        begun,
        source.total,
        size,
        CutLine::Last,
    )?;
    source.rest = rest;
    source.total = total;
    source.ended = ended;
    Ok(Window { text, last: ended })
}

/// Why a window with `lines` lines before it is refused.
fn refusal(edition: Edition, lines: u64, window: &Window, fault: WindowFault) -> ReadingFault
    requires { ReadsWindow edition window.now.text.items (Err fault) }
    ensures { lines + length window.now.text.items ≤ longest_text
        → RefusesWindow edition window.now.text.items window.now.last lines result }
{
    // Only the contract needs the edition.
    let _ = edition;
    match fault {
        WindowFault::Line(n) => ReadingFault::Line(lines.saturating_add(n)),
        WindowFault::Open(_) if window.last => ReadingFault::Short,
        WindowFault::Open(n) => ReadingFault::Line(lines.saturating_add(n).saturating_add(1)),
        WindowFault::NoMemory => ReadingFault::NoMemory,
    }
}

/// Takes the result of parsing a window of a text of this edition. The window must be the first of
/// the windows that were read but not yet taken. If it is refused, the rest of the text is still
/// read, since a failed read and a text that is too long take precedence; after that reading can't
/// continue. Only a window that is taken leaves its buffer as a spare.
///
/// The time is constant, or grows with the rest of a refused text.
pub fn take_parsed<R: Read>(
    reader: &mut R,
    edition: Edition,
    source: &mut Source,
    parsed: Parsed,
) -> Result<Chunk, ReadingFault>
    requires ready { IsReady source.old }
    requires read { ReadsWindow edition parsed.window.text.items parsed.result }
    ensures ok { IfOk result (TakesWindow edition parsed.window source.old source.new) }
    ensures chunk { IfOk result (λ c. parsed.result ≡ Ok c) }
    ensures unread { OnOk result (reader.new ≡ reader.old) }
    ensures err { IfErr result
        (RefusesTaking edition parsed.window (R.remaining reader.old) (R.remaining reader.new)
        source.old) }
{
    let Parsed { window, result } = parsed;
    let fault = match result {
        Ok(chunk) => {
            source.lines = source.lines.saturating_add(chunk.lines);
            source.spare.push(window.text)?;
            return Ok(chunk);
        }
        Err(fault) => refusal(edition, source.lines, &window, fault),
    };
    if source.ended {
        return Err(fault);
    }
    Err(drain(reader, source.total, fault))
}
