//! How a line is displayed, with a caret.

ghost use Rattle.std.specs.Prelude.{◌≡◌, ◌++◌, ◌-◌, ◌<◌, ◌≤◌, length, map, replicate, OnOk};
ghost use Rattle.bohm_check.specs.Shown.{IsWhole, marked, most_shown, printable};

use bohm_types::{Key, NoMemory};
use itoa::{Buffer, Integer};

/// The most bytes of a line that are shown.
const SHOWN_BYTES: usize = 120;

/// The blanks before a line that is shown.
const INDENT: usize = 4;

/// Marks a side where the line is cut.
const CUT: &[u8] = b"..";

pub fn put_text(out: &mut Vec<u8>, text: &str) -> Result<(), NoMemory>
    ensures { OnOk result (out.new.items ≡ out.old.items ++ text.now) }
{
    out.extend_from_slice(text.as_bytes())?;
    Ok(())
}

pub fn put_number<I: Integer>(out: &mut Vec<u8>, number: I) -> Result<(), NoMemory>
    ensures { OnOk result (out.new.items ≡ out.old.items ++ I.text number) }
{
    out.extend_from_slice(Buffer::new().format(number).as_bytes())?;
    Ok(())
}

pub fn put_name(out: &mut Vec<u8>, name: Key) -> Result<(), NoMemory> {
    out.extend_from_slice(name.text().as_slice())?;
    Ok(())
}

fn put_times(out: &mut Vec<u8>, byte: u8, count: usize) -> Result<(), NoMemory>
    ensures { OnOk result (out.new.items ≡ out.old.items ++ replicate count byte) }
{
    for _ in 0..count {
        out.push(byte)?;
    }
    Ok(())
}

/// Bytes in printable form: those outside of 32 to 126 as `?`.
fn put_printable(out: &mut Vec<u8>, bytes: &[u8]) -> Result<(), NoMemory>
    ensures { OnOk result (out.new.items ≡ out.old.items ++ map printable bytes.now) }
{
    for byte in bytes {
        out.push(if (32..=126).contains(byte) {
            *byte
        } else {
            b'?'
        })?;
    }
    Ok(())
}

/// The part of a line that is shown: all of it, or `SHOWN_BYTES` bytes around an offset.
#[derive(Clone, Copy)]
struct Window<'a> {
    bytes: &'a [u8],
    /// The numbers of bytes of the line before and after the window.
    before: usize,
    behind: usize,
}

impl<'a> Window<'a> {
    fn round(line: &'a [u8], offset: usize) -> Window<'a>
        ensures { length line.now ≤ most_shown → IsWhole line.now result }
    {
        let spare = line.len().saturating_sub(SHOWN_BYTES);
        let before = offset.saturating_sub(SHOWN_BYTES / 2).min(spare);
        Window {
            bytes: line
                .get(before..before.saturating_add(SHOWN_BYTES).min(line.len()))
                .unwrap_or(line),
            before,
            behind: spare - before,
        }
    }

    fn put(&self, out: &mut Vec<u8>) -> Result<(), NoMemory>
        ensures { OnOk result (self.now.before ≡ 0 → self.now.behind ≡ 0
            → out.new.items ≡ out.old.items ++ map printable self.now.bytes.now) }
    {
        if self.before > 0 {
            out.extend_from_slice(CUT)?;
        }
        put_printable(out, self.bytes)?;
        if self.behind > 0 {
            out.extend_from_slice(CUT)?;
        }
        Ok(())
    }
}

/// A line within a sentence: all of it, or its first `SHOWN_BYTES` bytes.
pub fn put_quoted(out: &mut Vec<u8>, line: &[u8]) -> Result<(), NoMemory> {
    out.push(b'`')?;
    Window::round(line, 0).put(out)?;
    out.push(b'`')?;
    Ok(())
}

/// A line after four spaces, and below it this many carets from a column on; no line below if
/// `carets` is 0. Columns count bytes from 1. Of a line of more than 120 bytes, 120 around the
/// column are shown.
pub fn put_line(
    out: &mut Vec<u8>,
    line: &[u8],
    column: usize,
    carets: usize,
) -> Result<(), NoMemory>
    ensures marked { OnOk result (length line.now ≤ most_shown → 0 < carets
        → out.new.items ≡ out.old.items ++ marked line.now (column - 1) carets) }
{
    let offset = column.saturating_sub(1);
    let window = Window::round(line, offset);
    put_times(out, b' ', INDENT)?;
    window.put(out)?;
    out.push(b'\n')?;
    if carets == 0 {
        return Ok(());
    }
    put_times(out, b' ', INDENT)?;
    if window.before > 0 {
        put_times(out, b' ', CUT.len())?;
    }
    put_times(out, b' ', offset.saturating_sub(window.before))?;
    put_times(out, b'^', carets)?;
    out.push(b'\n')?;
    Ok(())
}
