//! The line of a fault.

ghost use Rattle.std.specs.Prelude.{◌≡◌, ◌++◌, IfOk, OnErr, OnOk};
ghost use Rattle.std.specs.Io.KnownBytes.{Appends};
ghost use Rattle.bohm_answer.specs.FaultLine.{AppendsFront, check_words, fault_line};
ghost use Rattle.bohm_answer.specs.FaultLine.{fault_words, kind_word, spaced_decimal};

use crate::fault::RunFault;
use crate::sending::write_bytes;
use bohm_text::TextFault;
use bohm_txn::{CheckFault, CheckKind};
use bohm_types::NoMemory;
use itoa::Buffer;
use std::alloc::Global;
use std::io::{self, Write};

fn word_of(kind: CheckKind) -> &'static str
    ensures { result.now ≡ kind_word kind }
{
    match kind {
        CheckKind::Order => "order",
        CheckKind::Unread => "unread",
        CheckKind::Unwritten => "unwritten",
        CheckKind::Local => "local",
        CheckKind::Limit => "limit",
    }
}

/// Writes a space and a number.
fn write_spaced<W: Write>(writer: &mut W, number: u64) -> io::Result<()>
    ensures ok { OnOk result
        (Appends (W.contents writer.old) (W.contents writer.new) (spaced_decimal number)) }
    ensures err { OnErr result
        (AppendsFront (W.contents writer.old) (W.contents writer.new) (spaced_decimal number)) }
{
    write_bytes(writer, b" ")?;
    write_bytes(writer, Buffer::new().format(number).as_bytes())
}

/// Writes some words, then a space and a number.
fn write_numbered<W: Write>(writer: &mut W, words: &[u8], number: u64) -> io::Result<()>
    ensures ok { OnOk result (Appends (W.contents writer.old) (W.contents writer.new)
        (words.now ++ spaced_decimal number)) }
    ensures err { OnErr result (AppendsFront (W.contents writer.old) (W.contents writer.new)
        (words.now ++ spaced_decimal number)) }
{
    write_bytes(writer, words)?;
    write_spaced(writer, number)
}

/// Writes the words of the line for a fault that the check found.
fn write_check<W: Write>(writer: &mut W, fault: &CheckFault) -> io::Result<()>
    ensures ok { OnOk result (Appends (W.contents writer.old) (W.contents writer.new)
        (check_words fault.now)) }
    ensures err { OnErr result (AppendsFront (W.contents writer.old) (W.contents writer.new)
        (check_words fault.now)) }
{
    write_bytes(writer, b"refused: check ")?;
    write_numbered(writer, word_of(fault.kind).as_bytes(), u64::from(fault.txn))?;
    write_spaced(writer, u64::from(fault.stmt))
}

/// Writes the line without its newline byte.
fn write_words<W: Write>(writer: &mut W, fault: &RunFault) -> io::Result<()>
    ensures ok { OnOk result (Appends (W.contents writer.old) (W.contents writer.new)
        (fault_words fault.now)) }
    ensures err { OnErr result (AppendsFront (W.contents writer.old) (W.contents writer.new)
        (fault_words fault.now)) }
{
    match fault {
        RunFault::Read => write_bytes(writer, b"refused: read"),
        RunFault::TooLong => write_bytes(writer, b"refused: too long"),
        RunFault::Text(TextFault::Line(number)) => write_numbered(
            writer,
            b"refused: line",
            *number,
        ),
        RunFault::Text(TextFault::Short) => write_bytes(writer, b"refused: short"),
        RunFault::Check(fault) => write_check(writer, fault),
        RunFault::Trimmed => write_bytes(writer, b"refused: trimmed"),
        RunFault::Future => write_bytes(writer, b"refused: future"),
        RunFault::NoMemory | RunFault::Text(TextFault::NoMemory) => {
            write_bytes(writer, b"refused: memory")
        }
        RunFault::Write { sent } => write_numbered(writer, b"refused: write", *sent),
    }
}

/// Writes the line that says why a run was refused, with its newline byte. It allocates nothing, so
/// the line is written even when memory has run out. If the writer fails, it has received a prefix
/// of the line.
pub fn write_fault<W: Write>(writer: &mut W, fault: &RunFault) -> io::Result<()>
    ensures ok { OnOk result
        (Appends (W.contents writer.old) (W.contents writer.new) (fault_line fault.now)) }
    ensures err { OnErr result
        (AppendsFront (W.contents writer.old) (W.contents writer.new) (fault_line fault.now)) }
{
    write_words(writer, fault)?;
    write_bytes(writer, b"\n")
}

/// The line that says why a run was refused, with its newline byte.
pub fn print_fault(alloc: Global, fault: &RunFault) -> Result<Vec<u8>, NoMemory>
    ensures { IfOk result (λ line. line.items ≡ fault_line fault.now) }
{
    let mut line = Vec::new(alloc);
    match write_fault(&mut line, fault) {
        Ok(()) => Ok(line),
        Err(_) => Err(NoMemory),
    }
}
