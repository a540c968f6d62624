//! Bytes sent to a writer.

ghost use Rattle.std.specs.Prelude.{IfErr, OnErr, OnOk};
ghost use Rattle.std.specs.Io.KnownBytes.{Appends};
ghost use Rattle.bohm_answer.specs.Bytes.{IsWriteFault, Sends};
ghost use Rattle.bohm_answer.specs.FaultLine.{AppendsFront};

use crate::fault::RunFault;
use std::io::{self, ErrorKind, Write};

/// The number of bytes that a writer accepted, and the error that it then returned.
#[derive(Drop)]
struct Unsent {
    sent: usize,
    error: io::Error,
}

/// Sends the bytes, as many at a time as the writer accepts.
fn send<W: Write>(writer: &mut W, bytes: &[u8]) -> Result<(), Unsent>
    ensures ok { OnOk result (Appends (W.contents writer.old) (W.contents writer.new) bytes.now) }
    ensures err { IfErr result (λ unsent.
        Sends (W.contents writer.old) (W.contents writer.new) bytes.now unsent.sent) }
{
    let mut sent: usize = 0;
    'writes: while sent < bytes.len() {
        let error = match writer.write(&bytes[sent..]) {
            Ok(0) => io::Error::from(ErrorKind::WriteZero),
            Ok(count) => {
                sent += count;
                continue;
            }
            Err(error) => error,
        };
        return Err(Unsent { sent, error });
    }
    Ok(())
}

/// Writes the bytes. If the writer fails, it has received a prefix of them.
pub fn write_bytes<W: Write>(writer: &mut W, bytes: &[u8]) -> io::Result<()>
    ensures ok { OnOk result (Appends (W.contents writer.old) (W.contents writer.new) bytes.now) }
    ensures err { OnErr result
        (AppendsFront (W.contents writer.old) (W.contents writer.new) bytes.now) }
{
    match send(writer, bytes) {
        Ok(()) => Ok(()),
        Err(Unsent { error, .. }) => Err(error),
    }
}

/// Writes the bytes, and flushes. On an error the first `sent` bytes were written.
pub fn write_all<W: Write>(writer: &mut W, bytes: &[u8]) -> Result<(), RunFault>
    ensures ok { OnOk result (Appends (W.contents writer.old) (W.contents writer.new) bytes.now) }
    ensures err { IfErr result
        (IsWriteFault (W.contents writer.old) (W.contents writer.new) bytes.now) }
{
    let sent = match send(writer, bytes) {
        Ok(()) => match writer.flush() {
            Ok(()) => return Ok(()),
            Err(_) => bytes.len(),
        },
        Err(Unsent { sent, .. }) => sent,
    };
    Err(RunFault::Write { sent: sent as u64 })
}
