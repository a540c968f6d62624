//! Reads all bytes of a reader.

ghost use Rattle.std.specs.Prelude.{◌≡◌, ◌<◌, ◌≤◌, List, ℕ, length, IfOk, IfErr, OnOk, Err};
ghost use Rattle.std.specs.Io.KnownBytes.{Consumes, IsAtEnd};
ghost use Rattle.bohm_answer.specs.Bytes.{IsReadFault};

use crate::fault::RunFault;
use bohm_types::{LONGEST_TEXT, NoMemory};
use std::alloc::Global;
use std::io::Read;

/// The number of bytes that one read requests.
const READ_SIZE: usize = 65_536;

/// Reads the rest of the input. More than `LONGEST_TEXT` bytes are refused, and then part of the
/// input may stay unread.
pub fn read_all<R: Read>(alloc: Global, reader: &mut R) -> Result<Vec<u8>, RunFault>
    ensures bytes { IfOk result
        (λ text. Consumes (R.remaining reader.old) (R.remaining reader.new) text.items) }
    ensures end { OnOk result (IsAtEnd (R.remaining reader.new)) }
    ensures short { IfOk result (λ text. length text.items ≤ LONGEST_TEXT) }
    ensures long { result ≡ Err RunFault.TooLong → (bytes : List ℕ) × (LONGEST_TEXT < length bytes)
        × Consumes (R.remaining reader.old) (R.remaining reader.new) bytes }
    ensures refusals { IfErr result IsReadFault }
{
    let mut text = Vec::new(alloc);
    let mut buffer = [0u8; READ_SIZE];
    'reads: while text.len() <= LONGEST_TEXT {
        let Ok(count) = reader.read(&mut buffer) else {
            return Err(RunFault::Read);
        };
        if count == 0 {
            return Ok(text);
        }
        text.extend_from_slice(&buffer[..count])
            .map_err(NoMemory::from)?;
    }
    Err(RunFault::TooLong)
}
