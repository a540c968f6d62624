//! Reading the rest of a refused text.

ghost use Rattle.std.specs.Prelude.{◌≤◌};
ghost use Rattle.bohm_reading.specs.Reading.{Drains};

use crate::fault::ReadingFault;
use crate::source::READ_SIZE;
use bohm_types::LONGEST_TEXT;
use std::io::Read;

/// Reads the rest of a text that is refused with this fault, and returns the fault. A failed read,
/// or a text that is too long, takes precedence over it.
pub(crate) fn drain<R: Read>(reader: &mut R, total: usize, fault: ReadingFault) -> ReadingFault
    requires { total ≤ LONGEST_TEXT }
    ensures { Drains (R.remaining reader.old) (R.remaining reader.new) total fault result }
{
    let mut buffer = [0u8; READ_SIZE];
    let mut total = total;
    'reads: while total <= LONGEST_TEXT {
        let Ok(count) = reader.read(&mut buffer) else {
            return ReadingFault::Read;
        };
        if count == 0 {
            return fault;
        }
        total += count;
    }
    ReadingFault::TooLong
}
