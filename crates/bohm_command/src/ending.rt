//! How a program ends: help, messages, exit status.

ghost use Rattle.std.specs.Prelude.{◌≡◌, OnErr, OnOk};
ghost use Rattle.std.specs.Io.KnownBytes.{Appends};
ghost use Rattle.std.specs.Process.{exit_status};
ghost use Rattle.bohm_answer.specs.FaultLine.{AppendsFront};
ghost use Rattle.bohm_command.specs.Endings.{status_of, text_of, Ends};
ghost use Rattle.bohm_command.specs.declared.ending.NoAnswer.TheVariants.{Run};

use crate::fault::ArgumentFault;
use bohm_answer::{RunFault, write_all, write_bytes, write_fault};
use std::io::{self, Write};
use std::process::ExitCode;

/// The exit status if the run was refused.
const REFUSED: u8 = 1;

/// The exit status if the arguments were refused.
const BAD_ARGUMENTS: u8 = 2;

/// Why a program gives no answer.
#[derive(Debug, Drop)]
pub enum NoAnswer {
    /// The arguments don't fit the program; the text that says so.
    BadArguments(String),
    /// The run was refused, or the requested help couldn't be written.
    Run(RunFault),
    /// The program refused for a reason that runs don't have; the line that says so.
    Refused(&'static str),
}

impl From<RunFault> for NoAnswer {
    ghost from_gives = { λ fault reason. reason ≡ Run fault };

    fn from(fault: RunFault) -> NoAnswer {
        NoAnswer::Run(fault)
    }
}

/// Ends a program whose arguments made no request. If help or the version was requested, it is the
/// output.
pub fn without_request<O: Write>(out: &mut O, fault: ArgumentFault) -> Result<(), NoAnswer>
    ensures { Ends fault (O.contents out.old) (O.contents out.new) result }
{
    match fault {
        ArgumentFault::Help(text) | ArgumentFault::Version(text) => {
            match write_all(out, text.as_bytes()) {
                Ok(()) => Ok(()),
                Err(fault) => Err(NoAnswer::Run(fault)),
            }
        }
        ArgumentFault::Bad(text) => Err(NoAnswer::BadArguments(text)),
        ArgumentFault::NoMemory => Err(NoAnswer::Run(RunFault::NoMemory)),
    }
}

/// The exit status for the program's result.
pub fn exit_code(answered: &Result<(), NoAnswer>) -> ExitCode
    ensures { exit_status result ≡ status_of answered.now }
{
    match answered {
        Ok(()) => ExitCode::SUCCESS,
        Err(NoAnswer::BadArguments(_)) => ExitCode::from(BAD_ARGUMENTS),
        Err(NoAnswer::Run(_) | NoAnswer::Refused(_)) => ExitCode::from(REFUSED),
    }
}

/// Writes why there is no answer. It allocates nothing. After an error, a prefix of the text has
/// been written.
pub fn tell<E: Write>(err: &mut E, reason: &NoAnswer) -> io::Result<()>
    ensures ok { OnOk result (Appends (E.contents err.old) (E.contents err.new)
        (text_of reason.now)) }
    ensures err { OnErr result (AppendsFront (E.contents err.old) (E.contents err.new)
        (text_of reason.now)) }
{
    match reason {
        NoAnswer::BadArguments(text) => write_bytes(err, text.as_bytes()),
        NoAnswer::Run(fault) => write_fault(err, fault),
        NoAnswer::Refused(line) => write_bytes(err, line.as_bytes()),
    }
}
