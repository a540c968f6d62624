//! Why a log isn't explained.

ghost use Rattle.std.specs.Prelude.{◌≡◌};
ghost use Rattle.bohm_explain_cli.specs.declared.fault.ExplainFault.TheVariants.{Run};
ghost use Rattle.bohm_explain_cli.specs.Told.{IsToldAs};

use bohm_answer::RunFault;
use bohm_command::NoAnswer;
use bohm_types::NoMemory;

/// The line on standard error if the log lacks the part.
const NO_PART: &str = "refused: no such part\n";

/// Why a log isn't explained.
#[derive(Clone, Copy, Debug, PartialEq, Eq)]
pub enum ExplainFault {
    /// A run refuses the log with this fault, or the explanation couldn't be written.
    Run(RunFault),
    /// The log lacks the part that was to be drawn.
    NoPart,
}

impl From<RunFault> for ExplainFault {
    ghost from_gives = { λ fault e. e ≡ Run fault };

    fn from(fault: RunFault) -> ExplainFault {
        ExplainFault::Run(fault)
    }
}

impl From<NoMemory> for ExplainFault {
    ghost use Rattle.bohm_answer.specs.declared.fault.RunFault.TheVariants as run;

    ghost from_gives = { λ _ e. e ≡ Run run.NoMemory };

    fn from(_e: NoMemory) -> ExplainFault {
        ExplainFault::Run(RunFault::NoMemory)
    }
}

/// How the program ends after a fault.
pub fn no_answer(fault: ExplainFault) -> NoAnswer
    ensures { IsToldAs fault result }
{
    match fault {
        ExplainFault::Run(fault) => NoAnswer::Run(fault),
        ExplainFault::NoPart => NoAnswer::Refused(NO_PART),
    }
}
