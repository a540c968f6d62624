//! Why a log is refused.

use bohm_text::TextFault;
use bohm_txn::CheckFault;
use bohm_types::NoMemory;

/// Why a text isn't a log that can be run.
#[derive(Clone, Copy, Debug, PartialEq, Eq)]
pub enum Refusal {
    /// It isn't a document's text. An allocation failure is never reported this way.
    Text(TextFault),
    /// Its document has faults; this is the first.
    Check(CheckFault),
    /// An allocation failed.
    NoMemory,
}

impl From<NoMemory> for Refusal {
    ghost use Rattle.std.specs.Prelude.{◌≡◌};
    ghost use Rattle.bohm_report.specs.declared.refusal.Refusal.TheVariants.{NoMemory};

    ghost from_gives = { λ _ e. e ≡ NoMemory };

    fn from(_e: NoMemory) -> Refusal {
        Refusal::NoMemory
    }
}
