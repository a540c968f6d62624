//! Why a run gave no answer.

ghost use Rattle.std.specs.Prelude.{◌≡◌};
ghost use Rattle.bohm_answer.specs.declared.fault.RunFault.TheVariants.{NoMemory, Check};
ghost use Rattle.bohm_answer.specs.Refusing.{refusal_of, reading_refusal_of};

use bohm_reading::ReadingFault;
use bohm_text::TextFault;
use bohm_txn::CheckFault;
use bohm_types::NoMemory;
use thiserror::Error;

/// Why a run was refused. Before every fault but the last one of these, nothing was written.
#[derive(Clone, Copy, Debug, PartialEq, Eq, Error)]
pub enum RunFault {
    /// A read failed. An interrupted read counts too.
    #[error("a read failed")]
    Read,
    /// The input has more bytes than a text may have.
    #[error("the text is too long")]
    TooLong,
    /// The text isn't that of a document. An allocation failure is never reported as this fault.
    #[error("the text is no log's: {0:?}")]
    Text(TextFault),
    /// The document isn't well formed.
    #[error("the log isn't well formed: {0:?}")]
    Check(CheckFault),
    /// The requested timestamp is below those that stay readable.
    #[error("that timestamp was trimmed away")]
    Trimmed,
    /// The requested timestamp is above the log's length.
    #[error("that timestamp lies in the future")]
    Future,
    /// An allocation failed.
    #[error("out of memory")]
    NoMemory,
    /// A write failed or accepted no byte, or the flush failed, after this many bytes of the
    /// answer.
    #[error("a write failed after {sent} bytes")]
    Write { sent: u64 },
}

impl From<NoMemory> for RunFault {
    ghost from_gives = { λ _ e. e ≡ NoMemory };

    fn from(_e: NoMemory) -> RunFault {
        RunFault::NoMemory
    }
}

impl From<TextFault> for RunFault {
    ghost from_gives = { λ fault e. e ≡ refusal_of fault };

    fn from(fault: TextFault) -> RunFault {
        match fault {
            TextFault::NoMemory => RunFault::NoMemory,
            _ => RunFault::Text(fault),
        }
    }
}

impl From<ReadingFault> for RunFault {
    ghost from_gives = { λ fault e. e ≡ reading_refusal_of fault };

    fn from(fault: ReadingFault) -> RunFault {
        match fault {
            ReadingFault::Read => RunFault::Read,
            ReadingFault::TooLong => RunFault::TooLong,
            ReadingFault::Line(n) => RunFault::Text(TextFault::Line(n)),
            ReadingFault::Short => RunFault::Text(TextFault::Short),
            ReadingFault::NoMemory => RunFault::NoMemory,
        }
    }
}

impl From<CheckFault> for RunFault {
    ghost from_gives = { λ fault e. e ≡ Check fault };

    fn from(fault: CheckFault) -> RunFault {
        RunFault::Check(fault)
    }
}
