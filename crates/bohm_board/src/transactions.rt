//! The transactions of a batch.

ghost use Rattle.std.specs.Prelude.{◌≡◌};
ghost use Rattle.bohm_board.specs.Bases.{txns_in};

use bohm_log::LogPart;
use bohm_txn::Checked;

/// The transactions of a batch, which a log lends, or which are those of a document that the batch
/// owns: such a batch borrows nothing.
#[derive(Drop)]
pub enum Transactions<'a> {
    Lent(LogPart<'a>),
    Own(Checked),
}

// The transactions that a log lends, for as long as the reference to them.
fn lent<'b>(part: &'b LogPart<'_>) -> LogPart<'b>
    ensures { result ≡ part.now }
{
    part.fork()
}

impl Transactions<'_> {
    pub(crate) fn part(&self) -> LogPart<'_>
        ensures { result ≡ txns_in self.now }
    {
        match self {
            Transactions::Lent(part) => lent(part),
            Transactions::Own(document) => document.log(),
        }
    }
}
