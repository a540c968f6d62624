//! The slots of transactions: one for each declared write, then one for each `show`.

ghost use Rattle.std.specs.Prelude.{◌≡◌, ◌≤◌};
ghost use Rattle.bohm_txn.specs.Faulty.{IsWellFormedTxn};
ghost use Rattle.bohm_place.specs.Slots.{most_slots, width};

use bohm_log::TxnView;
use bohm_txn::shows;

/// The number of slots of a transaction. The time grows with the number of its statements.
pub fn width(txn: &TxnView<'_>) -> u32
    requires { IsWellFormedTxn txn.now }
    ensures width { result ≡ width txn.now }
    ensures few { result ≤ most_slots }
{
    (txn.writes().len() + shows(txn)) as u32
}
