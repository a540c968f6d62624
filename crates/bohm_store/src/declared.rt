//! The keys that transactions declare.

ghost use Rattle.std.specs.Prelude.{◌≡◌, IfOk};
ghost use Rattle.bohm_types.specs.KeySets.{key_set};
ghost use Rattle.bohm_board.specs.Bases.{declared_keys};

use bohm_log::LogPart;
use bohm_txn::{add_keys, sort_keys};
use bohm_types::{Key, NoMemory};
use std::alloc::Global;

/// The keys that the transactions declare, in ascending order, each once. The time grows with their
/// number n as n log n.
pub fn declared_keys(alloc: Global, txns: &LogPart<'_>) -> Result<Vec<Key>, NoMemory>
    ensures { IfOk result (λ v. v.items ≡ key_set (declared_keys txns.now)) }
{
    let mut keys = Vec::new(alloc);
    for index in 0..txns.len() {
        let txn = txns.txn(index);
        add_keys(&mut keys, &txn.reads())?;
        add_keys(&mut keys, &txn.writes())?;
    }
    sort_keys(&mut keys);
    Ok(keys)
}
