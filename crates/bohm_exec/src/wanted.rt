//! The slots that the accesses of a declared set refer to.

ghost use Rattle.std.specs.Prelude.{◌≡◌, ◌<◌, ◌≤◌, Some, length};
ghost use Rattle.bohm_types.specs.Txn.{Txn};
ghost use Rattle.bohm_place.specs.Plans.{keys_in};
ghost use Rattle.bohm_board.specs.Batches.{accesses_in, txn_at, IsIn};
ghost use Rattle.bohm_exec.specs.Handed.{TakesSlot};
ghost use Rattle.bohm_types.specs.Limits.{most_keys};

use bohm_board::{Batch, Slot};
use bohm_log::Keys;
use bohm_place::{DeclaredSet, Source};

/// The keys of a declared set of a position.
pub(crate) fn keys_at<'a>(batch: &'a Batch<'_>, t: u32, set: DeclaredSet) -> Keys<'a>
    requires { IsIn batch.now t }
    ensures keys { (x : Txn) → txn_at batch.now t ≡ Some x → result ≡ keys_in set x }
    ensures all { length result ≡ length (accesses_in set batch.now t) }
    ensures few { length result ≤ most_keys }
{
    set.keys(&batch.txn(t))
}

/// The number of keys in a declared set of a position.
pub(crate) fn count(batch: &Batch, t: u32, set: DeclaredSet) -> usize
    requires { IsIn batch.now t }
    ensures all { result ≡ length (accesses_in set batch.now t) }
    ensures few { result ≤ most_keys }
{
    keys_at(batch, t, set).len()
}

/// The slot of the version that an access takes, if the batch produces that version.
pub(crate) fn slot_at(batch: &Batch, t: u32, set: DeclaredSet, index: u32) -> Option<Slot>
    requires inside { IsIn batch.now t }
    requires index { index < length (accesses_in set batch.now t) }
    ensures { TakesSlot (accesses_in set batch.now t) index result }
{
    let access = batch.access(set, t, index);
    match access.source {
        Source::Before => None,
        Source::Within(u) => Some(Slot {
            txn: u,
            index: access.index,
        }),
    }
}
