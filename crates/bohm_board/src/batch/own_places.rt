//! Noting, in the plan of a batch, the indices of its keys in a base that has an entry for each
//! declared key, in the order in which they are declared.

ghost use Rattle.std.specs.Prelude.{◌≡◌, ℕ, List, ◌+◌, ◌-◌, ◌<◌, ◌≤◌, ◌^◌, length, slice_get, Some};
ghost use Rattle.bohm_place.specs.Noting.{AreNoted, IsSetNoted};
ghost use Rattle.bohm_place.specs.Plans.{keys_in, planned_in, HasSourcesOf};
ghost use Rattle.bohm_board.specs.Bases.{declared_keys, keys_of, IsBatched};
ghost use Rattle.bohm_types.specs.Limits.{most_keys};

use bohm_log::{LogPart, TxnView};
use bohm_place::{DeclaredSet, Plan, Source};
use bohm_types::{Cell, Key};

/// Notes the indices of the keys of one declared set of the transaction with the timestamp `t`,
/// whose entries are those from `from` on. Returns the index of the entry that follows them.
fn note_set_from(
    plan: &mut Plan,
    entries: &[(Key, Cell)],
    set: DeclaredSet,
    t: u32,
    txn: &TxnView<'_>,
    from: usize,
) -> usize
    requires first { plan.old.first ≤ t }
    requires paired { length (keys_in set txn.now)
        ≡ length (planned_in set plan.old (t - plan.old.first)) }
    requires few { length (keys_in set txn.now) ≤ most_keys }
    requires entries { length entries.now < 2 ^ 32 }
    requires there { (n : ℕ) (k : List ℕ) → slice_get (keys_in set txn.now) n ≡ Some k
        → slice_get (keys_of entries.now) (from + n) ≡ Some k }
    requires inside { from + length (keys_in set txn.now) ≤ length entries.now }
    ensures noted { IsSetNoted plan.old plan.new set (t - plan.old.first)
        (keys_in set txn.now) (keys_of entries.now) (length (keys_in set txn.now)) }
    ensures end { result ≡ from + length (keys_in set txn.now) }
{
    // Only the contract names the entries.
    let _ = entries;
    let count = set.keys(txn).len();
    for place in 0..count {
        let index = place as u32;
        match plan.access(set, t, index).source {
            Source::Before => plan.note(set, t, index, (from + place) as u32),
            Source::Within(_) => {}
        }
    }
    from + count
}

/// Notes, at each access whose source is `Before`, the index of its key in the base: that of the
/// access among all accesses. The time grows with their number.
pub fn note_in_order(plan: &mut Plan, txns: &LogPart<'_>, entries: &[(Key, Cell)])
    requires batched { IsBatched txns.now plan.old }
    requires keys { keys_of entries.now ≡ declared_keys txns.now }
    ensures sources { HasSourcesOf plan.old plan.new }
    ensures batched { IsBatched txns.now plan.new }
    ensures noted { AreNoted txns.now plan.new (keys_of entries.now) }
{
    let first = plan.first();
    let mut from = 0usize;
    for i in 0..txns.len() {
        let t = first + i as u32;
        let txn = txns.txn(i);
        from = note_set_from(plan, entries, DeclaredSet::Reads, t, &txn, from);
        from = note_set_from(plan, entries, DeclaredSet::Writes, t, &txn, from);
    }
}
