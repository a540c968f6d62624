//! Noting, in a batch's plan, the indices of its keys in the base.

ghost use Rattle.std.specs.Prelude.{◌≡◌, ℕ, List, ◌-◌, ◌<◌, ◌≤◌, ◌^◌, IfOk};
ghost use Rattle.std.specs.Prelude.{OnErr, length, slice_get, Some, true, false};
ghost use Rattle.std.specs.Cmp.Lexicographic.{slice_cmp};
ghost use Rattle.std.specs.Ordering.{nat_cmp};
ghost use Rattle.bohm_types.specs.Keys.{IsAmong, is_among, rising};
ghost use Rattle.bohm_place.specs.Noting.{AreNoted, IsSetNoted};
ghost use Rattle.bohm_place.specs.Plans.{keys_in, planned_in, HasSourcesOf};
ghost use Rattle.bohm_board.specs.Bases.{keys_of, IsBase, IsBatched};
ghost use Rattle.bohm_types.specs.Limits.{most_keys};

use bohm_log::{LogPart, TxnView};
use bohm_place::{DeclaredSet, Plan, Source};
use bohm_types::{Cell, Key};
use std::cmp::Ordering;

/// The index of a key among entries sorted by key, or the index at which it would be inserted.
fn search(entries: &[(Key, Cell)], key: &Key) -> Result<usize, usize>
    requires { rising (keys_of entries.now) ≡ true }
    ensures found { IfOk result (λ i. slice_get (keys_of entries.now) i ≡ Some key.now) }
    ensures missing { OnErr result (is_among (keys_of entries.now) key.now ≡ false) }
{
    entries.binary_search_by(
        |entry: &(Key, Cell)| -> Ordering
            ensures { result ≡ slice_cmp nat_cmp entry.now.0 key.entry.now }
        { entry.0.cmp(key) },
    )
}

/// Notes the indices of the keys of one declared set of the transaction with the timestamp `t`.
fn note_set(plan: &mut Plan, entries: &[(Key, Cell)], set: DeclaredSet, t: u32, txn: &TxnView<'_>)
    requires first { plan.old.first ≤ t }
    requires paired { length (keys_in set txn.now)
        ≡ length (planned_in set plan.old (t - plan.old.first)) }
    requires few { length (keys_in set txn.now) ≤ most_keys }
    requires rises { rising (keys_of entries.now) ≡ true }
    requires entries { length entries.now < 2 ^ 32 }
    requires there { (k : List ℕ) → IsAmong (keys_in set txn.now) k
        → IsAmong (keys_of entries.now) k }
    ensures { IsSetNoted plan.old plan.new set (t - plan.old.first)
        (keys_in set txn.now) (keys_of entries.now) (length (keys_in set txn.now)) }
{
    let keys = set.keys(txn);
    for place in 0..keys.len() {
        let key = keys.key(place);
        let index = place as u32;
        match plan.access(set, t, index).source {
            Source::Before => match search(entries, key) {
                Ok(entry) => plan.note(set, t, index, entry as u32),
                Err(_) => {}
            },
            Source::Within(_) => {}
        }
    }
}

/// Notes, at each access whose source is `Before`, the index of its key in the base. The time grows
/// with the number of these accesses times the logarithm of the base's length.
pub fn note_places(plan: &mut Plan, txns: &LogPart<'_>, entries: &[(Key, Cell)])
    requires batched { IsBatched txns.now plan.old }
    requires rises { rising (keys_of entries.now) ≡ true }
    requires base { IsBase txns.now entries.now }
    ensures sources { HasSourcesOf plan.old plan.new }
    ensures batched { IsBatched txns.now plan.new }
    ensures noted { AreNoted txns.now plan.new (keys_of entries.now) }
{
    let first = plan.first();
    for i in 0..txns.len() {
        let t = first + i as u32;
        let txn = txns.txn(i);
        note_set(plan, entries, DeclaredSet::Reads, t, &txn);
        note_set(plan, entries, DeclaredSet::Writes, t, &txn);
    }
}
