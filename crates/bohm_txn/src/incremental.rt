//! The check of a document whose transactions arrive in chunks: first the check of the store, then
//! that of each chunk, then that of the whole.

ghost use Rattle.std.specs.Prelude.{◌≡◌, ◌+◌, ◌++◌, ◌≤◌, None, length, All, IfSome};
ghost use Rattle.bohm_types.specs.Document.{Document};
ghost use Rattle.bohm_txn.specs.Chunked.{store_fault, IsCheckedTo, IsCountOf, IsLogCheckedTo};
ghost use Rattle.bohm_txn.specs.Faulty.{WellFormed, IsFirstFault, IsWellFormedTxn};
ghost use Rattle.bohm_types.specs.Limits.{most_txns};

use crate::fault::{CheckFault, CheckKind};
use crate::first_fault::{first_in_log, is_store_rising};
use bohm_log::LogPart;
use bohm_types::{Key, MOST_TXNS, Value};

/// A fault of the document as a whole.
fn whole_fault(kind: CheckKind) -> CheckFault
    ensures { result ≡ record { txn = 0; stmt = 0; kind = kind } }
{
    CheckFault {
        txn: 0,
        stmt: 0,
        kind,
    }
}

/// The fault of a document's store, which comes before all others. Its time grows with the number
/// of entries.
pub fn check_store(store: &[(Key, Value)]) -> Option<CheckFault>
    ensures { result ≡ store_fault store.now }
{
    if is_store_rising(store) {
        None
    } else {
        Some(whole_fault(CheckKind::Order))
    }
}

/// The first fault of a chunk's transactions, counted from 1, wherever the chunk is in a log. If it
/// has more transactions than a log may have, the result is unspecified.
///
/// The time grows with the number of the chunk's keys, terms and statements.
pub fn check_chunk(chunk: &LogPart<'_>) -> Option<CheckFault>
    ensures { IsLogCheckedTo chunk.now result }
{
    if chunk.len() > MOST_TXNS {
        return None;
    }
    first_in_log(chunk)
}

/// The first fault of a document without one, extended by a chunk, given the number of transactions
/// before the chunk and the chunk's own first fault. If there are more transactions than a log may
/// have, the result is unspecified. The time is constant.
pub fn check_more(
    count: usize,
    chunk: &LogPart<'_>,
    in_chunk: Option<CheckFault>,
) -> Option<CheckFault>
    requires { IsLogCheckedTo chunk.now in_chunk }
    ensures checked { (d : Document) → IsCountOf (length d.log) count → IsCheckedTo d None
        → IsCheckedTo (record d { log = d.log ++ chunk.now }) result }
    ensures formed { result ≡ None → count + length chunk.now ≤ most_txns
        → All IsWellFormedTxn chunk.now }
{
    if count > MOST_TXNS || chunk.len() > MOST_TXNS - count {
        return None;
    }
    let fault = in_chunk?;
    Some(CheckFault {
        txn: count as u32 + fault.txn,
        stmt: fault.stmt,
        kind: fault.kind,
    })
}

/// The first fault of a document, given its number of transactions, its store's fault and the first
/// fault of its transactions.
pub fn check_end(
    in_store: Option<CheckFault>,
    count: usize,
    found: Option<CheckFault>,
) -> Option<CheckFault>
    ensures none { result ≡ None → (d : Document) → in_store ≡ store_fault d.store
        → IsCountOf (length d.log) count → IsCheckedTo d found → WellFormed d }
    ensures some { IfSome result (λ f. (d : Document) → in_store ≡ store_fault d.store
        → IsCountOf (length d.log) count → IsCheckedTo d found → IsFirstFault d f) }
    ensures kept { result ≡ None → found ≡ None }
{
    if in_store.is_some() {
        in_store
    } else if count > MOST_TXNS {
        Some(whole_fault(CheckKind::Limit))
    } else {
        found
    }
}
