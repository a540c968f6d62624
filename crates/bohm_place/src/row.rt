//! Where a transaction's accesses and slots are in a plan.

ghost use Rattle.std.specs.Prelude.{◌≡◌, ◌<◌, ◌≤◌, ◌+◌, ◌^◌, length, IfOk};
ghost use Rattle.bohm_place.specs.Plans.{start_in};
ghost use Rattle.bohm_place.specs.Shares.{rows_from, AreWellFormed};
ghost use Rattle.bohm_place.specs.Slots.{offset};

use crate::declared_set::DeclaredSet;
use crate::slots::width;
use bohm_log::LogPart;
use bohm_txn::sure;
use bohm_types::NoMemory;
use std::alloc::Global;

/// The accesses of one transaction in a list of all accesses: its reads from index `start` on,
/// followed by its writes; the number of slots of the batch's transactions before it; and whether
/// the transaction is sure.
#[derive(Clone, Copy, Debug)]
pub struct Row {
    pub start: usize,
    pub reads: u32,
    pub writes: u32,
    pub slot: usize,
    pub sure: bool,
}

impl Row {
    /// The index in that list of the access at `index`, counted from 0, of a declared set.
    pub fn place(self, set: DeclaredSet, index: u32) -> usize
        requires { start_in set self + index < 2 ^ 64 }
        ensures { result ≡ start_in set self + index }
    {
        let start = match set {
            DeclaredSet::Reads => self.start,
            DeclaredSet::Writes => self.start + self.reads as usize,
        };
        start + index as usize
    }
}

/// The row of each transaction, and the number of their slots. The time grows with the number of
/// their statements and terms.
pub fn rows(alloc: Global, txns: &LogPart<'_>) -> Result<(Vec<Row>, usize), NoMemory>
    requires formed { AreWellFormed txns.now }
    requires few { length txns.now ≤ 2 ^ 32 }
    ensures rows { IfOk result (λ r. r.0.items ≡ rows_from 0 0 txns.now) }
    ensures slots { IfOk result (λ r. r.1 ≡ offset txns.now (length txns.now)) }
{
    let mut rows = Vec::with_capacity(alloc, txns.len())?;
    let mut start = 0;
    let mut slots = 0usize;
    for index in 0..txns.len() {
        let txn = txns.txn(index);
        let reads = txn.reads().len();
        let writes = txn.writes().len();
        rows.push(Row {
            start,
            reads: reads as u32,
            writes: writes as u32,
            slot: slots,
            sure: sure(&txn),
        })?;
        start += reads + writes;
        slots += width(&txn) as usize;
    }
    Ok((rows, slots))
}
