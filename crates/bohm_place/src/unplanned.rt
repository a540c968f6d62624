//! The input of planning.

ghost use Rattle.std.specs.Prelude.{◌+◌, ◌<◌, ◌≤◌, ◌^◌, All, length};
ghost use Rattle.bohm_txn.specs.Faulty.{IsWellFormedTxn};

use bohm_log::LogPart;

/// A batch to be planned: its transactions, the timestamp of the first one, and the number of
/// accesses.
#[derive(Clone, Copy)]
pub struct UnplannedBatch<'a> {
    pub first: u32,
    pub txns: &'a LogPart<'a>,
    pub accesses: usize,
    ghost position: { 0 < first },
    ghost room: { first + length txns.now ≤ 2 ^ 32 },
    ghost formed: { All IsWellFormedTxn txns.now },
}
