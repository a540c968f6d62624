//! A log that is cut into batches.

ghost use Rattle.std.specs.Prelude.{◌≡◌, ◌+◌, ◌<◌, ◌≤◌, ◌^◌, All, length};
ghost use Rattle.std.specs.List.{sum};
ghost use Rattle.bohm_txn.specs.Faulty.{IsWellFormedTxn};
ghost use Rattle.bohm_types.specs.Limits.{largest_batch};

use crate::cuts::Cuts;
use bohm_log::LogPart;

/// A log, the timestamp of its first transaction, and the sizes of its batches.
#[derive(Clone, Copy)]
pub struct CutLog<'a> {
    first: u32,
    txns: &'a LogPart<'a>,
    cuts: &'a Cuts,
    ghost whole: { sum cuts.now ≡ length txns.now },
    ghost timestamps: { first + length txns.now ≤ 2 ^ 32 },
    ghost formed: { All IsWellFormedTxn txns.now },
}

impl<'a> CutLog<'a> {
    ghost use Rattle.bohm_place.specs.Cuttings.{ahead, first_at, txns_at};
    ghost use Rattle.bohm_place.specs.CutLogs.{cutting_of};

    /// A log whose first transaction has the timestamp `first`, with its batches.
    pub fn new(first: u32, txns: &'a LogPart<'a>, cuts: &'a Cuts) -> CutLog<'a>
        requires whole { sum cuts.now ≡ length txns.now }
        requires timestamps { first + length txns.now ≤ 2 ^ 32 }
        requires formed { All IsWellFormedTxn txns.now }
        ensures { cutting_of result
            ≡ record { first = first; log = txns.entry.now; sizes = cuts.entry.now } }
    {
        CutLog { first, txns, cuts }
    }

    /// The timestamp of the first transaction.
    pub fn first(&self) -> u32
        ensures { result ≡ (cutting_of self.now).first }
    {
        self.first
    }

    /// The number of batches.
    pub fn batches(&self) -> u32
        ensures { result ≡ length (cutting_of self.now).sizes }
    {
        self.cuts.count()
    }

    /// The transactions of the batch at this index, counted from 0, with `start` transactions
    /// before it.
    pub fn batch(&self, place: u32, start: usize) -> LogPart<'a>
        requires place { place < length (cutting_of self.now).sizes }
        requires start { start ≡ ahead (cutting_of self.now).sizes place }
        ensures txns { result ≡ txns_at (cutting_of self.now) place }
        ensures some { 0 < length result }
        ensures few { length result ≤ largest_batch }
        ensures ahead { ahead (cutting_of self.now).sizes (place + 1) ≡ start + length result }
        ensures inside { first_at (cutting_of self.now) place + length result ≤ 2 ^ 32 }
        ensures formed { All IsWellFormedTxn result }
    {
        let size = self.cuts.size(place) as usize;
        self.txns.between(start, start + size)
    }
}
