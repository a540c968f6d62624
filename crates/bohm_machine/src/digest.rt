//! Digests of the past.

ghost use Rattle.std.specs.Prelude.{◌≡◌, ◌<◌, ◌≤◌, ◌↔◌, Err, IfOk, OnErr};
ghost use Rattle.bohm_store.specs.declared.fault.StoreFault.TheVariants as store_is;
ghost use Rattle.bohm_machine.specs.Digests.{IsDigest};
ghost use Rattle.bohm_machine.specs.Machines.{floor_of, past_of, top_of};

use crate::machine::Machine;
use bohm_log::{Doc, FixedSeed, HashSeed, Log};
use bohm_store::StoreFault;
use bohm_text::print_store;
use bohm_types::Edition;
use sha2::{Digest, Sha256};
use std::alloc::Global;

impl Machine {
    /// The SHA-256 digest of the text of `store_at(ts)`, for replicas to compare. `Trimmed` below
    /// the floor and `Future` above the top, which are decided before any allocation. Two machines
    /// have the same digest at two timestamps if they have the same store there, and only then,
    /// unless the texts of the two stores collide under SHA-256.
    ///
    /// The time is that of `store_at`, and grows with the length of the text, which is built whole.
    pub fn digest(&self, alloc: Global, ts: u32) -> Result<[u8; 32], StoreFault>
        ensures trimmed { (result ≡ Err store_is.Trimmed) ↔ (ts < floor_of self.now) }
        ensures future { (result ≡ Err store_is.Future) ↔ (top_of self.now < ts) }
        ensures within { floor_of self.now ≤ ts → ts ≤ top_of self.now
            → OnErr result (result ≡ Err store_is.NoMemory) }
        ensures digest { IfOk result (IsDigest (past_of self.now ts)) }
    {
        let entries = match self.store_at(alloc, ts) {
            Ok(entries) => entries,
            Err(fault) => return Err(fault),
        };
        let empty = Log::new(alloc, HashSeed::from(FixedSeed));
        let Some(doc) = Doc::new(Edition::One, entries, empty) else {
            unreachable!()
        };
        // What a document holds has a text.
        doc.has_text();
        match print_store(alloc, doc.store()) {
            Ok(text) => Ok(Sha256::digest(text.as_slice())),
            Err(_) => Err(StoreFault::NoMemory),
        }
    }
}
