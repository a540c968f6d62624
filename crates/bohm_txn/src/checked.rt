//! Documents that passed the check.

ghost use Rattle.std.specs.Prelude.{◌≡◌, ◌≢◌, ◌<◌, ◌≤◌, ◌+◌, ◌^◌, true, length, All, IfOk, IfErr};
ghost use Rattle.std.specs.Prelude.{OnOk, OnErr, Err};
ghost use Rattle.bohm_log.specs.Sizes.{log_size, txn_size};
ghost use Rattle.bohm_log.specs.declared.fault.LogFault.TheVariants.{Full};
ghost use Rattle.bohm_types.specs.Appending.{empty_document, with_txn};
ghost use Rattle.bohm_types.specs.Procedure.{instance};
ghost use Rattle.bohm_types.specs.Keys.{rising, names_of};
ghost use Rattle.bohm_log.specs.Handles.{keys_named};
ghost use Rattle.bohm_txn.specs.Faulty.{WellFormed, IsFirstFault, IsWellFormedTxn};
ghost use Rattle.bohm_types.specs.Limits.{most_txns};

use crate::fault::CheckFault;
use crate::first_fault::first_fault;
use bohm_log::{CallPlaces, Doc, HashSeed, KeyHandle, LogFault, LogPart, SharedNames, Template};
use bohm_types::{Edition, Key, Value};
use std::alloc::Global;
use std::marker::Model;

/// A well-formed document: it is made by `check`, or from calls of procedures that the check
/// accepted.
#[derive(Drop)]
pub struct Checked {
    doc: Doc,
}

impl Model for Checked {
    ghost use Rattle.bohm_types.specs.Document.{Document};
    ghost use Rattle.bohm_txn.specs.Faulty.{WellFormed};

    ghost Value = { Document };

    ghost view = { λ c. c.doc };

    ghost invariant = { λ c. WellFormed c.doc };
}

impl Checked {
    /// An empty store, and a log without transactions that shares these names. It allocates
    /// nothing.
    pub fn sharing(
        alloc: Global,
        seed: HashSeed,
        edition: Edition,
        names: SharedNames<HashSeed>,
    ) -> Checked
        ensures { result ≡ empty_document edition }
    {
        Checked {
            doc: Doc::sharing(alloc, seed, edition, names),
        }
    }

    /// Appends the instance of a procedure for the keys of these handles. A key isn't hashed if its
    /// handle's number is the key's number. It fails with `Full` only if the document's
    /// transactions and this one, with their declared keys, terms and statements, are 2^26 or more.
    /// An `Err` leaves the document unchanged. The time grows with the size of the instance.
    pub fn push_call(
        &mut self,
        template: &Template,
        places: &mut CallPlaces,
        keys: &[KeyHandle],
        values: &[Value],
    ) -> Result<(), LogFault>
        requires values { length values.now ≡ length template.now.values }
        requires edition { template.now.edition ≡ self.old.edition }
        requires well_formed { IsWellFormedTxn
            (instance template.now (keys_named keys.now) values.now) }
        requires few { length self.old.log < most_txns }
        ensures ok { OnOk result
            (self.new ≡ with_txn self.old
            (instance template.now (keys_named keys.now) values.now)) }
        ensures full { result ≡ Err Full → 2 ^ 26 ≤ log_size self.old.log
            + txn_size (instance template.now (keys_named keys.now) values.now) }
        ensures err { OnErr result (self.new ≡ self.old) }
    {
        self.doc.push_call(template, places, keys, values)
    }

    /// The handle of a key with its likely number: the one that was noted last for its hash. No
    /// search is made.
    #[inline(always)]
    pub fn noted_handle(&self, key: &Key) -> KeyHandle
        ensures { result.key ≡ key.now }
    {
        self.doc.noted_handle(key)
    }

    /// The handle of a key, which is numbered if it has no number and fewer than 2^30 keys have
    /// one. The document is unchanged.
    pub fn handle(&mut self, key: &Key) -> Result<KeyHandle, LogFault>
        ensures key { IfOk result (λ h. h.key ≡ key.now) }
        ensures same { self.new ≡ self.old }
        ensures never_full { result ≢ Err Full }
    {
        self.doc.handle(key)
    }

    /// Removes the store's entries and all transactions. Capacity is kept for others.
    pub fn clear(&mut self)
        ensures { self.new ≡ empty_document self.old.edition }
    {
        self.doc.clear();
    }

    /// The document.
    pub fn doc(&self) -> &Doc
        ensures { result.now ≡ self.now }
    {
        &self.doc
    }

    pub fn edition(&self) -> Edition
        ensures { result ≡ self.now.edition }
    {
        self.doc.edition()
    }

    /// The entries of the starting store, in ascending order of their keys.
    #[tactic(auto, using(crate::proofs::UseLaws::rising_store))]
    pub fn store(&self) -> &[(Key, Value)]
        ensures same { result.now ≡ self.now.store }
        ensures rising { rising (names_of result.now) ≡ true }
    {
        self.doc.store()
    }

    /// The transactions, at most 1,000,000.
    #[tactic(auto, using(crate::proofs::UseLaws::few_txns, crate::proofs::UseLaws::all_in))]
    pub fn log(&self) -> LogPart<'_>
        ensures same { result ≡ self.now.log }
        ensures few { length result ≤ most_txns }
        ensures well_formed { All IsWellFormedTxn result }
    {
        self.doc.log()
    }
}

/// Returns the document if it has no fault. Otherwise returns its first faulty place, by
/// transaction and then by statement, with the least kind of fault there. A refused document is
/// dropped.
///
/// It allocates nothing. Its time grows with the number of the document's store entries, keys,
/// terms and statements.
#[tactic(auto, using(crate::proofs::FirstLaw::well_formed))]
pub fn check(doc: Doc) -> Result<Checked, CheckFault>
    ensures ok { IfOk result (λ checked. checked ≡ doc) }
    ensures well_formed { IfOk result WellFormed }
    ensures err { IfErr result (IsFirstFault doc) }
{
    match first_fault(&doc) {
        None => Ok(Checked { doc }),
        Some(fault) => Err(fault),
    }
}
