//! Documents: a store and a log.

ghost use Rattle.std.specs.Prelude.{◌≡◌, ◌≢◌, ◌≤◌, ◌+◌, ◌^◌, Err, length, IfOk, OnOk, OnErr};
ghost use Rattle.bohm_log.specs.Sizes.{log_size, txn_size};
ghost use Rattle.bohm_log.specs.declared.fault.LogFault.TheVariants.{Full};
ghost use Rattle.std.specs.List.{list_all};
ghost use Rattle.bohm_types.specs.Document.{in_edition};
ghost use Rattle.bohm_types.specs.Appending.{empty_document, with_txn};
ghost use Rattle.bohm_types.specs.Procedure.{instance};
ghost use Rattle.bohm_types.specs.Sound.{IsDocument};
ghost use Rattle.bohm_log.specs.Handles.{keys_named};

use crate::call_places::CallPlaces;
use crate::fault::LogFault;
use crate::hash_seed::HashSeed;
use crate::key_handle::KeyHandle;
use crate::log::Log;
use crate::part::LogPart;
use crate::shared_names::SharedNames;
use crate::soundness::are_entries;
use crate::template::Template;
use bohm_types::{Edition, Items, Key, Value};
use std::alloc::Global;
use std::marker::Model;

/// A starting store and a log of transactions of one edition.
pub struct Doc {
    edition: Edition,
    store: Items<(Key, Value)>,
    log: Log<HashSeed>,
}

// Written out: a derived drop is proved anew in each function that drops such a value.
impl Drop for Doc {
    fn drop(self) {
        let Self {
            edition: _,
            store,
            log,
        } = self;
        drop(store);
        drop(log);
    }
}

impl Model for Doc {
    ghost use Rattle.bohm_types.specs.Document.{Document, in_edition};
    ghost use Rattle.std.specs.Prelude.{IsTrue};
    ghost use Rattle.std.specs.List.{list_all, AllByRecursion};
    ghost use Rattle.bohm_types.specs.Sound.{IsEntry};

    ghost Value = { Document };

    ghost view = { λ d. record { edition = d.edition; store = d.store; log = d.log } };

    ghost invariant = { λ d. IsTrue (list_all (in_edition d.edition) d.log)
        × AllByRecursion IsEntry d.store };
}

fn are_in(edition: Edition, log: &LogPart<'_>) -> bool
    ensures { result ≡ list_all (in_edition edition) log.now }
{
    for index in 0..log.len() {
        if log.txn(index).edition() != edition {
            return false;
        }
    }
    true
}

impl Doc {
    ghost use Rattle.bohm_types.specs.Document.{document_of};

    /// The document, if all its transactions are of its edition. Its time grows with the number of
    /// transactions.
    pub fn new(edition: Edition, store: Vec<(Key, Value)>, log: Log<HashSeed>) -> Option<Doc>
        ensures { result ≡ document_of edition store.items log }
    {
        are_entries(store.as_slice());
        if are_in(edition, &log.part()) {
            Some(Doc {
                edition,
                store: Items::from(store),
                log,
            })
        } else {
            None
        }
    }

    /// An empty store, and a log without transactions that shares these names. It allocates
    /// nothing.
    pub fn sharing(
        alloc: Global,
        seed: HashSeed,
        edition: Edition,
        names: SharedNames<HashSeed>,
    ) -> Doc
        ensures { result ≡ empty_document edition }
    {
        Doc {
            edition,
            store: Items::from(Vec::new(alloc)),
            log: Log::sharing(alloc, seed, names),
        }
    }

    /// Appends the instance of a procedure for the keys of these handles. A key isn't hashed if its
    /// handle's number is the key's number. It fails with `Full` only if the document's
    /// transactions and this one, with their declared keys, terms and statements, are 2^26 or more.
    /// An `Err` leaves the document unchanged. The time grows with the size of the instance.
    pub fn push_call(
        &mut self,
        template: &Template,
        places: &mut CallPlaces,
        keys: &[KeyHandle],
        values: &[Value],
    ) -> Result<(), LogFault>
        requires values { length values.now ≡ length template.now.values }
        requires edition { template.now.edition ≡ self.old.edition }
        ensures ok { OnOk result
            (self.new ≡ with_txn self.old
            (instance template.now (keys_named keys.now) values.now)) }
        ensures full { result ≡ Err Full → 2 ^ 26 ≤ log_size self.old.log
            + txn_size (instance template.now (keys_named keys.now) values.now) }
        ensures err { OnErr result (self.new ≡ self.old) }
    {
        self.log.push_call(template, places, keys, values)
    }

    /// The handle of a key with its likely number: the one that was noted last for its hash. No
    /// search is made.
    #[inline(always)]
    pub fn noted_handle(&self, key: &Key) -> KeyHandle
        ensures { result.key ≡ key.now }
    {
        self.log.noted_handle(key)
    }

    /// The handle of a key, which is numbered if it has no number and fewer than 2^30 keys have
    /// one. The document is unchanged.
    pub fn handle(&mut self, key: &Key) -> Result<KeyHandle, LogFault>
        ensures key { IfOk result (λ h. h.key ≡ key.now) }
        ensures same { self.new ≡ self.old }
        ensures never_full { result ≢ Err Full }
    {
        self.log.handle(key)
    }

    /// Removes the store's entries and all transactions. Capacity is kept for others.
    pub fn clear(&mut self)
        ensures { self.new ≡ empty_document self.old.edition }
    {
        self.store.clear();
        self.log.clear();
    }

    pub fn edition(&self) -> Edition
        ensures { result ≡ self.now.edition }
    {
        self.edition
    }

    /// The entries of the starting store, in the order in which they were given.
    pub fn store(&self) -> &[(Key, Value)]
        ensures { result.now ≡ self.now.store }
    {
        self.store.as_slice()
    }

    /// Its transactions.
    pub fn log(&self) -> LogPart<'_>
        ensures { result ≡ self.now.log }
    {
        self.log.part()
    }

    /// A law: whatever the document holds has a text. The call costs nothing.
    pub fn has_text(&self)
        ensures { IsDocument self.now }
    {
        let _ = self.log.part();
    }
}
