//! A log of transactions in columns.

ghost use Rattle.std.specs.Prelude.{◌≡◌, ◌≢◌, ◌↔◌, ◌<◌, ◌≤◌, ◌+◌, ◌^◌, ◌++◌, [], ◌∷◌, Err, IfOk, OnOk};
ghost use Rattle.std.specs.Prelude.{OnErr, IsOkAnd, length};
ghost use Rattle.bohm_log.specs.declared.fault.LogFault.TheVariants.{Full};
ghost use Rattle.bohm_log.specs.declared.fault.CloseFault.TheVariants as faults;
ghost use Rattle.bohm_log.specs.Sizes.{log_size, open_terms, txn_size};
ghost use Rattle.bohm_types.specs.Procedure.{instance};
ghost use Rattle.bohm_log.specs.Handles.{keys_named};
ghost use Rattle.bohm_log.specs.SoundLogs.{AreTxns};

use crate::call_places::CallPlaces;
use crate::columns::{Columns, empty, make_room};
use crate::draft::Draft;
use crate::fault::{CloseFault, LogFault};
use crate::key_handle::KeyHandle;
use crate::part::LogPart;
use crate::shared_names::SharedNames;
use crate::soundness::{are_named, are_values};
use crate::table::Head;
use crate::template::Template;
use bohm_types::{Key, Value};
use std::alloc::Global;
use std::hash::{BuildHasher, BuildHasherDefault, FoldHasher};
use std::marker::Model;

/// The longest text, in bytes, for which capacity is reserved at once.
const MOST_ROOM: usize = 1 << 20;

/// Transactions in order, which contracts see as a list of them.
#[derive(Drop)]
pub struct Log<S: BuildHasher = BuildHasherDefault<FoldHasher>> {
    heads: Vec<Head>,
    columns: Columns<S>,
}

impl<S: BuildHasher> Model for Log<S> {
    ghost use Rattle.std.specs.Prelude.{List, map};
    ghost use Rattle.bohm_types.specs.Txn.{Txn};

    ghost Value = { List Txn };

    ghost use Rattle.bohm_log.specs.Columns.{shared_of, txn_at, IsLogged};

    ghost view = { λ l. map (txn_at (shared_of l.columns)) l.heads.items };

    ghost use Rattle.bohm_log.specs.SoundLogs.{AreTxns};
    ghost use Rattle.bohm_log.specs.Sizes.{IsMeasured};

    ghost invariant = { λ l. IsLogged (shared_of l.columns) l.heads.items
        × AreTxns (map (txn_at (shared_of l.columns)) l.heads.items)
        × IsMeasured (shared_of l.columns) (map (txn_at (shared_of l.columns)) l.heads.items) };
}

/// Appends the head, or returns its error.
#[inline(always)]
fn push_head(heads: &mut Vec<Head>, head: Result<Head, LogFault>) -> Result<(), LogFault>
    ensures ok { OnOk result (IsOkAnd head (λ h. heads.new.items ≡ heads.old.items ++ h ∷ [])) }
    ensures err { OnErr result (heads.new.items ≡ heads.old.items) }
    ensures full { result ≡ Err Full → head ≡ Err Full }
{
    heads.push(head?)?;
    Ok(())
}

impl<S: BuildHasher> Log<S> {
    /// A log without transactions. It allocates nothing.
    pub fn new(alloc: Global, hasher: S) -> Log<S>
        ensures { result ≡ [] }
    {
        Log {
            heads: Vec::new(alloc),
            columns: Columns::new(alloc, hasher),
        }
    }

    /// A log without transactions, which shares these names. It allocates nothing.
    pub fn sharing(alloc: Global, hasher: S, shared: SharedNames<S>) -> Log<S>
        ensures { result ≡ [] }
    {
        Log {
            heads: Vec::new(alloc),
            columns: Columns::sharing(alloc, hasher, shared),
        }
    }

    /// A log without transactions, with capacity for those that a text of this many bytes usually
    /// has.
    pub fn with_room(alloc: Global, hasher: S, bytes: usize) -> Log<S>
        ensures { result ≡ [] }
    {
        let mut log = Log::new(alloc, hasher);
        log.make_room(bytes);
        log
    }

    /// Reserves capacity for the transactions that a text of this many bytes usually has, so that
    /// columns needn't be moved as they grow. If an allocation fails, the columns grow as they are
    /// filled.
    pub fn make_room(&mut self, bytes: usize)
        ensures { self.new ≡ self.old }
    {
        let bytes = bytes.min(MOST_ROOM);
        make_room(&mut self.heads, bytes / 96);
        self.columns.make_room(bytes);
    }

    /// Appends the transaction that was read. It fails with `Open` exactly if sums of a statement
    /// were read but the statement wasn't. It fails with `Full` only if the log's transactions and
    /// this one, with their declared keys, terms and statements, are 2^26 or more. An `Err` leaves
    /// the log unchanged.
    ///
    /// The time grows with the size of the transaction, and not with the log, except when a column
    /// grows.
    pub fn close(&mut self, draft: &Draft<S>) -> Result<(), CloseFault>
    where
        S: Drop,
        ensures ok { OnOk result (self.new ≡ self.old ++ draft.now.txn ∷ []) }
        ensures open { (result ≡ Err faults.Open) ↔ (0 < open_terms draft.now) }
        ensures full { result ≡ Err (faults.Log Full)
            → 2 ^ 26 ≤ log_size self.old + txn_size draft.now.txn }
        ensures err { OnErr result (self.new ≡ self.old) }
    {
        if draft.is_open() {
            return Err(CloseFault::Open);
        }
        let ends = self.columns.ends();
        let (edition, columns) = draft.parts();
        let head = self.columns.append(edition, columns);
        match push_head(&mut self.heads, head) {
            Ok(()) => Ok(()),
            Err(fault) => {
                self.columns.cut_back(ends);
                Err(CloseFault::Log(fault))
            }
        }
    }

    /// Appends the instance of a procedure for the keys of these handles. A key isn't hashed if its
    /// handle's number is the key's number. It fails with `Full` only if the log's transactions and
    /// this one, with their declared keys, terms and statements, are 2^26 or more. An `Err` leaves
    /// the log unchanged. The time grows with the size of the instance.
    #[tactic(auto, using(crate::proofs::Viewing::mapped_length))]
    pub fn push_call(
        &mut self,
        template: &Template,
        places: &mut CallPlaces,
        keys: &[KeyHandle],
        values: &[Value],
    ) -> Result<(), LogFault>
    where
        S: Drop,
        requires values { length values.now ≡ length template.now.values }
        ensures ok { OnOk result
            (self.new ≡ self.old
            ++ instance template.now (keys_named keys.now) values.now ∷ []) }
        ensures full { result ≡ Err Full → 2 ^ 26 ≤ log_size self.old
            + txn_size (instance template.now (keys_named keys.now) values.now) }
        ensures err { OnErr result (self.new ≡ self.old) }
    {
        are_named(keys);
        are_values(values);
        let ends = self.columns.ends();
        let head = self.columns.append_call(
            template.edition,
            &template.body,
            template.values.as_slice(),
            places,
            keys,
            values,
        );
        match push_head(&mut self.heads, head) {
            Ok(()) => Ok(()),
            Err(fault) => {
                self.columns.cut_back(ends);
                Err(fault)
            }
        }
    }

    /// The handle of a key with its likely number: the one that was noted last for its hash. No
    /// search is made.
    #[inline(always)]
    pub fn noted_handle(&self, key: &Key) -> KeyHandle
        ensures { result.key ≡ key.now }
    {
        self.columns.noted_handle(key)
    }

    /// The handle of a key, which is numbered if it has no number and fewer than 2^30 keys have
    /// one. The transactions are unchanged. The time doesn't grow with the log, except when its
    /// table of keys grows.
    pub fn handle(&mut self, key: &Key) -> Result<KeyHandle, LogFault>
    where
        S: Drop,
        ensures key { IfOk result (λ h. h.key ≡ key.now) }
        ensures same { self.new ≡ self.old }
        ensures never_full { result ≢ Err Full }
    {
        self.columns.handle(key)
    }

    /// Removes all transactions. Their capacity is kept if it is for at most four times as many, or
    /// for at most a few thousand. Shared names keep their numbers. The other keys keep their
    /// numbers if there are at most 16,384 of them, or at most four for each key that a transaction
    /// declared and each handle that was made, of which at most 65,536 count, and at most 2^30
    /// together with the shared ones. Otherwise they lose their numbers.
    pub fn clear(&mut self)
    where
        S: Drop,
        ensures { self.new ≡ [] }
    {
        empty(&mut self.heads);
        self.columns.clear();
    }

    /// How many transactions there are.
    pub fn len(&self) -> usize
        ensures { result ≡ length self.now }
    {
        self.heads.len()
    }

    /// The whole log.
    pub fn part(&self) -> LogPart<'_>
        ensures same { result ≡ self.now }
        ensures sound { AreTxns self.now }
    {
        LogPart {
            table: self.columns.table(),
            heads: self.heads.as_slice(),
        }
    }
}
