//! A batch: its transactions, their plan and their base.

ghost use Rattle.std.specs.Prelude.{◌≡◌, ◌<◌, ◌≤◌, length, Some, IsSomeAnd, slice_get, true};
ghost use Rattle.std.proofs.Props.{props};
ghost use Rattle.bohm_types.specs.Keys.{rising};
ghost use Rattle.bohm_hints.specs.Top.{top_cell};
ghost use Rattle.bohm_place.specs.Plans.{keys_in, source_in, HasSourcesOf};
ghost use Rattle.bohm_place.specs.declared.access.Source.TheVariants.{Before};
ghost use Rattle.bohm_board.specs.Bases.{declared_keys, keys_of, listed_cells, most_batch_slots};
ghost use Rattle.bohm_board.specs.Bases.{AreSteady, IsBase, IsBaseFor, IsBatched, txns_in};

mod base_places;
mod own_places;

use crate::base::{Base, cell_of};
use crate::batch::base_places::note_places;
use crate::batch::own_places::note_in_order;
use crate::slot::Slot;
use crate::transactions::Transactions;
use bohm_hints::TopCells;
use bohm_log::{Keys, LogPart, TxnView};
use bohm_place::{Access, DeclaredSet, Plan, Source, width};
use bohm_txn::Checked;
use bohm_types::{Cell, Items, Key};

/// Transactions of a log that run together, their plan, and the cell before them of each key that
/// they declare.
pub struct Batch<'a> {
    txns: Transactions<'a>,
    plan: Plan,
    base: Base<'a>,
    ghost batched: { IsBatched (txns_in txns) plan },
    ghost based: { IsBaseFor (txns_in txns) plan base } by { Prim.hlevel props },
}

// Written by hand: a derived drop is proved again in each function that drops such a value.
impl<'a> Drop for Batch<'a> {
    fn drop(self) {
        let Self { txns, plan, base } = self;
        drop(txns);
        drop(plan);
        drop(base);
    }
}

impl<'a> Batch<'a> {
    ghost use Rattle.bohm_board.specs.Batches.{first_of, txns_of, plan_of, base_of, Owns};
    ghost use Rattle.bohm_board.specs.Batches.{txn_at, key_in, accesses_in, reads_at, writes_at};
    ghost use Rattle.bohm_board.specs.Batches.{position, number, rights_of, width_at, is_sure_at, IsIn, IsSlot};
    ghost use Rattle.std.specs.Option.{option_map};
    ghost use Rattle.bohm_types.specs.Document.{Document};
    ghost use Rattle.bohm_types.specs.Txn.{Txn};

    /// A batch whose first transaction has the timestamp `first`. The base has exactly one entry
    /// for each key that a transaction declares, sorted by key. Each access of the plan whose
    /// source is `Before` gets the index of its key in the base: the time grows with the number of
    /// accesses times the logarithm of the base's length.
    pub fn new(first: u32, txns: LogPart<'a>, plan: Plan, base: Vec<(Key, Cell)>) -> Batch<'a>
        requires batched { IsBatched txns plan }
        requires first { plan.first ≡ first }
        requires rises { rising (keys_of base.items) ≡ true }
        requires base { IsBase txns base.items }
        ensures first { first_of result ≡ first }
        ensures txns { txns_of result ≡ txns.entry }
        ensures plan { HasSourcesOf plan (plan_of result) }
        ensures base { base_of result ≡ listed_cells base.items }
    {
        // The plan has the timestamp too: only the contract needs it here.
        let _ = first;
        let mut plan = plan;
        note_places(&mut plan, &txns, &base);
        Batch {
            txns: Transactions::Lent(txns),
            plan,
            base: Base::Listed(Items::from(base)),
        }
    }

    /// A batch that owns its transactions, those of a document, and borrows nothing. The base has
    /// an entry for each key that a transaction declares, in the order in which they are declared;
    /// the entries of one key have the same cell. The time grows with the number of accesses.
    pub fn own(document: Checked, plan: Plan, base: Vec<(Key, Cell)>) -> Batch<'static>
        requires batched { IsBatched document.log plan }
        requires keys { keys_of base.items ≡ declared_keys document.log }
        requires steady { AreSteady base.items }
        ensures first { first_of result ≡ plan.first }
        ensures owns { Owns result document }
        ensures plan { HasSourcesOf plan (plan_of result) }
        ensures base { base_of result ≡ listed_cells base.items }
    {
        let mut plan = plan;
        note_in_order(&mut plan, &document.log(), &base);
        Batch {
            txns: Transactions::Own(document),
            plan,
            base: Base::Listed(Items::from(base)),
        }
    }

    /// The document of a batch that owns one.
    pub fn into_document(self) -> Option<Checked>
        ensures { (document : Document) → Owns self.entry document → result ≡ Some document }
    {
        let Batch { txns, plan, base } = self;
        drop(plan);
        drop(base);
        match txns {
            Transactions::Lent(_) => None,
            Transactions::Own(document) => Some(document),
        }
    }

    /// A batch whose keys hold, before it, what they hold at the top of a history. Its time is
    /// constant.
    pub fn over(txns: LogPart<'a>, plan: Plan, top: TopCells<'a>) -> Batch<'a>
        requires { IsBatched txns plan }
        ensures first { first_of result ≡ plan.first }
        ensures txns { txns_of result ≡ txns.entry }
        ensures plan { plan_of result ≡ plan }
        ensures base { base_of result ≡ top_cell top.entry }
    {
        Batch {
            txns: Transactions::Lent(txns),
            plan,
            base: Base::Top(top),
        }
    }

    /// The timestamp of the first transaction.
    pub fn first(&self) -> u32
        ensures { result ≡ first_of self.now }
    {
        self.plan.first()
    }

    /// The number of transactions.
    pub fn len(&self) -> u32
        ensures { result ≡ length (txns_of self.now) }
    {
        self.txns.part().len() as u32
    }

    /// The transactions, in the order of their timestamps.
    pub(crate) fn txns(&self) -> LogPart<'_>
        ensures { result ≡ txns_of self.now }
    {
        self.txns.part()
    }

    /// The position of a timestamp, counted from the first.
    pub(crate) fn position(&self, t: u32) -> usize
        requires { IsIn self.now t }
        ensures position { result ≡ position self.now t }
        ensures inside { result < length (rights_of self.now).outcomes }
    {
        (t - self.plan.first()) as usize
    }

    /// The transaction with the timestamp `t`.
    pub fn txn(&self, t: u32) -> TxnView<'_>
        requires { IsIn self.now t }
        ensures { txn_at self.now t ≡ Some result }
    {
        self.txns.part().txn((t - self.plan.first()) as usize)
    }

    /// Whether the transaction with the timestamp `t` is sure. Its time is constant.
    pub fn sure(&self, t: u32) -> bool
        requires { IsIn self.now t }
        ensures { result ≡ is_sure_at self.now t }
    {
        self.plan.sure(t)
    }

    /// The number of slots of the transaction with the timestamp `t`. The time grows with the
    /// number of its statements.
    pub fn width(&self, t: u32) -> u32
        requires { IsIn self.now t }
        ensures { result ≡ width_at self.now t }
    {
        width(&self.txn(t))
    }

    /// The number of slots of all its transactions. Its time is constant.
    pub(crate) fn slots(&self) -> usize
        ensures slots { result ≡ length (rights_of self.now).slots }
        ensures few { result ≤ most_batch_slots }
    {
        self.plan.slots()
    }

    /// The number of a slot among all slots of the batch, counted from 0. Its time is constant.
    pub(crate) fn number(&self, slot: Slot) -> usize
        requires { IsSlot self.now slot }
        ensures number { result ≡ number self.now slot }
        ensures inside { result < length (rights_of self.now).slots }
    {
        self.plan.slot(slot.txn) + slot.index as usize
    }

    /// The source of the declared read at `index`, counted from 0, of the transaction with the
    /// timestamp `t`.
    pub fn read(&self, t: u32, index: u32) -> Source
        requires txn { IsIn self.now t }
        requires index { index < length (reads_at self.now t) }
        ensures { IsSomeAnd (slice_get (reads_at self.now t) index) (λ a. a.source ≡ result) }
    {
        self.plan.read(t, index)
    }

    /// The source of the declared write at `index`, counted from 0, of the transaction with the
    /// timestamp `t`: the version of its key before the transaction.
    pub fn write(&self, t: u32, index: u32) -> Source
        requires txn { IsIn self.now t }
        requires index { index < length (writes_at self.now t) }
        ensures { IsSomeAnd (slice_get (writes_at self.now t) index) (λ a. a.source ≡ result) }
    {
        self.plan.write(t, index)
    }

    /// The access of the key at `index`, counted from 0, in a declared set of the transaction with
    /// the timestamp `t`. Its time is constant.
    pub fn access(&self, set: DeclaredSet, t: u32, index: u32) -> Access
        requires txn { IsIn self.now t }
        requires index { index < length (accesses_in set self.now t) }
        ensures { slice_get (accesses_in set self.now t) index ≡ Some result }
    {
        self.plan.access(set, t, index)
    }

    /// The cell, before the batch, of the key at `index`, counted from 0, of these keys, which are
    /// a declared set of the transaction with the timestamp `t`. The source of the access must be
    /// `Before`. Its time is constant, but that a key of a history is looked up if it isn't where
    /// it was when it was last seen.
    pub fn cell_before(&self, set: DeclaredSet, t: u32, keys: &Keys<'_>, index: u32) -> Cell
        requires txn { IsIn self.now t }
        requires keys { (x : Txn) → txn_at self.now t ≡ Some x → keys.now ≡ keys_in set x }
        requires index { index < length (accesses_in set self.now t) }
        requires source { source_in set (plan_of self.now) (position self.now t) index
            ≡ Some Before }
        ensures { option_map (base_of self.now) (key_in set self.now t index) ≡ Some result }
    {
        match &self.base {
            Base::Listed(entries) => {
                let access = self.plan.access(set, t, index);
                entries.as_slice()[access.index as usize].1
            }
            Base::Top(top) => top.cell(keys.number(index as usize), keys.key(index as usize)),
        }
    }

    /// The cell of a key before the batch. The time grows with the number of keys that the batch
    /// declares if it was made with a list of their cells, and is that of one look-up otherwise.
    pub fn before(&self, key: &Key) -> Cell
        ensures { result ≡ base_of self.now key.now }
    {
        match &self.base {
            Base::Listed(entries) => cell_of(entries.as_slice(), key),
            Base::Top(top) => top.find(key),
        }
    }
}
