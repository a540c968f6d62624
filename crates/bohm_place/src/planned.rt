//! The plan of a batch.

ghost use Rattle.std.specs.Prelude.{◌≡◌, ◌-◌, ◌<◌, ◌≤◌, length, slice_get, Some, IsSomeAnd};
ghost use Rattle.bohm_place.specs.Plans.{access_of};

use crate::access::{Access, Source};
use crate::declared_set::DeclaredSet;
use crate::placeholder::Placeholder;
use crate::row::Row;
use std::marker::Model;

/// The source of each access of a batch, the number of each transaction's first slot, and which
/// transactions are sure. A slot is a declared write or a `show` of a transaction.
#[derive(Drop)]
pub struct Plan {
    first: u32,
    placeholders: Vec<Placeholder>,
    rows: Vec<Row>,
    slots: usize,
}

impl Model for Plan {
    ghost use Rattle.std.specs.Prelude.{map};
    ghost use Rattle.bohm_place.specs.Plans.{Planned, accesses_of, AreRows};

    ghost Value = { Planned };

    ghost view = { λ p. record {
      first = p.first;
      rows = map (accesses_of p.placeholders.items) p.rows.items;
      slots = p.slots;
    } };

    ghost invariant = { λ p. AreRows p.rows.items };
}

impl From<Placeholder> for Access {
    ghost from_gives = { λ v a. a ≡ access_of v };

    fn from(placeholder: Placeholder) -> Access {
        Access {
            source: if placeholder.begin == 0 {
                Source::Before
            } else {
                Source::Within(placeholder.begin)
            },
            index: placeholder.index,
        }
    }
}

impl Plan {
    ghost use Rattle.std.specs.Prelude.{map};
    ghost use Rattle.bohm_place.specs.Plans.{accesses_of, planned_in, reads_of, writes_of};
    ghost use Rattle.bohm_place.specs.Plans.{slot_at, source_in, sure_at, AreRows, IsNoted};
    ghost use Rattle.bohm_place.specs.declared.access.Source.TheVariants.{Before};

    /// The plan of a batch that starts at the timestamp `first` and has this number of slots.
    pub(crate) fn new(
        first: u32,
        placeholders: Vec<Placeholder>,
        rows: Vec<Row>,
        slots: usize,
    ) -> Plan
        requires { AreRows rows.items }
        ensures first { result.first ≡ first }
        ensures rows { result.rows ≡ map (accesses_of placeholders.items) rows.items }
        ensures slots { result.slots ≡ slots }
    {
        Plan {
            first,
            placeholders,
            rows,
            slots,
        }
    }

    /// The timestamp of the batch's first transaction.
    pub fn first(&self) -> u32
        ensures { result ≡ self.now.first }
    {
        self.first
    }

    /// The number of the batch's transactions.
    pub fn len(&self) -> u32
        ensures { result ≡ length self.now.rows }
    {
        self.rows.len() as u32
    }

    /// The source of the read at `index`, counted from 0, of the transaction with the timestamp
    /// `t`.
    pub fn read(&self, t: u32, index: u32) -> Source
        requires first { self.now.first ≤ t }
        requires index { index < length (reads_of self.now (t - self.now.first)) }
        ensures { IsSomeAnd (slice_get (reads_of self.now (t - self.now.first)) index)
            (λ a. a.source ≡ result) }
    {
        self.access(DeclaredSet::Reads, t, index).source
    }

    /// The source of the declared write at `index`, counted from 0, of the transaction with the
    /// timestamp `t`: the version of its key before the transaction.
    pub fn write(&self, t: u32, index: u32) -> Source
        requires first { self.now.first ≤ t }
        requires index { index < length (writes_of self.now (t - self.now.first)) }
        ensures { IsSomeAnd (slice_get (writes_of self.now (t - self.now.first)) index)
            (λ a. a.source ≡ result) }
    {
        self.access(DeclaredSet::Writes, t, index).source
    }

    /// Whether the transaction with the timestamp `t` is sure. Its time is constant.
    pub fn sure(&self, t: u32) -> bool
        requires first { self.now.first ≤ t }
        requires txn { t - self.now.first < length self.now.rows }
        ensures { sure_at self.now (t - self.now.first) ≡ Some result }
    {
        self.rows[(t - self.first) as usize].sure
    }

    /// The number of slots of the batch's transactions before the one with the timestamp `t`: the
    /// number, counted from 0, of its first slot. Its time is constant.
    pub fn slot(&self, t: u32) -> usize
        requires first { self.now.first ≤ t }
        requires txn { t - self.now.first < length self.now.rows }
        ensures { slot_at self.now (t - self.now.first) ≡ Some result }
    {
        self.rows[(t - self.first) as usize].slot
    }

    /// The number of slots of all the batch's transactions. Its time is constant.
    pub fn slots(&self) -> usize
        ensures { result ≡ self.now.slots }
    {
        self.slots
    }

    /// The access of the key at `index`, counted from 0, in a declared set of the transaction with
    /// the timestamp `t`. Its time is constant.
    pub fn access(&self, set: DeclaredSet, t: u32, index: u32) -> Access
        requires first { self.now.first ≤ t }
        requires index { index < length (planned_in set self.now (t - self.now.first)) }
        ensures { slice_get (planned_in set self.now (t - self.now.first)) index ≡ Some result }
    {
        let row = self.rows[(t - self.first) as usize];
        Access::from(self.placeholders[row.place(set, index)])
    }

    /// Notes, at an access whose source is `Before`, the index of its key in a listed base. All
    /// other accesses are unchanged. Its time is constant.
    pub fn note(&mut self, set: DeclaredSet, t: u32, index: u32, place: u32)
        requires first { self.old.first ≤ t }
        requires index { index < length (planned_in set self.old (t - self.old.first)) }
        requires source { source_in set self.old (t - self.old.first) index ≡ Some Before }
        ensures { IsNoted self.old self.new set (t - self.old.first) index place }
    {
        let row = self.rows[(t - self.first) as usize];
        let accessed = row.place(set, index);
        self.placeholders[accessed].index = place;
    }
}
