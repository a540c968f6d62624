//! The keys that transactions declare, by number.

ghost use Rattle.std.specs.Prelude.{◌≡◌, ◌<◌, length, Some, slice_get, IsSomeAnd};
ghost use Rattle.std.specs.List.{IsDistinct};
ghost use Rattle.std.specs.Str.{bytes_eq};
ghost use Rattle.bohm_log.specs.Columns.{AllNamed};
ghost use Rattle.bohm_log.specs.Numbering.{sets_at, IsNumbered};
ghost use Rattle.bohm_log.specs.Layers.{all_names};

use crate::name_table::NameTable;
use crate::table::Head;
use std::marker::Model;

/// The names of a log's keys and, for each transaction of a part of the log, the numbers of the
/// keys that it declares. It has nothing of the transactions' bodies.
#[derive(Drop)]
pub struct DeclaredKeys<'a> {
    pub(crate) names: NameTable<'a>,
    pub(crate) ids: &'a [u32],
    pub(crate) heads: &'a [Head],
}

impl<'a> Model for DeclaredKeys<'a> {
    ghost use Rattle.std.specs.Prelude.{map};
    ghost use Rattle.bohm_log.specs.Numbering.{Numbered, sets_at, IsNumbered};
    ghost use Rattle.bohm_log.specs.Layers.{all_names};

    ghost Value = { Numbered };

    ghost view = { λ k.
        record { names = all_names k.names; sets = map (sets_at k.ids.now) k.heads.now } };

    ghost invariant = { λ k. IsNumbered (all_names k.names) k.ids.now k.heads.now };
}

/// The numbers of the keys that the transaction of a head reads, and of the keys that it writes.
#[tactic(auto, using(crate::proofs::Dividing::named_between))]
fn sets_by<'a>(
    names: NameTable<'_>,
    ids: &'a [u32],
    heads: &[Head],
    index: usize,
) -> (&'a [u32], &'a [u32])
    requires index { index < length heads.now }
    requires numbered { IsNumbered (all_names names) ids.now heads.now }
    ensures sets { IsSomeAnd (slice_get heads.now index)
        (λ h. sets_at ids.now h ≡ (result.0.now, result.1.now)) }
    ensures reads { AllNamed (all_names names.entry) result.0.now }
    ensures writes { AllNamed (all_names names.entry) result.1.now }
{
    let head = &heads[index];
    let reads = &ids[head.ids as usize..head.reads as usize];
    let writes = &ids[head.reads as usize..head.writes as usize];
    (reads, writes)
}

impl<'a> DeclaredKeys<'a> {
    /// How many transactions there are.
    pub fn len(&self) -> usize
        ensures { result ≡ length self.now.sets }
    {
        self.heads.len()
    }

    /// All names of the log's keys, each at its number.
    pub fn names(&self) -> NameTable<'a>
        ensures names { all_names result ≡ self.now.names }
        ensures apart { IsDistinct bytes_eq self.now.names }
    {
        self.names
    }

    /// The numbers of the keys that the transaction at an index, counted from 0, reads, and of the
    /// keys that it writes.
    pub fn sets(&self, index: usize) -> (&'a [u32], &'a [u32])
        requires { index < length self.now.sets }
        ensures sets { slice_get self.now.sets index ≡ Some (result.0.now, result.1.now) }
        ensures reads { AllNamed self.now.names result.0.now }
        ensures writes { AllNamed self.now.names result.1.now }
    {
        sets_by(self.names, self.ids, self.heads, index)
    }
}
