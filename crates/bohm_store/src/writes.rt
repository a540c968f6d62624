//! Versions to add, by the numbers of their keys.

ghost use Rattle.std.specs.Prelude.{◌≡◌, ◌<◌, get_or, length};
ghost use Rattle.bohm_store.specs.Writes.{listed_in, writes_by};

use crate::numbered_write::NumberedWrite;
use crate::version::Version;
use bohm_types::Cell;

/// A sequence of versions to add, each with the number of its key.
#[derive(Clone, Copy)]
pub enum Writes<'a, 'b> {
    /// The versions of a list.
    Listed(&'a [NumberedWrite]),
    /// For each number a version that begins at this timestamp, with the cell at the same index.
    Begun(u32, &'a [u32], &'b [Cell]),
}

/// The version at an index of a list. It is a separate function because the prover knows the
/// maximum length of a slice only if the slice is a parameter.
#[inline(always)]
fn listed_at(writes: &[NumberedWrite], i: usize) -> NumberedWrite
    requires { i < length writes.now }
    ensures { result ≡ get_or writes.now i result }
{
    writes[i]
}

/// The version that begins at a timestamp, with the number and the cell at an index.
#[inline(always)]
#[tactic(auto, using(crate::proofs::Advanced::writes_many, crate::proofs::Advanced::write_at))]
fn begun_at(begin: u32, numbers: &[u32], cells: &[Cell], i: usize) -> NumberedWrite
    requires { i < length (writes_by begin numbers.now cells.now) }
    ensures { result ≡ get_or (writes_by begin numbers.now cells.now) i result }
{
    let version = Version {
        begin,
        cell: cells[i],
    };
    NumberedWrite {
        number: numbers[i],
        version,
    }
}

impl Writes<'_, '_> {
    /// The number of versions.
    #[tactic(auto, using(crate::proofs::Advanced::writes_many))]
    pub fn len(&self) -> usize
        ensures { result ≡ length (listed_in self.now) }
    {
        match *self {
            Writes::Listed(writes) => writes.len(),
            Writes::Begun(_, numbers, cells) => numbers.len().min(cells.len()),
        }
    }

    /// The version at an index, with the number of its key.
    #[inline(always)]
    pub fn at(&self, i: usize) -> NumberedWrite
        requires { i < length (listed_in self.now) }
        ensures { result ≡ get_or (listed_in self.now) i result }
    {
        match *self {
            Writes::Listed(writes) => listed_at(writes, i),
            Writes::Begun(begin, numbers, cells) => begun_at(begin, numbers, cells, i),
        }
    }
}
