//! The columns that all transactions share.

ghost use Rattle.std.specs.Prelude.{◌≡◌, ◌≢◌, ◌<◌, ◌≤◌, ◌+◌, ◌*◌, ◌^◌, max, min, [], ◌∷◌, ◌++◌, IfOk, OnOk, OnErr};
ghost use Rattle.std.specs.Prelude.{Some, Err, true};
ghost use Rattle.bohm_log.specs.declared.fault.LogFault.TheVariants.{Full};
ghost use Rattle.bohm_log.specs.Columns.{cut_to, ends_of, entries_in, held_with};
ghost use Rattle.std.specs.Prelude.{drop, length, slice_get};
ghost use Rattle.std.specs.List.{IsDistinct};
ghost use Rattle.std.specs.Str.{bytes_eq};
ghost use Rattle.bohm_log.specs.Parts.{Begins};
ghost use Rattle.bohm_log.specs.Drafting.{parts_of};
ghost use Rattle.bohm_log.specs.Columns.{shared_of, Interns, NumbersCome, NumbersStand, Lands};
ghost use Rattle.bohm_log.specs.Columns.{NumbersEnd};
ghost use Rattle.bohm_log.specs.Interning.{with_name};
ghost use Rattle.bohm_log.specs.Columns.{SetsCome, Appends, nothing_shared};
ghost use Rattle.bohm_log.specs.Partial.{shared_seen};
ghost use Rattle.bohm_log.specs.Slices.{parts_by};

use crate::draft_columns::DraftColumns;
use crate::draft_columns::places::place_in;
use crate::fault::LogFault;
use crate::layered_names::LayeredNames;
use crate::name_hints::{NO_NUMBER, NameHints};
use crate::row::{StmtRow, TermRow};
use crate::shared_names::SharedNames;
use crate::table::{Head, Table};
use bohm_types::{Edition, Key};
use std::alloc::Global;
use std::hash::BuildHasher;

/// A cleared column keeps capacity for up to this many entries, however few it had.
const KEPT_ROOM: usize = 4096;

/// Cleared columns keep their names if there are at most this many.
const FEWEST_KEPT: usize = 1 << 14;

/// They keep more names if there are at most this many for each declared key and each handle.
const KEPT_NAMES: usize = 4;

/// The most handles that count for `KEPT_NAMES`, so that handles of ever new keys don't fill the
/// memory.
const KEPT_HANDLES: usize = 1 << 16;

/// With this many names, making a handle adds no name, and clearing keeps no more names than this.
pub(crate) const MOST_NAMED: usize = 1 << 30;

pub struct Columns<S: BuildHasher> {
    pub names: LayeredNames<S>,
    /// Where names that aren't noted among the shared ones were last found.
    pub hints: NameHints,
    /// How many handles `handle` made, including those before the last clearing. Handles of numbers
    /// that were noted aren't counted, since they add no name.
    pub handles: usize,
    pub ids: Vec<u32>,
    pub others: Vec<Key>,
    pub large: Vec<u64>,
    pub terms: Vec<TermRow>,
    pub rows: Vec<StmtRow>,
}

// Written out: a derived drop is proved anew in each function that drops such a value.
impl<S: BuildHasher + Drop> Drop for Columns<S> {
    fn drop(self) {
        let Self {
            names,
            hints,
            handles: _,
            ids,
            others,
            large,
            terms,
            rows,
        } = self;
        drop(names);
        drop(hints);
        drop(ids);
        drop(others);
        drop(large);
        drop(terms);
        drop(rows);
    }
}

/// The lengths of the columns.
#[derive(Clone, Copy)]
pub struct Ends {
    pub names: usize,
    pub ids: usize,
    pub others: usize,
    pub large: usize,
    pub terms: usize,
    pub rows: usize,
}

/// The offset after this many entries. It fails with `Full` for more than 2^32 - 1.
#[inline(always)]
pub(crate) fn offset(length: usize) -> Result<u32, LogFault>
    ensures ok { IfOk result (λ n. n ≡ length) }
    ensures full { result ≡ Err Full → 2 ^ 32 ≤ length }
{
    if length <= u32::MAX as usize {
        Ok(length as u32)
    } else {
        Err(LogFault::Full)
    }
}

/// Appends a list to a column. Returns the offsets between which the list is.
#[tactic(auto, using(crate::proofs::Widening::landed))]
pub(crate) fn add_all<T: Copy>(column: &mut Vec<T>, part: &[T]) -> Result<(u32, u32), LogFault>
    ensures begins { Begins column.old.items column.new.items }
    ensures ok { IfOk result (λ r. Lands column.new.items part.now r.0 r.1) }
    ensures longer { OnOk result
        (length column.new.items ≡ length column.old.items + length part.now) }
    ensures full { result ≡ Err Full → 2 ^ 32 ≤ length column.old.items + length part.now }
{
    let from = offset(column.len())?;
    if part.is_empty() {
        return Ok((from, from));
    }
    column.extend_from_slice(part)?;
    let to = offset(column.len())?;
    Ok((from, to))
}

impl<S: BuildHasher> Columns<S> {
    pub fn new(alloc: Global, hasher: S) -> Columns<S>
        ensures { shared_of result ≡ nothing_shared }
    {
        Columns {
            names: LayeredNames::new(alloc, hasher),
            hints: NameHints::new(alloc),
            handles: 0,
            ids: Vec::new(alloc),
            others: Vec::new(alloc),
            large: Vec::new(alloc),
            terms: Vec::new(alloc),
            rows: Vec::new(alloc),
        }
    }
}

/// Reserves capacity for this many more entries. If the allocation fails, the column grows as it is
/// filled.
pub(crate) fn make_room<T>(column: &mut Vec<T>, more: usize)
    ensures { column.new.items ≡ column.old.items }
{
    let _ = column.reserve(more);
}

impl<S: BuildHasher> Columns<S> {
    /// The columns of no transactions, which share these names.
    pub fn sharing(alloc: Global, hasher: S, shared: SharedNames<S>) -> Columns<S>
        ensures ids { (shared_of result).ids ≡ [] }
        ensures empty { entries_in (shared_of result) ≡ 0 }
        ensures names { length result.names ≤ 2 ^ 30 }
    {
        // The call's contract says that there are at most 2^30 names.
        let _ = shared.as_slice();
        Columns {
            names: LayeredNames::sharing(alloc, hasher, shared),
            hints: NameHints::new(alloc),
            handles: 0,
            ids: Vec::new(alloc),
            others: Vec::new(alloc),
            large: Vec::new(alloc),
            terms: Vec::new(alloc),
            rows: Vec::new(alloc),
        }
    }

    /// Reserves capacity for what a text of this many bytes usually holds.
    pub fn make_room(&mut self, bytes: usize)
        ensures { shared_of self.new ≡ shared_of self.old }
    {
        make_room(&mut self.ids, bytes / 24);
        make_room(&mut self.terms, bytes / 8);
        make_room(&mut self.rows, bytes / 32);
    }

    pub fn table(&self) -> Table<'_>
        ensures same { shared_seen result ≡ shared_of self.now }
        ensures apart { IsDistinct bytes_eq self.now.names }
    {
        Table {
            names: self.names.table(),
            ids: self.ids.as_slice(),
            others: self.others.as_slice(),
            large: self.large.as_slice(),
            terms: self.terms.as_slice(),
            rows: self.rows.as_slice(),
        }
    }
}

/// The most names that cleared columns keep besides the shared ones, if transactions declared this
/// many keys and this many handles were made.
fn most_kept(declared: usize, handles: usize) -> usize
    ensures { declared < 2 ^ 61 → result ≡ max 16384 (4 * (declared + min handles 65536)) }
{
    let used = declared.saturating_add(handles.min(KEPT_HANDLES));
    FEWEST_KEPT.max(used.saturating_mul(KEPT_NAMES))
}

/// Removes all entries of a column. Its capacity is kept if it is for at most four times as many,
/// or for at most `KEPT_ROOM`; otherwise it is freed.
pub(crate) fn empty<T: Copy>(column: &mut Vec<T>)
    ensures { column.new.items ≡ [] }
{
    let most = column.len().saturating_mul(4).max(KEPT_ROOM);
    column.clear();
    if column.capacity() > most {
        column.shrink_to_fit();
    }
}

/// Whether two sets have the same keys.
#[tactic(auto, using(crate::proofs::Seeking::same_sets))]
pub(crate) fn are_same(one: &[Key], other: &[Key]) -> bool
    ensures { result ≡ true → one.now ≡ other.now }
{
    one == other
}

/// Appends a copy of the column's entries from this offset on.
pub(crate) fn repeat_end(column: &mut Vec<u32>, from: usize) -> Result<(), LogFault>
    requires { from ≤ length column.old.items }
    ensures ok { OnOk result (column.new.items ≡ column.old.items ++ drop from column.old.items) }
    ensures err { OnErr result (column.new.items ≡ column.old.items) }
    ensures never_full { result ≢ Err Full }
{
    column.extend_from_within(from..)?;
    Ok(())
}

/// The number of a name, which is added if it is new, and noted for the name's hash.
#[inline(never)]
fn number_anew<S: BuildHasher + Drop>(
    names: &mut LayeredNames<S>,
    hints: &mut NameHints,
    name: &Key,
) -> Result<u32, LogFault>
    ensures names { OnOk result (names.new ≡ with_name names.old name.now) }
    ensures named { IfOk result (λ id. slice_get names.new id ≡ Some name.now) }
    ensures err { OnErr result (names.new ≡ names.old) }
    ensures full { result ≡ Err Full → length names.old ≡ 2 ^ 32 }
{
    let number = names.id(*name)?;
    hints.note(name, number);
    Ok(number)
}

/// The number of a name, which is added if it is new. The name is searched for only if its number
/// is neither `hint` nor one that is noted for the name's hash.
#[inline(always)]
#[tactic(auto, using(crate::proofs::Seeking::named_already))]
pub(crate) fn number_of<S: BuildHasher + Drop>(
    names: &mut LayeredNames<S>,
    hints: &mut NameHints,
    name: &Key,
    hint: u32,
) -> Result<u32, LogFault>
    ensures names { OnOk result (names.new ≡ with_name names.old name.now) }
    ensures named { IfOk result (λ id. slice_get names.new id ≡ Some name.now) }
    ensures err { OnErr result (names.new ≡ names.old) }
    ensures full { result ≡ Err Full → length names.old ≡ 2 ^ 32 }
{
    if hint != NO_NUMBER
        && let Some(number) = names.table().at_number(hint, name)
    {
        return Ok(number);
    }
    if let Some(number) = names.noted(name) {
        return Ok(number);
    }
    if let Some(number) = names.table().at_number(hints.noted(name), name) {
        return Ok(number);
    }
    number_anew(names, hints, name)
}

impl<S: BuildHasher> Columns<S> {
    /// The number that is noted for a name's hash. It may be another name's.
    #[inline(always)]
    pub(crate) fn noted_number(&self, name: &Key) -> u32 {
        match self.names.noted(name) {
            Some(number) => number,
            None => self.hints.noted(name),
        }
    }

    /// The lengths of the columns.
    #[inline(always)]
    pub fn ends(&self) -> Ends
        ensures { result ≡ ends_of (shared_of self.now) }
    {
        Ends {
            names: self.names.len(),
            ids: self.ids.len(),
            others: self.others.len(),
            large: self.large.len(),
            terms: self.terms.len(),
            rows: self.rows.len(),
        }
    }
}

impl<S: BuildHasher + Drop> Columns<S> {
    /// Removes the entries after these ends.
    #[inline(never)]
    pub fn cut_back(&mut self, ends: Ends)
        ensures { shared_of self.new ≡ cut_to ends (shared_of self.old) }
    {
        self.names.truncate(ends.names);
        self.ids.truncate(ends.ids);
        self.others.truncate(ends.others);
        self.large.truncate(ends.large);
        self.terms.truncate(ends.terms);
        self.rows.truncate(ends.rows);
    }

    /// Removes the transactions' entries. Shared names stay. The other names stay with their
    /// numbers, for transactions that declare them again, if there are at most 16,384 of them, or
    /// at most four for each declared key and each handle, and at most 2^30 together with the
    /// shared ones. Otherwise they are removed. A key counts each time that it was declared, and of
    /// all handles that `handle` ever made at most 65,536 count.
    pub fn clear(&mut self)
        ensures ids { (shared_of self.new).ids ≡ [] }
        ensures empty { entries_in (shared_of self.new) ≡ 0 }
        ensures names { length self.new.names ≤ 2 ^ 30 }
    {
        let most = most_kept(self.ids.len(), self.handles);
        if self.names.own_len() > most || self.names.len() > MOST_NAMED {
            self.names.clear();
        }
        empty(&mut self.ids);
        empty(&mut self.others);
        empty(&mut self.large);
        empty(&mut self.terms);
        empty(&mut self.rows);
    }

    /// Appends the number of a name, which may be `hint`.
    #[inline(always)]
    pub(crate) fn add_name(&mut self, name: &Key, hint: u32) -> Result<(), LogFault>
        ensures ok { OnOk result
            (NumbersCome (shared_of self.old) (shared_of self.new) (name.now ∷ [])) }
        ensures few { OnOk result (length self.new.names ≤ length self.old.names + 1) }
        ensures err { OnErr result (Interns (shared_of self.old) (shared_of self.new)) }
        ensures full { result ≡ Err Full → length self.old.names ≡ 2 ^ 32 }
    {
        let id = number_of(&mut self.names, &mut self.hints, name, hint)?;
        self.ids.push(id)?;
        Ok(())
    }

    /// Appends the numbers of these names.
    fn add_names(&mut self, names: &[Key]) -> Result<(), LogFault>
        ensures ok { OnOk result (NumbersCome (shared_of self.old) (shared_of self.new) names.now) }
        ensures few { OnOk result
            (length self.new.names ≤ length self.old.names + length names.now) }
        ensures err { OnErr result (Interns (shared_of self.old) (shared_of self.new)) }
        ensures full { result ≡ Err Full → 2 ^ 32 ≤ length self.old.names + length names.now }
    {
        for name in names {
            self.add_name(name, NO_NUMBER)?;
        }
        Ok(())
    }

    /// Appends the number of a name that is written. A name that is also read has its number among
    /// those of the reads, which begin at `start`: it isn't hashed again.
    fn add_write(&mut self, reads: &[Key], start: usize, name: Key) -> Result<(), LogFault>
        requires { NumbersStand (shared_of self.old) start reads.now }
        ensures ok { OnOk result
            (NumbersCome (shared_of self.old) (shared_of self.new) (name ∷ [])) }
        ensures few { OnOk result (length self.new.names ≤ length self.old.names + 1) }
        ensures err { OnErr result (Interns (shared_of self.old) (shared_of self.new)) }
        ensures full { result ≡ Err Full → length self.old.names ≡ 2 ^ 32 }
    {
        match place_in(reads, &name) {
            Some(place) => {
                let id = self.ids[start + place as usize];
                self.ids.push(id)?;
                Ok(())
            }
            None => self.add_name(&name, NO_NUMBER),
        }
    }

    /// Appends the numbers of names that are written. The numbers of the reads begin at `start`.
    fn add_writes(&mut self, reads: &[Key], start: usize, writes: &[Key]) -> Result<(), LogFault>
        requires { NumbersStand (shared_of self.old) start reads.now }
        ensures ok { OnOk result
            (NumbersCome (shared_of self.old) (shared_of self.new) writes.now) }
        ensures few { OnOk result
            (length self.new.names ≤ length self.old.names + length writes.now) }
        ensures err { OnErr result (Interns (shared_of self.old) (shared_of self.new)) }
        ensures full { result ≡ Err Full → 2 ^ 32 ≤ length self.old.names + length writes.now }
    {
        for name in writes {
            self.add_write(reads, start, *name)?;
        }
        Ok(())
    }

    /// Appends the numbers of names that are written. If these names are the reads, whose numbers
    /// are the entries from `start` to the end, those entries are repeated.
    fn add_written(&mut self, reads: &[Key], start: usize, writes: &[Key]) -> Result<(), LogFault>
        requires { NumbersEnd (shared_of self.old) start reads.now }
        ensures ok { OnOk result
            (NumbersCome (shared_of self.old) (shared_of self.new) writes.now) }
        ensures few { OnOk result
            (length self.new.names ≤ length self.old.names + length writes.now) }
        ensures err { OnErr result (Interns (shared_of self.old) (shared_of self.new)) }
        ensures full { result ≡ Err Full → 2 ^ 32 ≤ length self.old.names + length writes.now }
    {
        if are_same(reads, writes) {
            repeat_end(&mut self.ids, start)?;
            return Ok(());
        }
        self.add_writes(reads, start, writes)
    }

    /// Appends the numbers of the reads and then of the writes. The three offsets are where the
    /// reads begin, where the writes begin and where the writes end.
    #[tactic(auto, using(crate::proofs::Widening::interns_itself))]
    fn add_sets(&mut self, reads: &[Key], writes: &[Key]) -> Result<(u32, u32, u32), LogFault>
        ensures ok { IfOk result
            (λ r. SetsCome (shared_of self.old) (shared_of self.new) r.0 r.1 r.2
            reads.now writes.now) }
        ensures err { OnErr result (Interns (shared_of self.old) (shared_of self.new)) }
        ensures full { result ≡ Err Full → 2 ^ 32 ≤ length self.old.names
            + entries_in (shared_of self.old) + length reads.now + length writes.now }
    {
        let start = offset(self.ids.len())?;
        self.add_names(reads)?;
        let middle = offset(self.ids.len())?;
        self.add_written(reads, start as usize, writes)?;
        let end = offset(self.ids.len())?;
        Ok((start, middle, end))
    }

    /// Appends a transaction's parts.
    pub fn append(&mut self, edition: Edition, draft: &DraftColumns<S>) -> Result<Head, LogFault>
        ensures apart { IsDistinct bytes_eq (parts_of draft.now).others }
        ensures ok { IfOk result
            (λ h. Appends (shared_of self.old) (shared_of self.new) h edition
            (parts_of draft.now)) }
        ensures err { OnErr result (Interns (shared_of self.old) (shared_of self.new)) }
        ensures full { result ≡ Err Full
            → 2 ^ 32 ≤ held_with (shared_of self.old) (parts_of draft.now) }
    {
        let others = draft.others.as_slice();
        self.append_parts(
            edition,
            draft.reads.as_slice(),
            draft.writes.as_slice(),
            others,
            draft.large.as_slice(),
            draft.terms.as_slice(),
            draft.rows.as_slice(),
        )
    }

    /// Appends a transaction's parts, each of which is its own slice.
    #[tactic(auto, using(crate::proofs::Widening::interns_wider))]
    pub fn append_parts(
        &mut self,
        edition: Edition,
        reads: &[Key],
        writes: &[Key],
        others: &[Key],
        large: &[u64],
        terms: &[TermRow],
        rows: &[StmtRow],
    ) -> Result<Head, LogFault>
        ensures ok { IfOk result
            (λ h. Appends (shared_of self.old) (shared_of self.new) h edition
            (parts_by reads.now writes.now others.now large.now terms.now rows.now)) }
        ensures err { OnErr result (Interns (shared_of self.old) (shared_of self.new)) }
        ensures full { result ≡ Err Full → 2 ^ 32 ≤ held_with (shared_of self.old)
            (parts_by reads.now writes.now others.now large.now terms.now rows.now) }
    {
        let (ids, reads_end, writes_end) = self.add_sets(reads, writes)?;
        let (others_from, others_end) = add_all(&mut self.others, others)?;
        let (large_from, large_end) = add_all(&mut self.large, large)?;
        let (terms_from, terms_end) = add_all(&mut self.terms, terms)?;
        let (rows_from, rows_end) = add_all(&mut self.rows, rows)?;
        Ok(Head {
            edition,
            ids,
            reads: reads_end,
            writes: writes_end,
            others: others_from,
            others_end,
            large: large_from,
            large_end,
            terms: terms_from,
            terms_end,
            rows: rows_from,
            rows_end,
        })
    }
}
