//! Superseded versions, in a queue.

ghost use Rattle.std.specs.Prelude.{◌≡◌, ◌≢◌, ◌+◌, ◌<◌, ◌≤◌, ◌==◌, ◌++◌};
ghost use Rattle.std.specs.Prelude.{◌∷◌, [], ℕ, List, All, length, true, false};
ghost use Rattle.std.specs.Prelude.{if◌then◌else◌, get_or, MatchOption, OnErr, OnOk};
ghost use Rattle.bohm_store.specs.Writes.{AreBelow, ClimbTo, listed_in, versions_by};
ghost use Rattle.bohm_types.specs.declared.cell.Cell.TheVariants as cells;
ghost use Rattle.bohm_store.specs.declared.version.Version.{Version};
ghost use Rattle.bohm_store.specs.declared.older.Older.{Older};
ghost use Rattle.bohm_store.specs.Versions.{cell_at, kept_versions};
ghost use Rattle.bohm_store.specs.Chains.{later_begins};
ghost use Rattle.bohm_store.specs.Held.{held_at, held_versions};
ghost use Rattle.bohm_store.specs.Numbered.{IsEndedBy, EndsRise, IsLinked, IsNotDue, ended_by};
ghost use Rattle.bohm_store.specs.Numbered.{ends_of, first_after, older_of, version_of};

use crate::held::{cell_then, held_from, version_of};
use crate::numbered_write::NumberedWrite;
use crate::version::Version;
use crate::writes::Writes;
use bohm_hints::Held;
use bohm_types::{Cell, NoMemory};
use std::alloc::Global;
use std::collections::VecDeque;
use std::marker::Model;

/// A version of the key with this number that a later one superseded. Its end is the begin of the
/// later one. It takes 32 bytes.
#[derive(Clone, Copy, Debug)]
pub struct Older {
    pub number: u32,
    pub end: u32,
    pub begin: u32,
    // At least this many versions directly before it in the queue are of other keys.
    others: u32,
    pub cell: Cell,
}

const _: () = prove!(std::mem::size_of::<Older>() == 32);

impl Older {
    /// The version.
    pub fn version(self) -> Version
        ensures { result ≡ version_of self }
    {
        Version {
            begin: self.begin,
            cell: self.cell,
        }
    }
}

/// Versions that aren't the newest of their keys, in the order of their ends, and where the latest
/// one of each key is among them.
#[derive(Drop)]
pub struct OlderVersions {
    queue: VecDeque<Older>,
    // The number of versions that have left the queue at its front, at most `u64::MAX`.
    gone: u64,
    // By the number of a key: the sum of `gone` and the queue's length just after a version of the
    // key was last pushed, or 0 if none ever was. `u64::MAX` carries no information.
    latest: Vec<u64>,
}

impl Model for OlderVersions {
    ghost use Rattle.std.specs.Prelude.{◌-◌, length};
    ghost use Rattle.std.specs.VecDeque.{deque_len, deque_capacity};
    ghost use Rattle.bohm_store.specs.Places.{IsPlaced, OlderList};

    ghost Value = { OlderList };

    ghost view = { λ o. record {
      items = o.queue.items;
      room = deque_capacity o.queue - deque_len o.queue;
      places = length o.latest.items;
    } };

    ghost invariant = { λ o. IsPlaced o.gone o.latest.items o.queue.items };
}

impl OlderVersions {
    /// An empty queue. It allocates nothing.
    pub fn new(alloc: Global) -> OlderVersions
        ensures items { result.items ≡ [] }
    {
        OlderVersions {
            queue: VecDeque::new(alloc),
            gone: 0,
            latest: Vec::new(alloc),
        }
    }

    /// The number of versions.
    pub fn len(&self) -> usize
        ensures { result ≡ length self.now.items }
    {
        self.queue.len()
    }

    /// The version at an index. The versions directly before it, as many as its `others`, are of
    /// other keys.
    pub fn at(&self, place: usize) -> Older
        requires { place < length self.now.items }
        ensures item { result ≡ get_or self.now.items place result }
        ensures others { (i : ℕ) (d : Older) → i < place → place ≤ i + result.others
            → (get_or self.now.items i d).number ≢ result.number }
    {
        self.queue[place]
    }

    // An index from which on there is no version of the key with this number.
    fn latest(&self, number: u32) -> usize
        ensures inside { result ≤ length self.now.items }
        ensures none { (i : ℕ) (d : Older) → result ≤ i → i < length self.now.items
            → (get_or self.now.items i d).number ≢ number }
    {
        let count = match self.latest.get(number as usize) {
            Some(count) => *count,
            None => 0,
        };
        let len = self.queue.len();
        if count == u64::MAX {
            return len;
        }
        len.min(count.saturating_sub(self.gone) as usize)
    }

    /// Removes all versions.
    pub fn clear(&mut self)
        ensures items { self.new.items ≡ [] }
    {
        self.gone = self.gone.saturating_add(self.queue.len() as u64);
        self.queue.clear();
    }

    // Makes room for `more` versions. A queue without that room grows by at least a quarter of its
    // length instead of doubling, because it may be most of a machine's memory.
    fn reserve_queue(&mut self, more: usize) -> Result<(), NoMemory>
        ensures items { self.new.items ≡ self.old.items }
        ensures room { OnOk result (more ≤ self.new.room) }
        ensures places { self.new.places ≡ self.old.places }
    {
        if more <= self.queue.capacity() - self.queue.len() {
            return Ok(());
        }
        if self
            .queue
            .reserve_exact(more.max(self.queue.len() / 4))
            .is_err()
        {
            self.queue.reserve_exact(more)?;
        }
        Ok(())
    }

    // Makes room for `more` versions, and for the counts of the keys with numbers below `keys`.
    fn reserve(&mut self, keys: usize, more: usize) -> Result<(), NoMemory>
        ensures items { self.new.items ≡ self.old.items }
        ensures room { OnOk result (more ≤ self.new.room) }
        ensures places { OnOk result (keys ≤ self.new.places) }
    {
        self.reserve_queue(more)?;
        if self.latest.len() < keys {
            self.latest.resize(keys, 0)?;
        }
        Ok(())
    }

    // Appends a version of the key with this number that ended at `end`. There is room for it, and
    // for the count of its key.
    fn push(&mut self, number: u32, end: u32, version: Version)
        requires room { 0 < self.old.room }
        requires place { number < self.old.places }
        ensures items { (o : Older) × (self.new.items ≡ self.old.items ++ o ∷ [])
            × (o.number ≡ number) × (o.end ≡ end) × (version_of o ≡ version) }
        ensures room { self.new.room + 1 ≡ self.old.room }
        ensures places { self.new.places ≡ self.old.places }
    {
        let before = self.gone.saturating_add(self.queue.len() as u64);
        let others = before.saturating_sub(self.latest[number as usize]);
        self.latest[number as usize] = before.saturating_add(1);
        self.queue.push_back_reserved(Older {
            number,
            end,
            begin: version.begin,
            others: others.min(u32::MAX as u64) as u32,
            cell: version.cell,
        });
    }

    // Whether all versions ended at or below a timestamp: they did if the last one did.
    fn are_due(&self, floor: u32) -> bool
        ensures due { result ≡ true → IsEndedBy floor self.now.items }
        ensures others { result ≡ false → ¬ IsEndedBy floor self.now.items }
    {
        match self.queue.back() {
            Some(last) => last.end <= floor,
            None => true,
        }
    }

    // Removes and returns the last version, if it ended above a timestamp.
    fn take_ended_after(&mut self, ts: u32) -> Option<Older>
        ensures { MatchOption result
            ((self.new.items ≡ self.old.items) × IsEndedBy ts self.old.items)
            (λ o. (self.old.items ≡ self.new.items ++ o ∷ []) × (ts < o.end)) }
    {
        let last = *self.queue.back()?;
        if last.end <= ts {
            return None;
        }
        self.queue.pop_back()
    }

    // Removes and returns the first version, if it ended at or below the floor.
    fn take_due(&mut self, floor: u32) -> Option<Older>
        ensures { MatchOption result
            ((self.new.items ≡ self.old.items) × IsNotDue floor self.old.items)
            (λ o. (self.old.items ≡ o ∷ self.new.items) × (o.end ≤ floor)) }
    {
        let first = *self.queue.front()?;
        if floor < first.end {
            return None;
        }
        let taken = self.queue.pop_front()?;
        self.gone = self.gone.saturating_add(1);
        Some(taken)
    }
}

/// The cell that the key with this number had at a timestamp, given its newest version. The time
/// grows with the number of the key's versions that ended above the timestamp, and, until the key
/// is next written after versions were taken back, with the number of other keys' versions.
pub fn cell_before(older: &OlderVersions, newest: Held, number: u32, ts: u32) -> Cell
    requires { (top : ℕ) × EndsRise top older.now.items }
    ensures { result ≡ cell_at ts
        (first_after ts older.now.items number (held_versions newest)) cells.Absent }
{
    let mut cell = cell_then(newest, ts);
    let mut i = older.latest(number);
    while i > 0 {
        i -= 1;
        let one = older.at(i);
        if one.end <= ts {
            return cell;
        }
        if one.number == number {
            i = i.saturating_sub(one.others as usize);
            let version = one.version();
            cell = version.cell_or(ts, Cell::Absent);
        }
    }
    cell
}

/// Removes the versions that ended at or below the floor. The time grows with their number; it is
/// constant if all are removed.
pub fn trim(older: &mut OlderVersions, floor: u32)
    ensures versions { (n top : ℕ) (held : List Version) → EndsRise top older.old.items
        → IsLinked older.old.items n held
        → older_of older.new.items n ++ held
        ≡ kept_versions floor (older_of older.old.items n ++ held) }
    ensures linked { (n : ℕ) (held : List Version) → IsLinked older.old.items n held
        → IsLinked older.new.items n held }
    ensures climbs { (top : ℕ) → EndsRise top older.old.items → EndsRise top older.new.items }
    ensures due { (top : ℕ) → EndsRise top older.old.items
        → All (λ o. floor < o.end) older.new.items }
{
    if older.are_due(floor) {
        older.clear();
        return;
    }
    while let Some(_) = older.take_due(floor) {}
}

/// Removes the versions that ended above a timestamp. The time grows with their number.
pub fn cut_off(older: &mut OlderVersions, ts: u32)
    ensures { (top : ℕ) → EndsRise top older.old.items
        → older.new.items ≡ ended_by ts older.old.items }
{
    while let Some(_) = older.take_ended_after(ts) {}
}

/// Replaces the newest version of a key, which is kept as an older version. There is room for it.
pub fn displace(newest: &mut [Held], older: &mut OlderVersions, write: NumberedWrite)
    requires number { write.number < length newest.old }
    requires places { length newest.old ≤ older.old.places }
    requires room { 0 < older.old.room }
    ensures versions { (n : ℕ) → IsLinked older.old.items n (held_at newest.old n)
        → older_of older.new.items n ++ held_at newest.new n
        ≡ (older_of older.old.items n ++ held_at newest.old n)
        ++ (if (write.number == n) then write.version ∷ [] else []) }
    ensures linked { (n : ℕ) → IsLinked older.old.items n (held_at newest.old n)
        → IsLinked older.new.items n (held_at newest.new n) }
    ensures climbs { (top : ℕ) → EndsRise top older.old.items → top ≤ write.version.begin
        → EndsRise write.version.begin older.new.items }
    ensures due { (floor : ℕ) → All (λ o. floor < o.end) older.old.items
        → floor < write.version.begin → All (λ o. floor < o.end) older.new.items }
    ensures room { older.old.room ≤ older.new.room + 1 }
    ensures places { older.new.places ≡ older.old.places }
{
    let number = write.number;
    let begin = write.version.begin;
    if let Some(version) = version_of(newest[number as usize]) {
        older.push(number, begin, version);
    }
    newest[number as usize] = held_from(begin, write.version.cell);
}

// Replaces the newest versions of keys with these, one after another. There is room for the
// versions that they displace.
fn displace_all(newest: &mut [Held], older: &mut OlderVersions, writes: Writes<'_, '_>)
    requires numbers { AreBelow (length newest.old) (listed_in writes) }
    requires places { length newest.old ≤ older.old.places }
    requires room { length (listed_in writes) ≤ older.old.room }
    ensures versions { (n : ℕ) → IsLinked older.old.items n (held_at newest.old n)
        → older_of older.new.items n ++ held_at newest.new n
        ≡ (older_of older.old.items n ++ held_at newest.old n) ++ versions_by (listed_in writes.entry) n }
    ensures linked { (n : ℕ) → IsLinked older.old.items n (held_at newest.old n)
        → IsLinked older.new.items n (held_at newest.new n) }
    ensures climbs { (n top : ℕ) → EndsRise n older.old.items → ClimbTo n top (listed_in writes.entry)
        → EndsRise top older.new.items }
    ensures due { (floor n top : ℕ) → EndsRise n older.old.items → ClimbTo n top (listed_in writes.entry)
        → All (λ o. floor < o.end) older.old.items → floor < n
        → All (λ o. floor < o.end) older.new.items }
{
    for i in 0..writes.len() {
        displace(newest, older, writes.at(i));
    }
}

/// Adds these versions. An error changes nothing.
pub fn add(
    newest: &mut [Held],
    older: &mut OlderVersions,
    writes: Writes<'_, '_>,
) -> Result<(), NoMemory>
    requires numbers { AreBelow (length newest.old) (listed_in writes) }
    ensures err { OnErr result
        ((newest.new ≡ newest.old) × (older.new.items ≡ older.old.items)) }
    ensures versions { OnOk result
        ((n : ℕ) → IsLinked older.old.items n (held_at newest.old n)
        → older_of older.new.items n ++ held_at newest.new n
        ≡ (older_of older.old.items n ++ held_at newest.old n) ++ versions_by (listed_in writes.entry) n) }
    ensures linked { OnOk result
        ((n : ℕ) → IsLinked older.old.items n (held_at newest.old n)
        → IsLinked older.new.items n (held_at newest.new n)) }
    ensures climbs { OnOk result
        ((n top : ℕ) → EndsRise n older.old.items → ClimbTo n top (listed_in writes.entry)
        → EndsRise top older.new.items) }
    ensures due { OnOk result
        ((floor n top : ℕ) → EndsRise n older.old.items → ClimbTo n top (listed_in writes.entry)
        → All (λ o. floor < o.end) older.old.items → floor < n
        → All (λ o. floor < o.end) older.new.items) }
{
    older.reserve(newest.len(), writes.len())?;
    displace_all(newest, older, writes);
    Ok(())
}
