//! Lists the keys that have a value.

ghost use Rattle.std.specs.Prelude.{◌≡◌, ◌++◌, ◌∷◌, ◌<◌, ◌≤◌, ◌==◌, ℕ, [], IfOk, OnOk, length};
ghost use Rattle.std.specs.Prelude.{if◌then◌else◌};
ghost use Rattle.bohm_types.specs.declared.cell.Cell.TheVariants as cells;
ghost use Rattle.bohm_log.specs.Layers.{all_names};
ghost use Rattle.bohm_store.specs.Chains.{cell_entry, timeline_entries_at};
ghost use Rattle.bohm_store.specs.Versions.{cell_at};
ghost use Rattle.bohm_store.specs.Held.{held_at, held_versions};
ghost use Rattle.bohm_store.specs.Numbered.{EndsRise, filled, first_after, named, version_of};

use crate::held::{cell_then, count_of, held_from};
use crate::older::{Older, OlderVersions};
use bohm_hints::Held;
use bohm_log::NameTable;
use bohm_types::{Cell, Key, NoMemory, Value};
use std::alloc::Global;

// Replaces the newest version of a key with an older one, if the number of the key is in bounds.
fn put_back(newest: &mut [Held], one: Older)
    ensures { (n : ℕ) → n < length newest.old → held_at newest.new n
        ≡ (if (one.number == n) then version_of one ∷ [] else held_at newest.old n) }
{
    let place = one.number as usize;
    let held = held_from(one.begin, one.cell);
    if place < newest.len() {
        newest[place] = held;
    }
}

/// Replaces the newest versions of keys with the newest ones at a timestamp. The time grows with
/// the number of versions that ended above the timestamp.
pub fn rewind(newest: &mut [Held], older: &OlderVersions, ts: u32)
    requires { (top : ℕ) × EndsRise top older.now.items }
    ensures { (n : ℕ) → n < length newest.old
        → held_at newest.new n ≡ first_after ts older.now.items n (held_at newest.old n) }
{
    let mut i = older.len();
    while i > 0 {
        i -= 1;
        let one = older.at(i);
        if one.end <= ts {
            return;
        }
        put_back(newest, one);
    }
}

// Appends a key with its value at a timestamp, if it has one.
fn list_one(out: &mut Vec<(Key, Value)>, key: &Key, held: Held, ts: u32) -> Result<(), NoMemory>
    ensures { OnOk result (out.new.items ≡ out.old.items
        ++ cell_entry key.now (cell_at ts (held_versions held) cells.Absent) []) }
{
    if let Cell::Present(value) = cell_then(held, ts) {
        out.push((*key, value))?;
    }
    Ok(())
}

/// The keys that have a value at a timestamp, with their values, in the order of their numbers.
pub fn present(
    alloc: Global,
    newest: &[Held],
    names: NameTable<'_>,
    ts: u32,
) -> Result<Vec<(Key, Value)>, NoMemory>
    requires { length (all_names names) ≤ length newest.now }
    ensures { IfOk result (λ v. v.items
        ≡ timeline_entries_at ts (named (held_at newest.now) 0 (all_names names.entry))) }
{
    let mut out = Vec::with_capacity(alloc, names.len())?;
    for i in 0..names.len() {
        list_one(&mut out, names.name(i), newest[i], ts)?;
    }
    Ok(out)
}

/// The keys that have a value at a timestamp, as `present` lists them, with older versions known
/// too.
pub fn present_at(
    alloc: Global,
    newest: &[Held],
    older: &OlderVersions,
    names: NameTable<'_>,
    ts: u32,
) -> Result<Vec<(Key, Value)>, NoMemory>
    requires long { length (all_names names) ≤ length newest.now }
    requires climbs { (top : ℕ) × EndsRise top older.now.items }
    ensures { IfOk result (λ v. v.items ≡ timeline_entries_at ts
        (named (λ n. first_after ts older.now.items n (held_at newest.now n)) 0
        (all_names names.entry))) }
{
    let mut then = Vec::with_capacity(alloc, newest.len())?;
    then.extend_from_slice(newest)?;
    rewind(then.as_mut_slice(), older, ts);
    let list = present(alloc, &then, names, ts)?;
    Ok(list)
}

/// The number of keys that have a version.
pub fn count_held(newest: &[Held]) -> usize
    ensures { result ≡ filled newest.now }
{
    let mut count = 0usize;
    for i in 0..newest.len() {
        count += count_of(newest[i]);
    }
    count
}
