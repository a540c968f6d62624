//! Gives the keys of listed writes their numbers.

ghost use Rattle.std.specs.Prelude.{◌≡◌, ◌+◌, ◌<◌, ◌≤◌, ◌++◌, length, map, take, IfOk, OnOk};
ghost use Rattle.bohm_log.specs.Parts.{Begins};
ghost use Rattle.bohm_board.specs.declared.batch.Batch.{Batch};
ghost use Rattle.bohm_store.specs.Writes.{AreBelow, AreNumbersOf, AreShares, AreWritesOf};
ghost use Rattle.bohm_store.specs.Writes.{named_write, names_with, number_by, with_number};

use crate::listed_writes::{FreshKey, ListedWrites};
use crate::numbered_write::NumberedWrite;
use bohm_hints::IndexHints;
use bohm_log::{HashSeed, LayeredNames};
use bohm_types::NoMemory;
use std::alloc::Global;

/// The numbers of keys, which get one if they have none. The hints note them.
fn number_fresh(
    alloc: Global,
    names: &mut LayeredNames<HashSeed>,
    hints: &mut IndexHints,
    fresh: &[FreshKey],
) -> Result<Vec<u32>, NoMemory>
    ensures longer { Begins names.old names.new }
    ensures numbers { IfOk result
        (λ v. AreNumbersOf names.new v.items (map (λ f. f.key) fresh.now)) }
{
    let mut numbers = Vec::with_capacity(alloc, fresh.len())?;
    for one in fresh {
        match names.id(one.key) {
            Ok(number) => {
                hints.note(one.place, number);
                numbers.push(number)?;
            }
            Err(_) => return Err(NoMemory),
        }
    }
    Ok(numbers)
}

/// The number of a key that was counted as if it followed `known` names: one of these numbers.
fn renumbered(number: u32, known: usize, numbers: &[u32]) -> u32
    requires { number < known + length numbers.now }
    ensures { result ≡ number_by known numbers.now number }
{
    if (number as usize) < known {
        number
    } else {
        numbers[number as usize - known]
    }
}

/// Appends the writes of a share, whose fresh keys have these numbers.
fn append_renumbered(
    out: &mut Vec<NumberedWrite>,
    share: &ListedWrites,
    known: usize,
    numbers: &[u32],
) -> Result<(), NoMemory>
    requires { AreBelow (known + length numbers.now) share.now.writes.items }
    ensures { OnOk result (out.new.items ≡ out.old.items
        ++ map (with_number known numbers.now) share.now.writes.items) }
{
    for write in &share.writes {
        out.push(NumberedWrite {
            number: renumbered(write.number, known, numbers),
            version: write.version,
        })?;
    }
    Ok(())
}

/// Appends the writes of a share that was listed when there were `known` names. A key without a
/// number gets one.
fn append_share(
    alloc: Global,
    names: &mut LayeredNames<HashSeed>,
    hints: &mut IndexHints,
    out: &mut Vec<NumberedWrite>,
    share: &ListedWrites,
    known: usize,
) -> Result<(), NoMemory>
    requires known { known ≤ length names.old }
    requires share { AreBelow (length (names_with (take known names.old) share.now.fresh.items))
        share.now.writes.items }
    requires below { AreBelow (length names.old) out.old.items }
    ensures longer { Begins names.old names.new }
    ensures below { OnOk result (AreBelow (length names.new) out.new.items) }
    ensures listed { OnOk result (map (named_write names.new) out.new.items
        ≡ map (named_write names.old) out.old.items
        ++ map (named_write (names_with (take known names.old) share.now.fresh.items))
        share.now.writes.items) }
{
    if share.fresh.is_empty() {
        out.extend_from_slice(&share.writes)?;
        return Ok(());
    }
    let numbers = number_fresh(alloc, names, hints, &share.fresh)?;
    append_renumbered(out, share, known, &numbers)?;
    Ok(())
}

/// The writes of the shares of a batch, one after another, which were listed with these names. A
/// key without a number gets one. The time grows with the number of the writes, mostly for copying
/// them.
pub fn gather_shares(
    alloc: Global,
    names: &mut LayeredNames<HashSeed>,
    hints: &mut IndexHints,
    shares: &[ListedWrites],
) -> Result<Vec<NumberedWrite>, NoMemory>
    requires { (b : Batch) × AreShares names.old b shares.now }
    ensures longer { Begins names.old names.new }
    ensures writes { IfOk result (λ v. (b : Batch) → AreShares names.old b shares.now
        → AreWritesOf names.new b v.items) }
{
    let known = names.len();
    let mut out = Vec::new(alloc);
    for share in shares {
        append_share(alloc, names, hints, &mut out, share, known)?;
    }
    Ok(out)
}
