//! A log cut into the parts of a run.

ghost use Rattle.std.specs.Prelude.{◌≡◌, ◌+◌, ◌++◌, ◌≤◌, length, true, IfOk, OnOk};
ghost use Rattle.std.specs.List.{list_all, sum};
ghost use Rattle.bohm_place.specs.Cuttings.{is_size};
ghost use Rattle.bohm_place.specs.Shares.{AreWellFormed};
ghost use Rattle.bohm_explain.specs.Parts.{AreCut, even, rest_of, size_for, sizes_of, ways_of};
ghost use Rattle.bohm_types.specs.Limits.{largest_batch, most_txns};

use crate::figures::Figures;
use bohm_log::LogPart;
use bohm_place::Cuts;
use bohm_read_ahead::{Sharing, sharing_of};
use bohm_settings::{LARGEST_BATCH, Settings};
use bohm_types::NoMemory;
use std::alloc::Global;

/// A part of a log: transactions that a run executes as one.
#[derive(Clone, Copy, Debug, PartialEq, Eq)]
pub struct Part {
    /// Its number, from 1.
    pub number: u32,
    /// The place in the log of its first transaction, from 1.
    pub first: u32,
    /// Whether several workers share it, or why not.
    pub sharing: Sharing,
    pub figures: Figures,
}

/// Where a log is cut into parts, and how each of them runs.
#[derive(Drop)]
pub struct Cut {
    pub cuts: Cuts,
    pub ways: Vec<Sharing>,
}

/// The most transactions of a part of a window.
fn size_for(settings: Settings, sharing: Sharing) -> u32
    ensures size { result ≡ size_for settings sharing }
    ensures some { 1 ≤ result }
    ensures few { result ≤ largest_batch }
{
    match sharing {
        Sharing::OneWorker | Sharing::NoTransactions | Sharing::ShortBodies => LARGEST_BATCH,
        Sharing::Shared => settings.batch(),
    }
}

/// Adds a last part with what is left, if anything is.
fn put_rest(sizes: &mut Vec<u32>, left: u32) -> Result<(), NoMemory>
    ensures { OnOk result (sizes.new.items ≡ sizes.old.items ++ rest_of left) }
{
    if left == 0 {
        return Ok(());
    }
    sizes.push(left)?;
    Ok(())
}

/// Adds the sizes of `count` transactions in parts of a size; the last part has what is left.
fn put_even(sizes: &mut Vec<u32>, size: u32, count: u32) -> Result<(), NoMemory>
    requires { 1 ≤ size }
    ensures { OnOk result (sizes.new.items ≡ sizes.old.items ++ even size count) }
{
    sizes.resize(sizes.len() + (count / size) as usize, size)?;
    put_rest(sizes, count % size)
}

/// Adds the parts of a window.
fn put_window(
    sizes: &mut Vec<u32>,
    ways: &mut Vec<Sharing>,
    window: &LogPart<'_>,
    settings: Settings,
) -> Result<(), NoMemory>
    requires few { length window.now ≤ most_txns }
    requires formed { AreWellFormed window.now }
    requires paired { length ways.old.items ≡ length sizes.old.items }
    ensures sizes { OnOk result
        (sizes.new.items ≡ sizes.old.items ++ sizes_of settings window.now) }
    ensures ways { OnOk result (ways.new.items ≡ ways.old.items ++ ways_of settings window.now) }
    ensures total { OnOk result
        (sum sizes.new.items ≡ sum sizes.old.items + length window.now) }
    ensures in_range { OnOk result (list_all is_size sizes.old.items ≡ true
        → list_all is_size sizes.new.items ≡ true) }
{
    let sharing = sharing_of(window, settings);
    put_even(sizes, size_for(settings, sharing), window.len() as u32)?;
    ways.resize(sizes.len(), sharing)?;
    Ok(())
}

/// The parts of a log, of which a run reads a window after another with these numbers of
/// transactions, and the remaining ones in one more.
pub fn cut_log(
    alloc: Global,
    log: &LogPart<'_>,
    counts: &[u32],
    settings: Settings,
) -> Result<Cut, NoMemory>
    requires few { length log.now ≤ most_txns }
    requires formed { AreWellFormed log.now }
    ensures cut { IfOk result (λ c. AreCut settings log.now c.cuts c.ways.items) }
    ensures total { IfOk result (λ c. sum c.cuts ≡ length log.now) }
    ensures paired { IfOk result (λ c. length c.ways.items ≡ length c.cuts) }
{
    let (mut sizes, mut ways) = (Vec::new(alloc), Vec::new(alloc));
    let mut start = 0;
    for count in counts {
        let end = log.len().min(start + *count as usize);
        put_window(&mut sizes, &mut ways, &log.between(start, end), settings)?;
        start = end;
    }
    put_window(
        &mut sizes,
        &mut ways,
        &log.between(start, log.len()),
        settings,
    )?;
    let Some(cuts) = Cuts::new(sizes) else {
        unreachable!()
    };
    Ok(Cut { cuts, ways })
}
