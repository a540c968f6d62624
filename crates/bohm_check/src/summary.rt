//! A valid log summarized in one line.

ghost use Rattle.std.specs.Prelude.{◌≡◌, ◌++◌, ℕ, List, length, count_by, IfOk, OnOk};
ghost use Rattle.bohm_types.specs.Keys.{is_among, names_of};
ghost use Rattle.bohm_txn.specs.Sure.{is_sure};
ghost use Rattle.bohm_check.specs.Distinct.{AreKeysOf, CountsKeys, is_declared};
ghost use Rattle.bohm_check.specs.SummaryLine.{edition_words, summary_line};

use crate::shown::{put_number, put_text};
use bohm_log::LogPart;
use bohm_txn::{Checked, add_keys, sort_keys, sure};
use bohm_types::{Edition, Key, NoMemory, Value};
use std::alloc::Global;

/// A log in numbers.
#[derive(Clone, Copy, Debug, PartialEq, Eq)]
pub struct Summary {
    pub edition: Edition,
    /// The keys of the starting store.
    pub keys: usize,
    pub transactions: usize,
    /// The distinct keys of the store and of all sets.
    pub distinct: usize,
    /// The transactions that commit over every store.
    pub sure: usize,
}

/// The most names that are kept with repetitions, before there are more distinct ones.
const FEW_NAMES: usize = 4096;

/// Sorts the names and removes repetitions if there are as many as this, and returns how many there
/// may be until the next time: twice as many as are left.
fn shrink(names: &mut Vec<Key>, most: usize) -> usize
    ensures { (k : List ℕ) → is_among names.new.items k ≡ is_among names.old.items k }
{
    if names.len() < most {
        return most;
    }
    sort_keys(names);
    names.len().saturating_mul(2).max(FEW_NAMES)
}

/// The keys that the transactions declare, some of them repeatedly.
fn declared_names(alloc: Global, log: &LogPart<'_>) -> Result<Vec<Key>, NoMemory>
    ensures { IfOk result
        (λ names. (k : List ℕ) → is_among names.items k ≡ is_declared log.now k) }
{
    let mut names = Vec::new(alloc);
    let mut most = FEW_NAMES;
    for index in 0..log.len() {
        let txn = log.txn(index);
        add_keys(&mut names, &txn.reads())?;
        add_keys(&mut names, &txn.writes())?;
        most = shrink(&mut names, most);
    }
    Ok(names)
}

/// Appends the keys of entries.
fn add_entry_names(names: &mut Vec<Key>, store: &[(Key, Value)]) -> Result<(), NoMemory>
    ensures { OnOk result (names.new.items ≡ names.old.items ++ names_of store.now) }
{
    for entry in store {
        names.push(entry.0)?;
    }
    Ok(())
}

/// The keys of the store and those that the transactions declare, each once, in ascending order.
fn all_names(alloc: Global, checked: &Checked) -> Result<Vec<Key>, NoMemory>
    ensures { IfOk result (λ names. AreKeysOf checked.now names.items) }
{
    let mut names = declared_names(alloc, &checked.log())?;
    add_entry_names(&mut names, checked.store())?;
    sort_keys(&mut names);
    Ok(names)
}

/// The number of sure transactions.
fn count_sure(log: &LogPart<'_>) -> usize
    ensures { result ≡ count_by is_sure log.now }
{
    let mut count: usize = 0;
    for index in 0..log.len() {
        if sure(&log.txn(index)) {
            count += 1;
        }
    }
    count
}

fn edition_words(edition: Edition) -> &'static str
    ensures { result.now ≡ edition_words edition }
{
    match edition {
        Edition::One => "log 1, ",
        Edition::Two => "log 2, ",
    }
}

impl Summary {
    /// The summary of a checked log. The time grows with the number k of its keys and declarations as
    /// k log k, the memory with its distinct keys.
    pub fn of(alloc: Global, checked: &Checked) -> Result<Summary, NoMemory>
        ensures edition { IfOk result (λ s. s.edition ≡ checked.now.edition) }
        ensures keys { IfOk result (λ s. s.keys ≡ length checked.now.store) }
        ensures transactions { IfOk result (λ s. s.transactions ≡ length checked.now.log) }
        ensures distinct { IfOk result (λ s. CountsKeys checked.now s.distinct) }
        ensures sure { IfOk result (λ s. s.sure ≡ count_by is_sure checked.now.log) }
    {
        let log = checked.log();
        let names = all_names(alloc, checked)?;
        Ok(Summary {
            edition: checked.edition(),
            keys: checked.store().len(),
            transactions: log.len(),
            distinct: names.len(),
            sure: count_sure(&log),
        })
    }

    /// The summary line, with a newline.
    pub fn print(&self, alloc: Global) -> Result<Vec<u8>, NoMemory>
        ensures { IfOk result (λ line. line.items ≡ summary_line self.now) }
    {
        let mut out = Vec::new(alloc);
        put_text(&mut out, edition_words(self.edition))?;
        put_number(&mut out, self.keys as u64)?;
        put_text(&mut out, " keys, ")?;
        put_number(&mut out, self.transactions as u64)?;
        put_text(&mut out, " transactions, ")?;
        put_number(&mut out, self.distinct as u64)?;
        put_text(&mut out, " distinct keys, ")?;
        put_number(&mut out, self.sure as u64)?;
        put_text(&mut out, " sure\n")?;
        Ok(out)
    }
}
