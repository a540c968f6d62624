//! The log of a ledger's transactions, on standard output.

use crate::failure::Failure;
use crate::serving::write_answers;
use bohm_log::DrawnSeed;
use bohm_requests::{Archives, LogPrinter, RequestDesk};
use sqlite_trees::store::Store;
use std::alloc::Global;
use std::io::Write;

/// Prints the log of the transactions from one to another, or to the last one.
pub fn print_log<S: Store + Drop, A: Archives + Drop, O: Write>(
    alloc: Global,
    seed: DrawnSeed,
    desk: &mut RequestDesk<S>,
    mut archives: A,
    output: &mut O,
    from: u64,
    to: Option<u64>,
) -> Result<(), Failure> {
    let last = to.unwrap_or(desk.top());
    let Some(mut printer) = LogPrinter::new(alloc, seed, desk, from, last)? else {
        return Err(Failure::Future);
    };
    let mut out = Vec::new(alloc);
    for _ in 0..u64::MAX {
        if !printer.put_more(desk, &mut archives, &mut out)? {
            break;
        }
        write_answers(output, &mut out)?;
    }
    Ok(())
}
