//! Logs whose text is in two parts.

use crate::shared_logs;
use bohm_txn::Checked;
use std::alloc::Global;
use std::process::Abort;

pub fn checked(rt: &impl Abort, alloc: Global, head: &str, log: &str) -> Checked {
    let mut text = String::from_str(alloc, head).expect(rt, "memory");
    text.push_str(log).expect(rt, "memory");
    shared_logs::checked(alloc, text.as_bytes()).expect(rt, "a log")
}
