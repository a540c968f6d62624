//! What standard error says while a ledger opens.

use crate::options::NAME;
use crossbeam_channel::{Receiver, RecvTimeoutError, Sender, bounded};
use std::alloc::Global;
use std::sync::Wait;
use std::thread;
use std::thread::Threads;
use std::time::{Clock, Duration};

/// Says each second on standard error how long a ledger has been opening, until it is dropped.
#[derive(Drop)]
pub struct Progress {
    _ended: Sender<bool, Global>,
}

fn tell_each_second<R: Wait + Clock + Eprint>(rt: &R, ended: &Receiver<bool, Global>) {
    for seconds in 1..u64::MAX {
        match ended.recv_timeout(rt, Duration::from_secs(1)) {
            Err(RecvTimeoutError::Timeout) => {
                let _ = eprintln!(rt; "{NAME}: opening, {seconds} s");
            }
            _ => return,
        }
    }
}

impl Progress {
    /// Starts to tell. `None` where that can't be done.
    pub fn start<R: Threads + Wait + Clock + Eprint + Copy + Send + 'static>(
        rt: &R,
        alloc: Global,
    ) -> Option<Progress> {
        let Ok((ending, ended)) = bounded(alloc, 1) else {
            return None;
        };
        let theirs = *rt;
        match thread::spawn(rt, move || tell_each_second(&theirs, &ended)) {
            Ok(_) => Some(Progress { _ended: ending }),
            Err(_) => None,
        }
    }
}
