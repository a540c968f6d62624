//! A gate that counts the points at which it is called.

use bohm_exec::{Gate, Point};
use std::sync::atomic::{AtomicU64, Ordering};

/// Counts the claims and the finished positions.
#[derive(Drop)]
pub struct CountingGate {
    claimed: AtomicU64,
    finished: AtomicU64,
}

impl CountingGate {
    pub fn new() -> CountingGate {
        CountingGate {
            claimed: AtomicU64::new(0),
            finished: AtomicU64::new(0),
        }
    }

    /// How many positions were claimed, and how many were finished.
    pub fn counts(&self) -> (u64, u64) {
        (
            self.claimed.load(Ordering::SeqCst),
            self.finished.load(Ordering::SeqCst),
        )
    }
}

impl Gate for CountingGate {
    fn at(&self, point: Point) {
        match point {
            Point::Planned(_) => {}
            Point::Claimed(_) => {
                self.claimed.fetch_add(1, Ordering::SeqCst);
            }
            Point::Finished(_) => {
                self.finished.fetch_add(1, Ordering::SeqCst);
            }
        }
    }
}
