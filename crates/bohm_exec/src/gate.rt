//! Hooks at fixed points of a run.

/// A point of a run. Batches are counted from 1.
#[derive(Clone, Copy, Debug, PartialEq, Eq)]
pub enum Point {
    /// The plan of this batch is made.
    Planned(u32),
    /// The position with this timestamp is claimed, and its slots are still empty.
    Claimed(u32),
    /// The position with this timestamp has its outcome.
    Finished(u32),
}

/// Called at each point, by the thread that reaches it. The call returns.
pub trait Gate: Sync {
    fn at(&self, point: Point);
}

/// A gate that does nothing.
#[derive(Clone, Copy, Debug)]
pub struct OpenGate;

impl Gate for OpenGate {
    fn at(&self, _point: Point) {}
}
