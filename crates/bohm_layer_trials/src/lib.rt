//! Tests of the layers that a run is made of, over their public calls. They cover texts, hashes
//! under many seeds, names that cleared logs keep, calls of a procedure, sure transactions, plans,
//! sweeps by several passes and threads, and histories in use. The logs, the gate and the generator
//! are shared with the tests of whole runs.
#![tactic(auto)]

#[cfg(test)]
mod boards;
#[cfg(test)]
mod calls;
mod counting_gate;
#[cfg(test)]
mod crowds;
#[cfg(test)]
mod documents;
mod draws;
#[cfg(test)]
mod hash_seeds;
#[cfg(test)]
mod histories;
#[cfg(test)]
mod kept_names;
#[cfg(test)]
mod logs;
#[cfg(test)]
mod planning;
mod shared_logs;
#[cfg(test)]
mod sweeper;
#[cfg(test)]
mod sweeps;
#[cfg(test)]
mod texts;

pub use counting_gate::CountingGate;
pub use draws::{Draws, one_of};
pub use shared_logs::{checked, counters, repeated};
