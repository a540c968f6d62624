//! The shared words of a batch, on which any number of threads step, and what each thread may
//! know. The design is that of BOHM: Faleiro and Abadi, "Rethinking Serializable Multiversion
//! Concurrency Control", VLDB 2015.
#![tactic(auto)]

mod base;
mod batch;
mod board;
mod closed;
mod columns;
mod encoding;
mod knowledge;
pub mod laws;
mod pass;
mod slot;
mod status;
mod transactions;

pub use batch::Batch;
pub use board::Board;
pub use closed::Closed;
pub use knowledge::{RightSlot, Rights, View};
pub use pass::Pass;
pub use slot::Slot;
pub use status::{Claimed, Status};
