//! Passes a value that keeps a promise from one thread to another.
#![tactic(auto)]

mod ends;
mod passing;
mod rule;

pub use ends::{Giver, Taker};
pub use passing::handoff;
