//! The machine of Corkbamboo under a ledger: it remembers what each key held at the last
//! checkpoint.
#![tactic(auto)]

mod applying;
mod checkpointed;
mod looking_back;

pub use checkpointed::Checkpointed;
