//! The versions of each key, and the past that they define.
#![tactic(auto)]

mod base;
mod call_keys;
mod declared;
mod fault;
mod held;
mod history;
pub mod laws;
mod listed_writes;
mod listing;
mod numbered;
mod numbered_write;
mod numbering;
mod older;
mod replacing;
mod share_numbers;
mod version;
mod workspace;
mod writes;

pub use fault::{PastFault, StoreFault};
pub use history::History;
pub use listed_writes::ListedWrites;
pub use workspace::Workspace;
