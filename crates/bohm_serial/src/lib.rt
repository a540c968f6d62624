//! The reference executor: a log's transactions, one after another.
#![tactic(auto)]

mod executor;
mod store;

pub use executor::{Answer, run};
pub use store::Store;
