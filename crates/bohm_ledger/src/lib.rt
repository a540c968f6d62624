//! A ledger: batches of entries in a store that a crash can't tear, and a machine that has run
//! them.
#![tactic(auto)]

mod balance;
mod crash;
mod create;
mod error;
mod find;
mod forget;
mod keep;
mod ledger;
mod load;
mod machine;
mod tables;

pub use crash::restart;
pub use error::{Fault, MachineFault};
pub use ledger::{Ledger, Stored};
pub use machine::{Answer, Machine, Ran};
