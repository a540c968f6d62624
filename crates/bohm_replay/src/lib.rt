//! The entries of a ledger, run and answered in order on whatever runs one transaction.
#![tactic(auto)]

mod admitting;
mod answer_text;
mod entry_machine;
pub mod laws;
mod past;
mod reading;
mod texts;

pub use answer_text::AnswerText;
pub use entry_machine::EntryMachine;
pub use past::{NumberFault, Past};
