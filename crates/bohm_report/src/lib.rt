//! Reads a log or a procedure, and reports its faults to people.
#![tactic(auto)]

mod checking;
mod procedures;
mod reading;
mod refusal;

pub use procedures::procedure_reported;
pub use reading::check_reported;
