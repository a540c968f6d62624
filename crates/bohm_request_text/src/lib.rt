//! The text of a ledger's requests, and of what they are answered.
#![tactic(auto)]

mod lines;
mod request;

pub use lines::{put_answer, refusal_line};
pub use request::split_request;
