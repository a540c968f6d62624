//! The exact text of a loosely written log or procedure. Such a text may have comments, free spacing,
//! declared sets and a store in any order, and sets with repeated keys or left out.
#![tactic(auto)]

mod body_keys;
mod bytes;
mod comments;
mod doubles;
mod fault;
mod key_set;
pub mod laws;
mod line;
mod plain;
mod procedure;
mod settled;
mod store;
mod tidying;

pub use comments::with_comments;
pub use fault::{Double, TidyFault};
pub use plain::NumberedLines;
pub use procedure::{is_loose_procedure, numbered_lines, settled_procedure, tidy_procedure};
pub use tidying::tidy;
