//! Prepares a log to be run: its windows are read in order, parsed and checked ahead of the run by
//! separate threads, and planned if several workers are to execute them.
#![tactic(auto)]

mod checked_chunk;
mod checked_window;
mod log_reader;
mod parse_task;
mod parsers;
mod parsing;
mod promise;
mod reading_state;

pub use checked_chunk::{CheckedChunk, Prepared, Sharing, counted, sharing_of};
pub use checked_window::CheckedWindow;
pub use log_reader::LogReader;
pub use parsing::Parsing;
pub use promise::ParseOf;
pub use reading_state::ReadingState;
