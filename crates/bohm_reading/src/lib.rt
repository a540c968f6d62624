//! A text read in windows.
#![tactic(auto)]

mod cutting;
mod draining;
mod fault;
mod reading;
mod source;
mod window;

pub use fault::ReadingFault;
pub use reading::{Source, next_window, read_first, take_parsed};
pub use window::{Parsed, Window};
