//! The answer of a run, or why there is none: the faults and their lines, and texts that are read
//! whole from a reader and written whole to a writer.
#![tactic(auto)]

mod bytes;
mod fault;
mod fault_line;
mod sending;

pub use bohm_types::LONGEST_TEXT;
pub use bytes::read_all;
pub use fault::RunFault;
pub use fault_line::{print_fault, write_fault};
pub use sending::{write_all, write_bytes};
