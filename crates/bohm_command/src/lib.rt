//! What the programs share: how they read their arguments, and how they end.
#![tactic(auto)]

mod ending;
mod fault;
mod line;
mod no_options;
mod options;
mod version;
mod with_file;

pub use ending::{NoAnswer, exit_code, tell, without_request};
pub use fault::ArgumentFault;
pub use line::{arguments_given, command_line, parse_line};
pub use no_options::{Program, no_options_given, read_no_options};
pub use options::{flag, is_given, number};
pub use version::VERSION;
pub use with_file::{command_with_file, file_given, opened};
