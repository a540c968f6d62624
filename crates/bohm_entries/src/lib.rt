//! What an entry of a ledger is: its text, its id, its meaning, and why it is refused.
#![tactic(auto)]

mod arguments;
mod batch;
mod definition;
mod definitions;
mod first_line;
mod ids;
mod refusal;
mod transaction;

pub use arguments::{Arguments, read_arguments};
pub use batch::{count_transactions, has_no_definition, is_definition, split_entry};
pub use definition::read_definition;
pub use definitions::Definitions;
pub use first_line::{FirstLine, Kind, read_first_line};
pub use ids::{is_id, is_word};
pub use refusal::{EntryFault, Refusal};
pub use transaction::read_transaction;
