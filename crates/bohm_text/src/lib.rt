//! The canonical text of documents and answers: printing, and reading with exact faults.
#![tactic(auto)]

mod answers;
mod conditions;
mod fault;
mod fixed_words;
pub mod laws;
mod numbers;
mod parsing;
mod printing;
mod procedures;
mod reader;
mod reply_text;
mod separators;
mod statements;
mod stops;
mod sums;
mod targets;
mod terms;
mod transactions;
mod whole_keys;
mod whole_sums;
mod windows;
mod word_ends;
mod words;

pub use answers::{
    abort_text, print_answer, print_numbered, print_replies, print_store, put_replies, put_store,
};
pub use fault::{TextFault, WindowFault};
pub use numbers::read_number;
pub use parsing::{parse, parse_with_seed, split_line};
pub use printing::{print_doc, put_body, put_entries, put_stmt};
pub use procedures::{ParamPlace, ProcedureReader, parse_procedure};
pub use reply_text::ReplyText;
pub use windows::{Chunk, FirstWindow, parse_first_window, parse_window};
pub use words::Words;
