//! Transactions: the check of a document, and the meaning of a body.
#![tactic(auto)]

mod bound;
mod checked;
mod environment;
mod evaluation;
mod fault;
mod first_fault;
mod incremental;
mod key_lists;
pub mod laws;
mod numbers;
mod outcome;
mod plain_rows;
mod replies;
mod reply_sink;
mod room;
mod rules;
mod scratch;
mod showing;
mod sureness;
mod work;

pub use checked::{Checked, check};
pub use evaluation::{eval, eval_in_place};
pub use fault::{CheckFault, CheckKind};
pub use first_fault::{are_rising, first_in_txn, is_large, is_store_rising};
pub use incremental::{check_chunk, check_end, check_more, check_store};
pub use key_lists::{add_keys, sort_keys};
pub use numbers::{SHORT, compares, number_in, number_or_least, signed};
pub use outcome::{Outcome, Reason, Reply};
pub use replies::{Replies, ReplyView};
pub use reply_sink::ReplySink;
pub use room::Room;
pub use rules::is_long;
pub use scratch::Scratch;
pub use showing::shows;
pub use sureness::sure;
pub use work::need;
