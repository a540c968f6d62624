//! The executor as a C library: `include/bohm.h` declares the exports.
#![tactic(auto)]

pub mod agreeing;
mod answer;
mod call_exports;
mod call_list;
mod calling;
mod counts;
mod entries;
mod exports;
mod handing;
mod handle;
mod holding;
mod kept;
mod key_exports;
mod key_fault;
mod key_names;
pub mod laws;
mod list_exports;
mod prepared;
mod procedure_exports;
mod raw_box;
mod reading;
mod row_exports;
mod rows;
mod seeds;
mod session;
mod share_exports;
mod shared_session;
mod single_calls;
mod single_exports;
mod status;
mod store_exports;
mod store_rows;

pub use call_exports::{bohm_push, bohm_run_calls};
pub use counts::BohmCounts;
pub use entries::BohmEntry;
pub use exports::{
    bohm_answer, bohm_apply, bohm_close, bohm_counts, bohm_digest, bohm_open, bohm_replies,
    bohm_store_at, bohm_timestamps, bohm_trim, bohm_value_at,
};
pub use handle::BohmHandle;
pub use key_exports::{bohm_key_handle, bohm_push_named};
pub use list_exports::{
    bohm_calls_text, bohm_clear_calls, bohm_open_calls, bohm_open_calls_for, bohm_takes,
};
pub use procedure_exports::{bohm_prepare, bohm_prepare_report, bohm_statement_text};
pub use row_exports::{bohm_apply_held, bohm_rows, bohm_run_calls_held};
pub use rows::BohmReply;
pub use share_exports::{bohm_finish_calls, bohm_open_worker, bohm_share_calls, bohm_work};
pub use single_exports::{bohm_call, bohm_call_named, bohm_fits, bohm_machine_key};
pub use store_exports::{bohm_compact, bohm_open_rows, bohm_store_rows};
