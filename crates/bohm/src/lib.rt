//! All that a program needs, in one `use`: a log is parsed, checked and run, or a machine executes
//! it segment by segment. `CALLING.md` shows how.
#![tactic(auto)]

pub mod laws;
mod running;

pub use bohm_log::{DrawnSeed, FixedSeed, HashSeed};
pub use bohm_machine::{BatchFault, Machine, SegmentFault};
pub use bohm_procedures::{Calls, KeyHandle, Procedure, ProcedureFault};
pub use bohm_run::{Answer, Applied, RunFault, Settings, run_text};
pub use bohm_store::{History, PastFault, StoreFault};
pub use bohm_text::{TextFault, parse, parse_with_seed};
pub use bohm_txn::{CheckFault, CheckKind, Checked, Outcome, Reason, Replies, Reply, check};
pub use bohm_types::{Cell, Edition, Key, NoMemory, Value};
pub use running::run;
