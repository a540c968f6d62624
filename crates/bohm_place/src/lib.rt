//! Planning: the batches of a log, placeholders for the versions of a batch, the source of each
//! access, and the slots of each transaction. The design is that of BOHM: Faleiro and Abadi,
//! "Rethinking Serializable Multiversion Concurrency Control", VLDB 2015.
#![tactic(auto)]

mod access;
mod by_key;
mod by_number;
mod byte_sum;
mod chain;
mod cut_log;
mod cuts;
mod deal;
mod declared_set;
pub mod laws;
mod log_plan;
mod newest;
mod parallel;
mod partition;
mod placeholder;
mod places;
mod planned;
mod planning;
mod row;
mod shards;
mod single_threaded;
mod slots;
mod unplanned;
mod worker;

pub use access::{Access, Source};
pub use byte_sum::ByteSum;
pub use cut_log::CutLog;
pub use cuts::Cuts;
pub use declared_set::DeclaredSet;
pub use log_plan::plan_batches;
pub use newest::Newest;
pub use parallel::plan_by_number;
pub use partition::Partition;
pub use places::Places;
pub use planned::Plan;
pub use planning::plan;
pub use shards::Shards;
pub use single_threaded::plan_alone;
pub use slots::width;
