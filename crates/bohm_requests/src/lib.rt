//! The requests of a ledger, answered in order: entries that wait are stored in one commit.
#![tactic(auto)]

mod answering;
mod archives;
mod archiving;
mod desk;
mod fault;
mod lines;
mod log;
mod read_request;
mod recent;
mod tables;
mod taking;
mod turn;
mod waiting;

pub use archives::{Archives, NoArchives};
pub use archiving::{BatchStart, archived_at, behind_archive};
pub use desk::{DeskMachine, RequestDesk, asks_for_checkpoint};
pub use fault::DeskFault;
pub use log::LogPrinter;
pub use tables::{archive_tables, ledger_tables};
pub use turn::Turn;
