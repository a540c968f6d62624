//! Reports a log's faults to people: each fault's line, where a bad line goes wrong, and what to
//! write instead.
#![tactic(auto)]

mod cursor;
mod finding;
mod grammar;
mod heads;
mod lines;
mod locals;
mod loose_faults;
mod marking;
mod mending;
mod mistakes;
mod names;
mod page;
mod parameters;
mod procedure_report;
mod report;
mod said;
mod scope;
mod sets;
mod shown;
mod spelling;
mod statements;
mod summary;
mod terms;
mod text_faults;
mod told;
mod walk;

pub use finding::faults;
pub use loose_faults::{LooseText, put_double, put_loose_faults};
pub use page::Page;
pub use procedure_report::{
    ProcedureSummary, check_loose_procedure, check_procedure, is_procedure, put_notes,
};
pub use report::put_faults;
pub use summary::Summary;
pub use text_faults::put_text_fault;
pub use told::{MOST_TOLD, Told};
