//! A log whose transactions share a few columns. Names have numbers; terms and statements have a
//! fixed size. Views show each transaction as a `Txn` of the definitions.
#![tactic(auto)]

mod call_columns;
mod call_places;
mod calling;
mod columns;
mod declared;
mod doc;
mod draft;
mod draft_columns;
mod earlier;
mod fault;
mod hash_seed;
mod indexed;
mod key_handle;
mod keys;
mod layered_names;
mod literal;
mod log;
mod name_hints;
mod name_table;
mod names;
mod part;
mod placed_body;
mod row;
mod shared_names;
mod slices;
mod soundness;
mod stmt;
mod sum;
mod table;
mod template;
mod view;

pub use call_places::CallPlaces;
pub use declared::DeclaredKeys;
pub use doc::Doc;
pub use draft::Draft;
pub use fault::{CloseFault, LogFault, SumFault};
pub use hash_seed::{DrawnSeed, FixedSeed, HashSeed};
pub use indexed::IndexedTxn;
pub use key_handle::KeyHandle;
pub use keys::Keys;
pub use layered_names::LayeredNames;
pub use literal::Literal;
pub use log::Log;
pub use name_table::NameTable;
pub use names::Names;
pub use part::LogPart;
pub use row::{Action, AtomKind, StmtRow, TermRow};
pub use shared_names::SharedNames;
pub use stmt::{CondView, StmtParts, StmtView};
pub use sum::{AtomParts, SumView, TermParts};
pub use template::Template;
pub use view::TxnView;
