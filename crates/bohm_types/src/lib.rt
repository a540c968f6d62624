//! What a document is made of: keys, values, editions and comparisons; in `specs/`, the definitions
//! of transactions, logs and documents.
#![tactic(auto)]

mod cell;
mod cmp;
mod edition;
mod items;
mod key;
mod limits;
mod memory;
mod name_cache;
mod packed_word;
mod packing;

pub use cell::{Cell, Value};
pub use cmp::Cmp;
pub use edition::Edition;
pub use items::Items;
pub use key::{Key, KeyText};
pub use limits::{
    GREATEST_LITERAL, LARGEST_BATCH, LONGEST_NAME, LONGEST_TEXT, MOST_KEYS, MOST_SHOWS, MOST_STMTS,
    MOST_TERMS, MOST_TXNS,
};
pub use memory::NoMemory;
pub use name_cache::NameCache;
pub use packed_word::PackedWord;
