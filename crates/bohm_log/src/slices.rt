//! The slices of a transaction.

use crate::name_table::NameTable;
use crate::row::{StmtRow, TermRow};
use bohm_types::{Edition, Key};

/// A transaction's slices of the columns. Its reads and writes are numbers of names.
#[derive(Clone, Copy)]
pub struct TxnSlices<'a> {
    pub edition: Edition,
    pub names: NameTable<'a>,
    pub reads: &'a [u32],
    pub writes: &'a [u32],
    pub others: &'a [Key],
    pub large: &'a [u64],
    pub terms: &'a [TermRow],
    pub rows: &'a [StmtRow],
}
