//! A log's columns as slices.

ghost use Rattle.std.specs.Prelude.{◌≡◌};
ghost use Rattle.bohm_log.specs.Columns.{txn_at, HeadIn, AllNamed};
ghost use Rattle.bohm_log.specs.Layers.{all_names};
ghost use Rattle.bohm_log.specs.Partial.{shared_seen};

use crate::name_table::NameTable;
use crate::row::{StmtRow, TermRow};
use crate::slices::TxnSlices;
use crate::view::TxnView;
use bohm_types::{Edition, Key};

/// The columns that all transactions of a log share.
#[derive(Clone, Copy)]
pub struct Table<'a> {
    pub names: NameTable<'a>,
    pub ids: &'a [u32],
    pub others: &'a [Key],
    pub large: &'a [u64],
    pub terms: &'a [TermRow],
    pub rows: &'a [StmtRow],
}

/// Where a transaction's parts are in the columns. Its reads end where its writes begin.
#[derive(Clone, Copy)]
pub struct Head {
    pub edition: Edition,
    pub ids: u32,
    pub reads: u32,
    pub writes: u32,
    pub others: u32,
    pub others_end: u32,
    pub large: u32,
    pub large_end: u32,
    pub terms: u32,
    pub terms_end: u32,
    pub rows: u32,
    pub rows_end: u32,
}

/// The transaction whose parts a head locates.
pub fn txn_by<'a>(table: Table<'a>, head: &Head) -> TxnView<'a>
    requires within { HeadIn (shared_seen table) head.now }
    requires named { AllNamed (all_names table.names) table.ids.now }
    ensures { result ≡ txn_at (shared_seen table.entry) head.now }
{
    TxnView {
        seen: TxnSlices {
            edition: head.edition,
            names: table.names,
            reads: &table.ids[head.ids as usize..head.reads as usize],
            writes: &table.ids[head.reads as usize..head.writes as usize],
            others: &table.others[head.others as usize..head.others_end as usize],
            large: &table.large[head.large as usize..head.large_end as usize],
            terms: &table.terms[head.terms as usize..head.terms_end as usize],
            rows: &table.rows[head.rows as usize..head.rows_end as usize],
        },
    }
}
