//! The board of a batch, and its rule.

ghost use Rattle.std.specs.Prelude.{◌≡◌, ◌+◌, length};
ghost use Rattle.bohm_board.specs.Batches.{rights_of};
ghost use Rattle.bohm_board.specs.Shown.{IsSized, words_of};

mod calls;
mod step_kinds;
mod steps;

use crate::batch::Batch;
use crate::columns::Columns;
use crate::knowledge::View;
use atomic_table::{Table, TableRule};
use std::alloc::Global;

/// The rule of a board: its words and views show a state of the core.
pub struct BoardRule;

impl<'a> TableRule<(), View, Batch<'a>> for BoardRule {
    ghost use Rattle.bohm_board.specs.Batches.{rights_of};
    ghost use Rattle.bohm_board.specs.Shown.{IsRuled};
    ghost use Rattle.bohm_board.specs.Views.{new_view};

    ghost holds = { IsRuled };

    ghost first = { λ batch. new_view (rights_of batch) };
}

/// The table of a board's words.
pub(crate) type Words<'a> = Table<(), View, Batch<'a>, BoardRule, Global>;

/// The shared words of a batch: a status word for each position, and after them a presence word for
/// each slot and a value word for each slot.
pub struct Board<'a> {
    table: Words<'a>,
    batch: Batch<'a>,
    // Memory for the words once the board is closed.
    columns: Columns,
    ghost keyed: { table.shared.key ≡ batch },
    ghost sized: { let slots = length (rights_of batch).slots in
        table.shared.table_id.words ≡ length (rights_of batch).outcomes + (slots + slots) },
    ghost bare: { table.shared.table_id.slots ≡ 0 },
    ghost room: { IsSized (rights_of batch) (words_of columns) },
}

// Written by hand: a derived drop is proved again in each function that drops such a value.
impl<'a> Drop for Board<'a> {
    fn drop(self) {
        let Self {
            table,
            batch,
            columns,
        } = self;
        drop(table);
        drop(batch);
        drop(columns);
    }
}
