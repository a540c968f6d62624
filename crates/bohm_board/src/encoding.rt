//! The encoding of statuses, outcomes and cells as the words of a board.

ghost use Rattle.std.specs.Prelude.{◌≡◌, ◌<◌};
ghost use Rattle.bohm_types.specs.declared.cell.Cell.TheVariants.{Present};
ghost use Rattle.bohm_board.specs.Encoding.{above_stmts, outcome_at, status_of, stmt_of};
ghost use Rattle.bohm_board.specs.Encoding.{thousands_of, word_of};
ghost use Rattle.bohm_board.specs.Encoding.{filled_word, present_at};

use crate::status::Status;
use bohm_txn::{Outcome, Reason};
use bohm_types::{Cell, Value};

pub(crate) fn status_of_word(word: u64) -> Status
    ensures { result ≡ status_of word }
{
    match word {
        0 => Status::Open,
        1 => Status::Busy,
        _ => Status::Done,
    }
}

fn thousands(reason: Reason) -> u64
    ensures { result ≡ thousands_of reason }
{
    match reason {
        Reason::Need => 1,
        Reason::Fail => 2,
        Reason::Absent => 3,
        Reason::Range => 4,
    }
}

/// The status word of an outcome.
pub(crate) fn outcome_word(outcome: Outcome) -> u64
    requires { stmt_of outcome < above_stmts }
    ensures { result ≡ word_of outcome }
{
    match outcome {
        Outcome::Commit => 2,
        Outcome::Abort { reason, stmt } => 1000 * thousands(reason) + u64::from(stmt),
    }
}

/// The outcome of a status word.
pub(crate) fn outcome_of_word(word: u64) -> Outcome
    ensures { result ≡ outcome_at word }
{
    let stmt = (word % 1000) as u32;
    match word / 1000 {
        0 => Outcome::Commit,
        1 => Outcome::Abort {
            reason: Reason::Need,
            stmt,
        },
        2 => Outcome::Abort {
            reason: Reason::Fail,
            stmt,
        },
        3 => Outcome::Abort {
            reason: Reason::Absent,
            stmt,
        },
        _ => Outcome::Abort {
            reason: Reason::Range,
            stmt,
        },
    }
}

pub(crate) fn presence_word(cell: Cell) -> u64
    ensures { result ≡ filled_word cell }
{
    match cell {
        Cell::Absent => 1,
        Cell::Present(_) => 2,
    }
}

/// The value word of a value.
pub(crate) fn value_word(value: Value) -> u64
    ensures { present_at result ≡ Present value }
{
    value.get().cast_unsigned()
}

/// The presence word and the value word of a cell. The value word is 0 if the cell has no value.
pub(crate) fn slot_words(cell: Cell) -> (u64, u64)
    ensures presence { result.0 ≡ filled_word cell }
    ensures value { filled_word cell ≡ 2 → present_at result.1 ≡ cell }
{
    match cell {
        Cell::Absent => (1, 0),
        Cell::Present(value) => (2, value_word(value)),
    }
}

/// The cell of a value word, if its slot's cell is present.
pub(crate) fn present_cell(word: u64) -> Cell
    ensures { result ≡ present_at word }
{
    Cell::Present(Value::from(word.cast_signed()))
}
