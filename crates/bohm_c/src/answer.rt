//! The answer to a whole log, on the caller's thread.

ghost use Rattle.std.specs.Prelude.{◌≡◌, length, IfOk};
ghost use Rattle.std.specs.FinMap.{entries};
ghost use Rattle.bohm_txn.specs.Serial.{replies};
ghost use Rattle.bohm_txn.specs.Stores.{cell_in, store_after, store_of};
ghost use Rattle.bohm_answer.specs.Answer.{answer_of};

use crate::handing::Text;
use bohm_apply::SerialExecutor;
use bohm_hints::IndexHints;
use bohm_log::DrawnSeed;
use bohm_store::History;
use bohm_text::print_answer;
use bohm_txn::{Checked, Replies};
use bohm_types::{Key, NoMemory, Value};
use std::alloc::Global;

/// The replies of a log, and the entries of the store after it.
fn executed(
    alloc: Global,
    seed: DrawnSeed,
    checked: &Checked,
) -> Result<(Replies, Vec<(Key, Value)>), NoMemory>
    ensures replies { IfOk result
        (λ a. a.0 ≡ replies (cell_in (store_of checked.now.store)) checked.now.log) }
    ensures store { IfOk result
        (λ a. a.1.items ≡ entries (store_after (store_of checked.now.store) checked.now.log)) }
{
    let log = checked.log();
    let mut history = History::open_with_seed(alloc, checked.store(), seed)?;
    let mut replies = Replies::new(alloc);
    let mut hints = IndexHints::new(alloc);
    SerialExecutor::new(alloc)?.run(&mut history, &mut replies, &log, &mut hints, 0)?;
    match history.store_at(alloc, history.top()) {
        Ok(store) => Ok((replies, store)),
        Err(_) => Err(NoMemory),
    }
}

/// The text of a log's answer.
pub fn answer(alloc: Global, seed: DrawnSeed, checked: &Checked) -> Result<Text, NoMemory>
    ensures { IfOk result (λ text. text ≡ answer_of checked.now (length checked.now.log)) }
{
    let (replies, store) = executed(alloc, seed, checked)?;
    Text::new(print_answer(alloc, &replies, store.as_slice())?)
}
