//! Texts received from C.

ghost use Rattle.std.specs.Prelude.{◌≡◌, IfOk, IfErr};
ghost use Rattle.std.specs.FinMap.{entries};
ghost use Rattle.bohm_types.specs.Sound.{IsDocument};
ghost use Rattle.bohm_txn.specs.Faulty.{WellFormed};
ghost use Rattle.bohm_txn.specs.Stores.{store_of};
ghost use Rattle.bohm_text.specs.Print.{print_doc};
ghost use Rattle.bohm_c.specs.Reading.{IsRead, IsRefused, snapshot_of};

use crate::handing::Text;
use bohm_answer::{LONGEST_TEXT, RunFault};
use bohm_log::{Doc, DrawnSeed, FixedSeed, HashSeed, Log};
use bohm_text::{parse_with_seed, print_doc};
use bohm_txn::{Checked, check};
use bohm_types::{Edition, Key, NoMemory, Value};
use std::alloc::Global;

/// The well-formed document of a text.
pub fn read(alloc: Global, seed: DrawnSeed, text: &[u8]) -> Result<Checked, RunFault>
    ensures ok { IfOk result (IsRead text.now) }
    ensures err { IfErr result (IsRefused text.now) }
{
    if text.len() > LONGEST_TEXT {
        return Err(RunFault::TooLong);
    }
    let doc = parse_with_seed(alloc, seed, text)?;
    Ok(check(doc)?)
}

/// The text of the document with this store, whose keys ascend, and no transactions.
pub fn print_snapshot(alloc: Global, store: Vec<(Key, Value)>) -> Result<Text, NoMemory>
    requires { store.items ≡ entries (store_of store.items) }
    ensures sound { IsDocument (snapshot_of store.items) }
    ensures formed { WellFormed (snapshot_of store.items) }
    ensures printed { IfOk result (λ text. text ≡ print_doc (snapshot_of store.items)) }
{
    let Some(doc) = Doc::new(
        Edition::One,
        store,
        Log::new(alloc, HashSeed::from(FixedSeed)),
    ) else {
        unreachable!()
    };
    doc.has_text();
    Text::new(print_doc(alloc, &doc)?)
}
