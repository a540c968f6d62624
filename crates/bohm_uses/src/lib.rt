//! A caller of `bohm` alone.
#![tactic(auto)]

ghost use Rattle.std.specs.Prelude.{◌≡◌, IfOk};
ghost use Rattle.bohm.specs.Document.{Document};
ghost use Rattle.bohm.specs.Print.{print_doc};
ghost use Rattle.bohm.specs.Serial.{state};
ghost use Rattle.bohm.specs.Stores.{cell_in, store_of};

pub mod replicas;

use bohm::{Cell, CheckFault, DrawnSeed, Key, NoMemory, PastFault, Settings, TextFault};
use std::alloc::Global;
use std::random::RandomSource;
use std::sync::Wait;
use std::thread::Threads;
use thiserror::Error;

/// Why there is no value.
#[derive(Clone, Copy, Debug, PartialEq, Eq, Error)]
pub enum Fault {
    #[error("the text is not a log's: {0:?}")]
    Text(#[from] TextFault),
    #[error("the log is not well formed: {0:?}")]
    Check(#[from] CheckFault),
    #[error("no such timestamp: {0:?}")]
    Past(#[from] PastFault),
    #[error("out of memory")]
    NoMemory(#[from] NoMemory),
}

/// What a key holds after the first `ts` transactions of a log, executed one after another.
pub fn value_at<R: Threads + Wait + Sync + RandomSource>(
    rt: &R,
    alloc: Global,
    text: &[u8],
    key: &Key,
    ts: u32,
) -> Result<Cell, Fault>
    ensures { IfOk result (λ cell. (document : Document) × (print_doc document ≡ text.now)
        × (cell ≡ state (cell_in (store_of document.store)) document.log ts key.now)) }
{
    let doc = bohm::parse_with_seed(alloc, DrawnSeed::draw(rt), text)?;
    let checked = bohm::check(doc)?;
    let answer = bohm::run(rt, alloc, &checked, Settings::default())?;
    let cell = answer.history.value_at(key, ts)?;
    Ok(cell)
}
