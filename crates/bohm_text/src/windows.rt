//! Reading a text in windows. The first one has the head, the store and perhaps transactions, and
//! each later one begins with the line `txn`.

ghost use Rattle.std.specs.Prelude.{◌≡◌, []};
ghost use Rattle.bohm_text.specs.Windows.{IsWindow};
ghost use Rattle.bohm_text.specs.Windowing.{ReadsFirst, ReadsWindow};

use crate::fault::WindowFault;
use crate::parsing::{read_lines, read_text};
use crate::reader::Reader;
use bohm_log::{DrawnSeed, HashSeed, Log};
use bohm_types::{Edition, Key, Value};
use std::alloc::Global;

/// The transactions of a window.
#[derive(Drop)]
pub struct Chunk {
    pub log: Log<HashSeed>,
    /// How many lines the window has.
    pub lines: u64,
    /// Whether all keys that the log doesn't share were renumbered. Otherwise each key that the log
    /// had before keeps its number.
    pub renumbered: bool,
}

/// The contents of a text's first window: the edition, the starting store, and the transactions so
/// far.
#[derive(Drop)]
pub struct FirstWindow {
    pub edition: Edition,
    /// The entries of the store, in the order in which they were given.
    pub store: Vec<(Key, Value)>,
    /// The transactions, and how many lines the window has.
    pub chunk: Chunk,
}

/// Reads the first window of a text, which is itself a document. Its time and memory grow with the
/// length of the window. Names are hashed with the seed.
///
/// # Errors
///
/// `Line` and `Open` report where the window stops being a prefix of a document. `NoMemory` reports
/// that an allocation failed or, for a window of more than 4 GiB, that a column has run out of
/// 32-bit indices.
pub fn parse_first_window(
    alloc: Global,
    seed: DrawnSeed,
    text: &[u8],
) -> Result<FirstWindow, WindowFault>
    ensures { ReadsFirst text.now result }
{
    let (reader, lines) = read_text(alloc, HashSeed::from(seed), text)?;
    let Reader {
        edition,
        mut store,
        log,
        ..
    } = reader;
    store.shrink_to_fit();
    Ok(FirstWindow {
        edition,
        store: store.into_vec(),
        chunk: Chunk {
            log,
            lines,
            renumbered: true,
        },
    })
}

/// Reads a later window of a text of this edition, which begins with the line `txn`. The result
/// doesn't depend on the windows before it, so windows can be read in any order. The time and
/// memory grow with the length of the window.
///
/// The log's previous transactions are removed, and the window's transactions go into it. Its keys
/// keep their numbers, unless they are many more than it declared (`Log::clear`). Other names are
/// hashed with the seed.
///
/// # Errors
///
/// `Line` and `Open` report where the window stops being a prefix of transactions. `NoMemory`
/// reports that an allocation failed or, for a window of more than 4 GiB, that a column has run out
/// of 32-bit indices.
pub fn parse_window(
    alloc: Global,
    seed: DrawnSeed,
    edition: Edition,
    log: Log<HashSeed>,
    text: &[u8],
) -> Result<Chunk, WindowFault>
    requires { IsWindow text.now }
    ensures { ReadsWindow edition text.now result }
{
    let mut log = log;
    log.clear();
    log.make_room(text.len());
    let renumbered = log.part().keys().names().own().is_empty();
    let (reader, lines) = read_lines(alloc, HashSeed::from(seed), edition, log, text)?;
    Ok(Chunk {
        log: reader.log,
        lines,
        renumbered,
    })
}
