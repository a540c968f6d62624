//! A window that is to be parsed.

ghost use Rattle.std.specs.Prelude.{◌≡◌, ◌++◌, ◌∷◌, [], codes, take};
ghost use Rattle.bohm_read_ahead.specs.Parsing.{IsChecked};

use crate::checked_window::CheckedWindow;
use bohm_hints::IndexHints;
use bohm_log::{DrawnSeed, HashSeed, Log};
use bohm_reading::{Parsed, Window};
use bohm_text::parse_window;
use bohm_txn::check_chunk;
use bohm_types::Edition;
use std::alloc::Global;

/// A window of a text of this edition that is to be parsed and checked.
#[derive(Drop)]
pub(crate) struct ParseTask {
    pub(crate) alloc: Global,
    pub(crate) seed: DrawnSeed,
    pub(crate) edition: Edition,
    pub(crate) window: Window,
    /// The log into which it is parsed, whose contents are replaced.
    pub(crate) log: Log<HashSeed>,
    /// The indexes that the keys of that log had in the history.
    pub(crate) hints: IndexHints,
    ghost begins: { take 4 window.text.items ≡ codes "txn" ++ 10 ∷ [] },
}

impl ParseTask {
    /// Parses the window, and checks its transactions. The time grows with the length of the window, and so does the memory if
    /// the log is new.
    pub(crate) fn run(self) -> CheckedWindow
        ensures { IsChecked self.edition self.window result }
    {
        let ParseTask {
            alloc,
            seed,
            edition,
            window,
            log,
            mut hints,
        } = self;
        let result = parse_window(alloc, seed, edition, log, window.text.as_slice());
        let fault = match &result {
            Ok(chunk) => {
                if chunk.renumbered {
                    hints.clear();
                }
                Some(check_chunk(&chunk.log.part()))
            }
            Err(_) => None,
        };
        CheckedWindow {
            parsed: Parsed { window, result },
            fault,
            hints,
        }
    }
}
