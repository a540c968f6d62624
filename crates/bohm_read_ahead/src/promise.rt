//! The promise of a thread that parses a window.

ghost use Rattle.bohm_read_ahead.specs.Parsing.{IsChecked};

use crate::checked_window::CheckedWindow;
use bohm_reading::Window;
use bohm_types::Edition;
use std::snapshot::Snapshot;
use std::thread::Promise;

/// The result of parsing and checking a window of a text of this edition.
#[derive(Drop)]
pub struct ParseOf {
    pub edition: Edition,
    pub window: Snapshot<Window>,
}

impl Promise<CheckedWindow> for ParseOf {
    ghost kept_by = { λ p r. IsChecked p.edition p.window.value r };
}
