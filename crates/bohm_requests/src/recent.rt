//! The batch that was looked at last.

use bohm_entries::split_entry;
use std::alloc::Global;

/// The batch that was looked at last, and where an entry was found in it: entries that are sent
/// again mostly come in the order in which they are there.
#[derive(Drop)]
pub(crate) struct Recent {
    /// The place of the batch, 0 where there is none.
    place: u64,
    text: Vec<u8>,
    /// Where the entry behind the last one that was found begins.
    at: usize,
}

/// Where an entry of this text begins and ends, if the text has it.
fn find_in(text: &[u8], entry: &[u8]) -> Option<usize> {
    let mut rest = text;
    'entries: while let Some((first, others)) = split_entry(rest) {
        if first == entry {
            return Some(text.len() - others.len());
        }
        rest = others;
    }
    None
}

impl Recent {
    /// No batch.
    pub(crate) fn none(alloc: Global) -> Recent {
        Recent {
            place: 0,
            text: Vec::new(alloc),
            at: 0,
        }
    }

    /// Whether it is the batch that has this place.
    pub(crate) fn is_at(&self, place: u64) -> bool {
        self.place == place
    }

    /// Takes the batch that has this place in.
    pub(crate) fn note(&mut self, place: u64, text: Vec<u8>) {
        self.place = place;
        self.text = text;
        self.at = 0;
    }

    /// Whether the batch has this entry.
    pub(crate) fn has(&mut self, entry: &[u8]) -> bool {
        let at = self.at.min(self.text.len());
        let text = self.text.as_slice();
        if let Some(end) = find_in(&text[at..], entry) {
            self.at = at.saturating_add(end);
            return true;
        }
        match find_in(&text[..at], entry) {
            Some(end) => {
                self.at = end;
                true
            }
            None => false,
        }
    }
}
