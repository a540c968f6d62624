//! Index hints: the indexes of a log's keys in a history.

use bohm_log::NameTable;
use bohm_types::NoMemory;
use std::alloc::Global;

/// For each key of a log, by its number in the log, the index that it last had in a history. Each
/// index is compared with its key before it is used, so that no result depends on it.
#[derive(Drop)]
pub struct IndexHints {
    /// How many keys the log shares with other logs: the likely index of each is its number in the
    /// log.
    shared: usize,
    /// The indexes of the log's other keys.
    indexes: Vec<u32>,
}

impl IndexHints {
    /// The hints of a log none of whose keys was looked up. It allocates nothing.
    pub fn new(alloc: Global) -> IndexHints {
        IndexHints {
            shared: 0,
            indexes: Vec::new(alloc),
        }
    }

    /// Makes room for the keys of a log with these names. It fails with `NoMemory` if the
    /// allocation fails. The time grows with the number of keys for which there was no room.
    pub fn cover(&mut self, names: NameTable<'_>) -> Result<(), NoMemory> {
        self.shared = names.shared().len();
        if self.indexes.len() < names.own().len() {
            self.indexes.resize(names.own().len(), u32::MAX)?;
        }
        Ok(())
    }

    /// How many keys that the log doesn't share have room.
    pub fn len(&self) -> usize {
        self.indexes.len()
    }

    /// The likely index of the key with this number in the log, or an index that no key has.
    #[inline(always)]
    pub fn index(&self, number: u32) -> u32 {
        let own = match (number as usize).checked_sub(self.shared) {
            Some(own) => own,
            None => return number,
        };
        match self.indexes.get(own) {
            Some(index) => *index,
            None => u32::MAX,
        }
    }

    /// Notes the index of the key with this number in the log, if there is room for it.
    pub fn note(&mut self, number: u32, index: u32) {
        if let Some(own) = (number as usize).checked_sub(self.shared) {
            self.note_own(own, index);
        }
    }

    /// Notes the index of the key with this number among those that the log doesn't share, if there
    /// is room for it.
    pub fn note_own(&mut self, own: usize, index: u32) {
        if let Some(hint) = self.indexes.get_mut(own) {
            *hint = index;
        }
    }

    /// Removes the indexes of all keys. The capacity is kept.
    pub fn clear(&mut self) {
        self.indexes.clear();
    }
}
