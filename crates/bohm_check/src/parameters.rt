//! The parameters of a procedure's text, as its lines name them.

use bohm_types::{Key, NoMemory};
use std::alloc::Global;
use std::collections::{BTreeMap, BTreeSet};

/// The parameters that the lines so far name, and the keys that its reads declare.
#[derive(Drop)]
pub struct Parameters {
    keys: Vec<Key>,
    /// The line of each parameter.
    lines: BTreeMap<Key, u64>,
    reads: BTreeSet<Key>,
}

/// The parameter that a line names, if it is the line of one.
fn named_on(line: &[u8]) -> Option<Key> {
    Key::new(
        line.strip_prefix(b"key ".as_slice())
            .or(line.strip_prefix(b"value ".as_slice()))?,
    )
}

/// The keys of a set's line.
fn keys_on(alloc: Global, line: &[u8]) -> Result<Vec<Key>, NoMemory> {
    let mut keys = Vec::new(alloc);
    for word in line.split(|byte| *byte == b' ').skip(1) {
        if let Some(key) = Key::new(word) {
            keys.push(key)?;
        }
    }
    Ok(keys)
}

impl Parameters {
    pub fn none(alloc: Global) -> Parameters {
        Parameters {
            keys: Vec::new(alloc),
            lines: BTreeMap::new(alloc),
            reads: BTreeSet::new(alloc),
        }
    }

    /// Adds what a valid line names: a parameter, or the keys of the reads.
    pub fn add(&mut self, alloc: Global, number: u64, line: &[u8]) -> Result<(), NoMemory> {
        if let Some(name) = named_on(line) {
            if line.starts_with(b"key ") {
                self.keys.push(name)?;
            }
            self.lines.insert(name, number)?;
            return Ok(());
        }
        for key in keys_on(alloc, line)? {
            self.reads.insert(key)?;
        }
        Ok(())
    }

    /// The line of the parameter whose name this line has too, and that name.
    pub fn named_before(&self, line: &[u8]) -> Option<(u64, Key)> {
        let name = named_on(line)?;
        let first = self.lines.get(&name).copied()?;
        Some((first, name))
    }

    /// The key parameters that are neither among the reads nor on this line of writes.
    pub fn undeclared(&self, alloc: Global, writes: &[u8]) -> Result<Vec<Key>, NoMemory> {
        let written = keys_on(alloc, writes)?;
        let mut lacking = Vec::new(alloc);
        for key in self.keys.as_slice() {
            if !self.reads.contains(key) && !written.as_slice().contains(key) {
                lacking.push(*key)?;
            }
        }
        Ok(lacking)
    }

    /// The keys of a line of writes and these, in order, each once.
    pub fn completed(alloc: Global, writes: &[u8], lacking: &[Key]) -> Result<Vec<Key>, NoMemory> {
        let mut keys = keys_on(alloc, writes)?;
        keys.extend_from_slice(lacking)?;
        Ok(keys)
    }
}
