//! A machine's counts.

ghost use Rattle.bohm_c.specs.Keeping.{HasCounts};

use crate::session::Session;

/// How much a machine keeps, and how much further it can run.
#[repr(C)]
#[derive(Clone, Copy, Debug)]
pub struct BohmCounts {
    /// The least timestamp that can be read.
    pub floor: u32,
    /// The greatest.
    pub top: u32,
    pub versions: u64,
    /// How many replies are waiting.
    pub waiting: u64,
    /// How many keys take memory, also without a value.
    pub names: u64,
    /// About how many bytes the versions and the names take.
    pub bytes: u64,
    /// How many transactions can still run.
    pub left: u32,
    pub unused: u32,
}

/// About how many bytes a key takes: itself, its hash, its place in a table and its newest version.
const BYTES_OF_A_NAME: u64 = 96;

/// About how many bytes a superseded version takes.
const BYTES_OF_A_VERSION: u64 = 32;

/// About how many bytes this many keys and versions take.
fn bytes_of(names: u64, versions: u64) -> u64 {
    let older = versions.saturating_sub(names);
    let of_names = names.saturating_mul(BYTES_OF_A_NAME);
    of_names.saturating_add(older.saturating_mul(BYTES_OF_A_VERSION))
}

impl Session {
    /// The machine's counts.
    pub fn counts(&self) -> BohmCounts
        ensures { HasCounts self.now result }
    {
        let (top, versions) = (self.machine.top(), self.machine.version_count());
        let names = self.machine.key_count() as u64;
        BohmCounts {
            floor: self.machine.floor(),
            top,
            versions,
            waiting: self.waiting.len() as u64,
            names,
            bytes: bytes_of(names, versions),
            left: u32::MAX - top,
            unused: 0,
        }
    }
}
