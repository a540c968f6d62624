//! Undoes transactions.

ghost use Rattle.std.specs.Prelude.{◌≡◌, ◌≤◌, ℕ, List};
ghost use Rattle.std.specs.List.{IsDistinct};
ghost use Rattle.std.specs.Map.{keys_of};
ghost use Rattle.std.specs.Str.{bytes_eq};
ghost use Rattle.bohm_store.specs.Versions.{past, versions, versions_to};

use crate::history::History;

impl History {
    /// Undoes the transactions after a timestamp, which becomes the top. Each key keeps the
    /// versions that begin at or below the timestamp, and the past up to it is unchanged. Keys keep
    /// their numbers. The time grows with the number of keys and of the versions that are removed.
    /// It allocates nothing.
    pub fn rewind(&mut self, ts: u32)
        requires kept { self.old.floor ≤ ts }
        requires there { ts ≤ self.old.top }
        ensures floor { self.new.floor ≡ self.old.floor }
        ensures top { self.new.top ≡ ts }
        ensures versions { (k : List ℕ) → versions self.new k ≡ versions_to ts
            (versions self.old k) }
        ensures past { (t : ℕ) → t ≤ ts → past self.new t ≡ past self.old t }
        ensures distinct { IsDistinct bytes_eq (keys_of self.new.chains) }
    {
        // The call's contract says that the names are distinct.
        let _ = self.names.table();
        self.numbered.rewind(ts);
    }
}
