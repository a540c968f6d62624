//! Drops old versions.

ghost use Rattle.std.specs.Prelude.{◌≡◌, ◌<◌, ◌≤◌, ◌↔◌, ℕ, List, length, max, Contains};
ghost use Rattle.bohm_store.specs.declared.version.Version.{Version};
ghost use Rattle.bohm_store.specs.Versions.{IsKept, kept_versions, past, total, versions};

use crate::history::History;

impl History {
    /// If this floor is above the current one, it becomes the floor, and each key keeps the
    /// versions that begin above it and the newest one at or below it: at the top, one at most.
    /// Otherwise nothing changes.
    /// The time grows with the number of versions that are dropped, regardless of the keys and
    /// versions that stay. It allocates nothing.
    pub fn trim(&mut self, floor: u32)
        requires { floor ≤ self.old.top }
        ensures floor { self.new.floor ≡ max self.old.floor floor }
        ensures top { self.new.top ≡ self.old.top }
        ensures versions { self.old.floor < floor → (k : List ℕ)
            → versions self.new k ≡ kept_versions floor (versions self.old k) }
        ensures unchanged { floor ≤ self.old.floor → (k : List ℕ)
            → versions self.new k ≡ versions self.old k }
        ensures kept { self.old.floor < floor → (k : List ℕ) (v : Version)
            → Contains (versions self.new k) v ↔ IsKept floor (versions self.old k) v }
        ensures one { floor ≡ self.old.top → (k : List ℕ) → length (versions self.new k) ≤ 1 }
        ensures past { (ts : ℕ) → self.new.floor ≤ ts → past self.new ts ≡ past self.old ts }
        ensures count { total self.new.chains ≤ total self.old.chains }
    {
        self.numbered.trim(floor);
    }
}
