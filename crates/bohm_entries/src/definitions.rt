//! The definitions of a ledger.

ghost use Rattle.std.specs.Prelude.{◌≡◌, ◌∷◌, [], None, Some, MatchOption, OnOk, OnErr};
ghost use Rattle.bohm_entries.specs.Meaning.{defined};

use bohm_procedures::Procedure;
use bohm_types::{Key, NoMemory, PackedWord};
use std::alloc::Global;
use std::marker::Model;

/// The definitions so far, the last one first.
#[derive(Drop)]
pub struct Definitions {
    newest_first: Vec<(Key, Procedure)>,
}

impl Model for Definitions {
    ghost use Rattle.bohm_entries.specs.Meaning.{Definitions as TheDefinitions};

    ghost Value = { TheDefinitions };

    ghost view = { λ d. d.newest_first.items };
}

/// The first of these definitions that has the name.
fn find<'a>(definitions: &'a [(Key, Procedure)], name: &[u8]) -> Option<&'a Procedure>
    ensures { MatchOption result (defined definitions.now name.now ≡ None)
        (λ procedure. defined definitions.now name.now ≡ Some procedure.now) }
{
    let word = PackedWord::new(name);
    for (key, procedure) in definitions {
        if key.is_word(&word) {
            return Some(procedure);
        }
    }
    None
}

impl Definitions {
    /// No definition. It allocates nothing.
    pub fn new(alloc: Global) -> Definitions
        ensures { result ≡ [] }
    {
        Definitions {
            newest_first: Vec::new(alloc),
        }
    }

    /// Defines a name anew. The time grows with the number of definitions.
    pub fn define(&mut self, name: Key, procedure: Procedure) -> Result<(), NoMemory>
        ensures ok { OnOk result (self.new ≡ (name, procedure) ∷ self.old) }
        ensures err { OnErr result (self.new ≡ self.old) }
    {
        self.newest_first.insert(0, (name, procedure))?;
        Ok(())
    }

    /// The last definition of a name. The time grows with the number of definitions.
    pub fn get(&self, name: &[u8]) -> Option<&Procedure>
        ensures { MatchOption result (defined self.now name.now ≡ None)
            (λ procedure. defined self.now name.now ≡ Some procedure.now) }
    {
        find(self.newest_first.as_slice(), name)
    }
}
