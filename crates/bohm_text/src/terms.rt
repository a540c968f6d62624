//! The terms of a sum, word by word.

ghost use Rattle.std.specs.Prelude.{◌≡◌};
ghost use Rattle.std.specs.Option.{option_map};
ghost use Rattle.bohm_log.specs.Seeing.{atom_shown};
ghost use Rattle.bohm_text.specs.Reading.{atom_of};

use crate::numbers::read_lit;
use bohm_log::AtomParts;
use bohm_types::Key;

#[tactic(auto, unfolding(crate::specs::Reading::atom_of))]
pub fn read_atom(word: &[u8]) -> Option<AtomParts>
    ensures { option_map atom_shown result ≡ atom_of word.now }
{
    match word {
        [] => None,
        [b'$', name @ ..] => Key::new(name).map(AtomParts::Local),
        [first, ..] if first.is_ascii_digit() => read_lit(word).map(AtomParts::Lit),
        _ => Key::new(word).map(AtomParts::Read),
    }
}
