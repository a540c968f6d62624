//! Indices of names in the transaction being read.

ghost use Rattle.std.specs.Prelude.{◌≡◌, ◌≤◌, ◌+◌, ◌^◌, Some, Err, IfOk, OnErr, IfSome, IfNone};
ghost use Rattle.std.specs.Prelude.{length, slice_get};
ghost use Rattle.bohm_log.specs.declared.fault.LogFault.TheVariants.{Full};
ghost use Rattle.bohm_log.specs.Parts.{Begins, IsApart};
ghost use Rattle.bohm_log.specs.Drafting.{KeyStands, keys_of};

use crate::fault::LogFault;
use crate::names::Names;
use crate::row::Action;
use bohm_types::{Key, MOST_KEYS, NameCache};
use std::hash::BuildHasher;

/// The index of a key among at most 16. The check refuses larger sets before it asks whether a key
/// is in one.
#[tactic(auto, using(crate::proofs::Seeking::found, crate::proofs::Seeking::not_found))]
pub(crate) fn place_in(keys: &[Key], key: &Key) -> Option<u32>
    ensures found { IfSome result (λ i. slice_get keys.now i ≡ Some key.now) }
    ensures none { IfNone result (IsApart keys.now key.now) }
{
    if keys.len() > MOST_KEYS {
        return None;
    }
    let place = key.place_among(keys)?;
    Some(place as u32)
}

/// The index of a key, looked up first where it was last found.
pub(crate) fn place_again(keys: &[Key], places: &mut NameCache, key: &Key) -> Option<u32>
    ensures found { IfSome result (λ i. slice_get keys.now i ≡ Some key.now) }
    ensures none { IfNone result (IsApart keys.now key.now) }
{
    if let Some(place) = places.place(keys, key) {
        return Some(place);
    }
    let place = place_in(keys, key)?;
    places.note(key, place);
    Some(place)
}

/// The index of a name among the other names, to which it is added if it is new. It is hashed only
/// if it isn't where it was last found.
pub(crate) fn place_other<S: BuildHasher + Drop>(
    others: &mut Names<S>,
    places: &mut NameCache,
    name: Key,
) -> Result<u32, LogFault>
    ensures grows { Begins others.old others.new }
    ensures longer { length others.new ≤ length others.old + 1 }
    ensures ok { IfOk result (λ i. slice_get others.new i ≡ Some name) }
    ensures err { OnErr result (others.new ≡ others.old) }
    ensures full { result ≡ Err Full → length others.old ≡ 2 ^ 32 }
{
    if let Some(place) = places.place(others.as_slice(), &name) {
        return Ok(place);
    }
    let place = others.id(name)?;
    places.note(&name, place);
    Ok(place)
}

/// The index of a statement's name among these declared keys, or else among the other names; and
/// whether it is one of the keys.
pub(crate) fn place_name<S: BuildHasher + Drop>(
    keys: &[Key],
    key_places: &mut NameCache,
    others: &mut Names<S>,
    other_places: &mut NameCache,
    name: Key,
) -> Result<(bool, u32), LogFault>
    ensures grows { Begins others.old others.new }
    ensures longer { length others.new ≤ length others.old + 1 }
    ensures ok { IfOk result (λ t. KeyStands keys.now others.new t.0 t.1 name) }
    ensures err { OnErr result (others.new ≡ others.old) }
    ensures full { result ≡ Err Full → length others.old ≡ 2 ^ 32 }
{
    match place_again(keys, key_places, &name) {
        Some(place) => Ok((true, place)),
        None => Ok((false, place_other(others, other_places, name)?)),
    }
}

/// The declared keys among which a statement's name is searched for.
pub(crate) fn keys_of<'a>(action: Action, reads: &'a [Key], writes: &'a [Key]) -> &'a [Key]
    ensures { result.now ≡ keys_of action reads.now writes.now }
{
    match action {
        Action::Has | Action::Lacks => reads,
        Action::Put | Action::PutWhen(_) | Action::Remove => writes,
        Action::Bind | Action::Need(_) | Action::Show | Action::Fail => &[],
    }
}
