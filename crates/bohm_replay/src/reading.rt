//! What the lines of an entry say.

ghost use Rattle.std.specs.Prelude.{◌≡◌, ◌⊎◌, ◌∷◌, [], Err, None, Some, IfOk, IsSome, OnOk, length};
ghost use Rattle.bohm_text.specs.Cut.{whole_lines};
ghost use Rattle.bohm_entries.specs.Meaning.{Define};
ghost use Rattle.bohm_entries.specs.Batches.{define_of, named};
ghost use Rattle.bohm_entries.specs.Refusals.{Calls, IsDefinition, RefusesCall, RefusesDefinition};
ghost use Rattle.bohm_entries.specs.declared.refusal.EntryFault.TheVariants as fault_is;
ghost use Rattle.bohm_entries.specs.declared.refusal.Refusal.{Refusal as TheRefusal};
ghost use Rattle.bohm_replay.specs.Entries.{IsCallOf};

use bohm_entries::{Arguments, Definitions, EntryFault, Refusal, read_arguments, read_definition};
use bohm_log::DrawnSeed;
use bohm_procedures::Procedure;
use bohm_text::Words;
use bohm_types::{Edition, Key};
use std::alloc::Global;

/// The name that the words spell, if they are one word.
pub(crate) fn name_of(mut words: Words<'_>) -> Option<Key>
    ensures { result ≡ named words.entry }
{
    let word = words.next()?;
    if words.next().is_some() {
        return None;
    }
    Key::new(word)
}

/// The name and the procedure of a definition, of which these are the words behind the kind and the
/// id, and the lines behind the first one.
pub(crate) fn read_define(
    alloc: Global,
    seed: DrawnSeed,
    edition: Edition,
    words: Words<'_>,
    lines: &[u8],
) -> Result<(Key, Procedure), EntryFault>
    ensures found { IfOk result (λ it. define_of words.entry (whole_lines lines.now) ≡ Some (Define it.0 it.1)) }
    ensures named { OnOk result (IsSome (named words.entry)) }
    ensures taken { OnOk result (IsDefinition edition lines.now) }
    ensures refused { (r : TheRefusal) → result ≡ Err (fault_is.Refused r)
        → (named words.entry ≡ None) ⊎ RefusesDefinition edition lines.now r }
{
    let Some(name) = name_of(words) else {
        return Err(EntryFault::Refused(Refusal::Shape));
    };
    match read_definition(alloc, seed, edition, lines) {
        Ok(procedure) => Ok((name, procedure)),
        Err(fault) => Err(fault),
    }
}

/// A call's procedure, and its arguments.
#[derive(Drop)]
pub(crate) struct Call<'a> {
    pub(crate) procedure: &'a Procedure,
    pub(crate) arguments: Arguments,
}

/// What a call says, of which these are the words behind the kind and the id.
pub(crate) fn read_call<'a>(
    alloc: Global,
    definitions: &'a Definitions,
    words: Words<'_>,
) -> Result<Call<'a>, EntryFault>
    ensures found { IfOk result (λ it. IsCallOf definitions.now words.entry it.procedure.now it.arguments.keys.items it.arguments.values.items) }
    ensures counts { IfOk result (λ it. (length it.arguments.keys.items ≡ length it.procedure.now.keys)
        × (length it.arguments.values.items ≡ length it.procedure.now.values)) }
    ensures taken { OnOk result (Calls definitions.now words.entry) }
    ensures refused { (r : TheRefusal) → result ≡ Err (fault_is.Refused r)
        → (words.entry ≡ []) ⊎ RefusesCall definitions.now words.entry r }
{
    let mut rest = words;
    let Some(name) = rest.next() else {
        return Err(EntryFault::Refused(Refusal::Shape));
    };
    let Some(procedure) = definitions.get(name) else {
        return Err(EntryFault::Refused(Refusal::Procedure));
    };
    match read_arguments(alloc, rest, procedure.keys(), procedure.values()) {
        Ok(arguments) => Ok(Call {
            procedure,
            arguments,
        }),
        Err(fault) => Err(fault),
    }
}
