//! Which entries are taken.

ghost use Rattle.std.specs.Prelude.{◌≡◌, ◌∷◌, [], ℕ, true, Err, IfNone, IfSome, IsSome, OnOk, option_map};
ghost use Rattle.std.specs.List.{list_all};
ghost use Rattle.bohm_text.specs.Cut.{split, whole_lines};
ghost use Rattle.bohm_entries.specs.Batches.{entries_of, entry_by_kind, entry_in};
ghost use Rattle.bohm_entries.specs.Refusals.{HasForm, IsEntry, IsHead, IsHeadless, IsLarge, IsOne, Refuses, RefusesKind, Says, begins_named, id_size, is_word};
ghost use Rattle.bohm_entries.specs.declared.refusal.EntryFault.TheVariants as fault_is;
ghost use Rattle.bohm_entries.specs.declared.refusal.Refusal.{Refusal as TheRefusal};

use crate::reading::{name_of, read_call, read_define};
use bohm_entries::{
    Definitions, EntryFault, FirstLine, Kind, Refusal, is_word, read_first_line, read_transaction,
    split_entry,
};
use bohm_log::DrawnSeed;
use bohm_text::{Words, split_line};
use bohm_types::{Edition, Key};
use std::alloc::Global;

/// The most bytes of an entry, without its last newline and its id.
const LONGEST: usize = 1 << 20;

/// The bytes of a first line that spell its id, with a space and a mark.
fn id_size(id: Option<&[u8]>) -> usize
    ensures { result ≡ id_size (option_map (λ i. i.now) id.entry) }
{
    match id {
        Some(id) => id.len() + 2,
        None => 0,
    }
}

/// Whether each word of a line is one, so that there are single spaces between them.
fn has_plain_words(line: &[u8]) -> bool
    ensures { result ≡ list_all is_word (split 32 line.now) }
{
    let mut rest = Words::of(line);
    'words: while let Some(word) = rest.next() {
        if !is_word(word) {
            return false;
        }
    }
    true
}

/// Whether the first of the words is a name.
fn begins_named(words: &Words<'_>) -> bool
    ensures { result ≡ begins_named words.now }
{
    match words.fork().next() {
        Some(word) => Key::new(word).is_some(),
        None => false,
    }
}

/// Whether these words behind the kind and the id, and these lines, are as the kind wants them.
fn has_form(kind: Kind, rest: &Words<'_>, lines: &[u8]) -> bool
    ensures yes { result ≡ true → HasForm kind rest.now lines.now }
    ensures no { HasForm kind rest.now lines.now → result ≡ true }
{
    match kind {
        Kind::Define => name_of(rest.fork()).is_some(),
        Kind::Call => lines.is_empty() && begins_named(rest),
        Kind::Transaction => rest.fork().next().is_none(),
    }
}

/// The first line of an entry, and the lines behind it.
#[derive(Drop)]
struct Head<'a> {
    first: FirstLine<'a>,
    lines: &'a [u8],
}

/// The first line of a text and its other lines, if the first has the form of an entry's.
fn read_head(text: &[u8]) -> Option<Head<'_>>
    ensures some { IfSome result (λ it. IsHead text.now it.first.kind (option_map (λ id. id.now) it.first.id)
        it.first.rest it.lines.now) }
    ensures none { IfNone result (IsHeadless text.now) }
{
    let (line, lines) = split_line(text)?;
    let first = read_first_line(line)?;
    if !has_plain_words(line) {
        return None;
    }
    if !has_form(first.kind, &first.rest, lines) {
        return None;
    }
    Some(Head { first, lines })
}

/// Whether a text has more bytes than an entry with this id may have.
fn is_large(text: &[u8], id: Option<&[u8]>) -> bool
    ensures yes { result ≡ true → IsLarge text.now (option_map (λ i. i.now) id.entry) }
    ensures no { IsLarge text.now (option_map (λ i. i.now) id.entry) → result ≡ true }
{
    text.len() > LONGEST + id_size(id) + 1
}

/// Whether a text is the lines of one entry, and nothing behind them.
fn is_one(text: &[u8]) -> bool
    ensures yes { result ≡ true → IsOne text.now }
    ensures no { IsOne text.now → result ≡ true }
{
    match split_entry(text) {
        Some((_, rest)) => rest.is_empty(),
        None => false,
    }
}

/// Reads what follows the kind and the id of an entry.
fn read_by_kind(
    alloc: Global,
    seed: DrawnSeed,
    edition: Edition,
    definitions: &Definitions,
    first: FirstLine<'_>,
    lines: &[u8],
) -> Result<(), EntryFault>
    requires form { HasForm first.kind first.rest lines.now }
    ensures spelled { OnOk result (IsSome (entry_by_kind (record { edition = edition; procedures = definitions.now })
        first.entry.kind first.entry.rest (whole_lines lines.now))) }
    ensures says { OnOk result (Says (record { edition = edition; procedures = definitions.now })
        first.entry.kind first.entry.rest lines.now) }
    ensures refused { (r : TheRefusal) → result ≡ Err (fault_is.Refused r)
        → RefusesKind (record { edition = edition; procedures = definitions.now }) first.entry.kind first.entry.rest lines.now r }
{
    match first.kind {
        Kind::Define => {
            let _ = read_define(alloc, seed, edition, first.rest, lines)?;
        }
        Kind::Call => {
            let _ = read_call(alloc, definitions, first.rest)?;
        }
        Kind::Transaction => {
            let _ = read_transaction(alloc, seed, edition, lines)?;
        }
    }
    Ok(())
}

/// Whether the text is one entry, after these definitions, that is to be run. The first refusal
/// that applies is answered.
pub(crate) fn admit(
    alloc: Global,
    seed: DrawnSeed,
    edition: Edition,
    definitions: &Definitions,
    entry: &[u8],
) -> Result<(), EntryFault>
    ensures one { OnOk result (entries_of entry.now ≡ whole_lines entry.now ∷ []) }
    ensures spelled { OnOk result (IsSome (entry_in (record { edition = edition; procedures = definitions.now }) (whole_lines entry.now))) }
    ensures taken { OnOk result (IsEntry (record { edition = edition; procedures = definitions.now }) entry.now) }
    ensures refused { (r : TheRefusal) → result ≡ Err (fault_is.Refused r)
        → Refuses (record { edition = edition; procedures = definitions.now }) entry.now r }
{
    let Some(Head { first, lines }) = read_head(entry) else {
        return Err(EntryFault::Refused(Refusal::Shape));
    };
    if is_large(entry, first.id) {
        return Err(EntryFault::Refused(Refusal::Large));
    }
    read_by_kind(alloc, seed, edition, definitions, first, lines)?;
    if !is_one(entry) {
        return Err(EntryFault::Refused(Refusal::Shape));
    }
    Ok(())
}
