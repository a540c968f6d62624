//! Sums, read term by term into the draft.

ghost use Rattle.std.specs.Prelude.{◌≡◌, [], MatchOption, Some, None, true};
ghost use Rattle.std.specs.Option.{option_map};
ghost use Rattle.bohm_types.specs.Shape.{term_of};
ghost use Rattle.bohm_types.specs.Term.{Lit};
ghost use Rattle.bohm_log.specs.Seeing.{atom_shown};
ghost use Rattle.bohm_text.specs.Reading.{atom_of, ending, first_of, further_of, last_sum, lit_of};
ghost use Rattle.bohm_text.specs.Reading.{sum_from, terms_of};
ghost use Rattle.bohm_text.specs.Signs.{end_of};
ghost use Rattle.bohm_text.specs.Taking.{Takes, TakesTerms, with_one, with_terms};

use crate::fault::ReadFault;
use crate::numbers::read_lit;
use crate::stops::{Stop, read_stop};
use crate::terms::read_atom;
use crate::words::Words;
use bohm_log::{AtomParts, Draft, HashSeed, Literal};
use bohm_types::PackedWord;

/// Adds the term of an atom. Fails if it is a literal that has no text.
fn add_term(draft: &mut Draft<HashSeed>, minus: bool, atom: AtomParts) -> Result<(), ReadFault>
    ensures { Takes result (term_of minus (atom_shown atom)) (with_one draft.old) draft.new }
{
    match atom {
        AtomParts::Lit(number) => {
            let Some(literal) = Literal::new(minus, number) else {
                return Err(ReadFault::Bad);
            };
            draft.literal(literal)?;
        }
        AtomParts::Read(key) => draft.key(minus, key)?,
        AtomParts::Local(name) => draft.local(minus, name)?,
    }
    Ok(())
}

/// Adds the term of a word whose sign was read.
#[inline(never)]
#[tactic(auto, unfolding(crate::specs::Reading::further_of))]
fn take_named(draft: &mut Draft<HashSeed>, minus: bool, word: &[u8]) -> Result<(), ReadFault>
    ensures { Takes result (further_of minus word.now) (with_one draft.old) draft.new }
{
    let Some(atom) = read_atom(word) else {
        return Err(ReadFault::Bad);
    };
    add_term(draft, minus, atom)
}

/// Whether a word begins with a digit, so that it either spells a literal or is invalid.
#[inline(always)]
#[tactic(auto, unfolding(crate::specs::Reading::atom_of))]
fn is_number(word: &[u8]) -> bool
    ensures { result ≡ true → atom_of word.now ≡ option_map Lit (lit_of word.now) }
{
    match word {
        [first, ..] => first.is_ascii_digit(),
        [] => false,
    }
}

/// Adds the literal of a word whose sign was read.
#[inline(always)]
#[tactic(auto, unfolding(crate::specs::Reading::further_of))]
fn take_literal(draft: &mut Draft<HashSeed>, minus: bool, word: &[u8]) -> Result<(), ReadFault>
    requires { atom_of word.now ≡ option_map Lit (lit_of word.now) }
    ensures { Takes result (further_of minus word.now) (with_one draft.old) draft.new }
{
    let Some(number) = read_lit(word) else {
        return Err(ReadFault::Bad);
    };
    let Some(literal) = Literal::new(minus, number) else {
        return Err(ReadFault::Bad);
    };
    draft.literal(literal)?;
    Ok(())
}

/// `take_term` for a word that isn't a declared read where the cache last found one. Most of these
/// words are literals, and only other words are passed to a function that isn't inlined.
#[inline(always)]
fn take_other(draft: &mut Draft<HashSeed>, minus: bool, word: &[u8]) -> Result<(), ReadFault>
    ensures { Takes result (further_of minus word.now) (with_one draft.old) draft.new }
{
    if is_number(word) {
        return take_literal(draft, minus, word);
    }
    take_named(draft, minus, word)
}

/// Adds the term of a word whose sign was read. A declared read that is where the cache last found
/// it is compared in place.
#[inline(always)]
pub(crate) fn take_term(
    draft: &mut Draft<HashSeed>,
    minus: bool,
    word: &PackedWord<'_>,
) -> Result<(), ReadFault>
    ensures { Takes result (further_of minus word.now) (with_one draft.old) draft.new }
{
    if draft.read_again(minus, word)? {
        return Ok(());
    }
    take_other(draft, minus, word.bytes())
}

/// Adds the first term, whose sign is part of the word.
#[tactic(auto, unfolding(crate::specs::Reading::first_of, crate::specs::Reading::further_of))]
fn take_first(draft: &mut Draft<HashSeed>, word: &PackedWord<'_>) -> Result<(), ReadFault>
    ensures { Takes result (first_of word.now) (with_one draft.old) draft.new }
{
    match word.bytes() {
        [] => Err(ReadFault::Bad),
        [first, atom @ ..] => {
            if *first == b'-' {
                take_term(draft, true, &PackedWord::new(atom))
            } else {
                take_term(draft, false, word)
            }
        }
    }
}

/// What ends a sum, after its last term.
#[inline(always)]
fn read_end(words: &mut Words) -> Option<Stop>
    ensures { MatchOption result (end_of words.old ≡ None)
        (λ stop. end_of words.old ≡ Some ([], ending stop words.new)) }
{
    match words.next() {
        None => Some(Stop::End),
        Some(word) => read_stop(word),
    }
}

/// Adds further terms, and returns what ends them.
fn read_terms(draft: &mut Draft<HashSeed>, words: &mut Words) -> Result<Stop, ReadFault>
    ensures { TakesTerms result (terms_of words.old) words.new draft.old draft.new }
{
    let mut ahead = words.fork();
    'terms: while let Some(minus) = ahead.next_sign() {
        let Some(word) = ahead.next_packed() else {
            return Err(ReadFault::Bad);
        };
        take_term(draft, minus, &word)?;
    }
    let Some(stop) = read_end(&mut ahead) else {
        return Err(ReadFault::Bad);
    };
    *words = ahead;
    Ok(stop)
}

/// Adds the sum at the beginning of the words, and returns what ends it.
pub fn read_sum(draft: &mut Draft<HashSeed>, words: &mut Words) -> Result<Stop, ReadFault>
    ensures { TakesTerms result (sum_from words.old) words.new draft.old draft.new }
{
    let Some(word) = words.next_packed() else {
        return Err(ReadFault::Bad);
    };
    take_first(draft, &word)?;
    read_terms(draft, words)
}

/// Adds the sum that the words spell.
#[tactic(auto, using(crate::proofs::TermLoops::last_fails))]
pub fn read_last_sum(draft: &mut Draft<HashSeed>, words: &mut Words) -> Result<(), ReadFault>
    ensures { Takes result (last_sum words.old) (with_terms draft.old) draft.new }
{
    match read_sum(draft, words)? {
        Stop::End => Ok(()),
        Stop::When | Stop::Compared(_) => Err(ReadFault::Bad),
    }
}
