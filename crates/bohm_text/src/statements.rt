//! Statements and other lines that are read word by word.

ghost use Rattle.std.specs.Prelude.{◌≡◌, ◌∷◌, [], codes, MatchOption, true, false, List, ℕ};
ghost use Rattle.std.specs.Prelude.{Option, None};
ghost use Rattle.std.specs.Option.{option_map};
ghost use Rattle.bohm_types.specs.Stmt.{Need, Show, Stmt};
ghost use Rattle.bohm_log.specs.Drafting.{IsBare, IsBetween};
ghost use Rattle.bohm_text.specs.Cut.{split};
ghost use Rattle.bohm_text.specs.Reading.{Gives, keys_of, local_of, after, last_sum};
ghost use Rattle.bohm_text.specs.Reading.{assigned_of, bind_of, put_of, presence_of, need_of};
ghost use Rattle.bohm_text.specs.Reading.{cond_of, remove_of, fail_of, stmt_of, entry_of};
ghost use Rattle.bohm_text.specs.Taking.{Takes, TakesStmt, with_reads, with_terms, with_writes};
ghost use Rattle.bohm_text.specs.Targets.{StandsIn, name_in};
ghost use Rattle.bohm_text.specs.Verbs.{other_of};

use crate::conditions::read_cond;
use crate::fault::ReadFault;
use crate::fixed_words::{behind_need, behind_set, is_word};
use crate::numbers::read_number;
use crate::stops::Stop;
use crate::sums::{read_last_sum, read_sum};
use crate::targets::{Target, read_target};
use crate::words::Words;
use bohm_log::{Draft, HashSeed};
use bohm_types::{Key, Value};

fn read_local(word: &[u8]) -> Option<Key>
    ensures { result ≡ local_of word.now }
{
    match word {
        [b'$', name @ ..] => Key::new(name),
        _ => None,
    }
}

/// Adds the sum after an equals sign.
fn read_bound(draft: &mut Draft<HashSeed>, words: &mut Words) -> Result<(), ReadFault>
    ensures { Takes result (after (codes "=") last_sum words.old) (with_terms draft.old) draft.new }
{
    match words.next() {
        Some(word) if is_word(word, b"=") => read_last_sum(draft, words),
        _ => Err(ReadFault::Bad),
    }
}

#[tactic(auto, unfolding(crate::specs::Reading::bind_of))]
fn read_bind(draft: &mut Draft<HashSeed>, words: &mut Words) -> Result<(), ReadFault>
    requires { IsBetween draft.old }
    ensures { TakesStmt result (bind_of words.old) draft.old draft.new }
{
    let Some(word) = words.next() else {
        return Err(ReadFault::Bad);
    };
    let name = read_local(word).ok_or(ReadFault::Bad)?;
    read_bound(draft, words)?;
    draft.bind(name)?;
    Ok(())
}

/// Adds the statement that sets the key to a sum, with its guard, if any.
fn read_assigned(
    draft: &mut Draft<HashSeed>,
    target: &Target<'_>,
    words: &mut Words,
) -> Result<(), ReadFault>
    requires between { IsBetween draft.old }
    requires stands { StandsIn target.now draft.old.txn.writes }
    ensures { TakesStmt result (assigned_of (name_in target.now) words.old) draft.old draft.new }
{
    match read_sum(draft, words)? {
        Stop::End => target.put(draft)?,
        Stop::When => {
            draft.next_sum()?;
            let cmp = read_cond(draft, words)?;
            target.put_when(draft, cmp)?;
        }
        Stop::Compared(_) => return Err(ReadFault::Bad),
    }
    Ok(())
}

/// Takes the next word, and returns whether it is an equals sign.
#[inline(always)]
fn read_equals(words: &mut Words) -> bool
    ensures taken { result ≡ true → words.old ≡ codes "=" ∷ words.new }
    ensures other { result ≡ false → (read : List (List ℕ) → Option Stmt)
        → after (codes "=") read words.old ≡ None }
{
    if words.take_equals() {
        return true;
    }
    match words.next() {
        Some(word) => is_word(word, b"="),
        None => false,
    }
}

#[tactic(auto, unfolding(crate::specs::Reading::put_of))]
fn read_put(draft: &mut Draft<HashSeed>, words: &mut Words) -> Result<(), ReadFault>
    requires { IsBetween draft.old }
    ensures { TakesStmt result (put_of words.old) draft.old draft.new }
{
    let Some(word) = words.next_packed() else {
        return Err(ReadFault::Bad);
    };
    let Some(target) = read_target(draft, &word) else {
        return Err(ReadFault::Bad);
    };
    if read_equals(words) {
        read_assigned(draft, &target, words)
    } else {
        Err(ReadFault::Bad)
    }
}

#[tactic(auto, unfolding(crate::specs::Reading::presence_of))]
fn read_presence(draft: &mut Draft<HashSeed>, word: &[u8], name: &[u8]) -> Result<(), ReadFault>
    requires { IsBetween draft.old }
    ensures { TakesStmt result (presence_of word.now name.now) draft.old draft.new }
{
    let key = Key::new(name).ok_or(ReadFault::Bad)?;
    if is_word(word, b"has") {
        draft.has(key)?;
    } else if is_word(word, b"no") {
        draft.lacks(key)?;
    } else {
        return Err(ReadFault::Bad);
    }
    Ok(())
}

/// The two words of a test of a key's presence, if there are no others.
#[tactic(auto, using(crate::proofs::Needs::no_words, crate::proofs::Needs::one_word))]
fn test_in<'a>(words: &Words<'a>) -> Option<(&'a [u8], &'a [u8])>
    ensures { MatchOption result (need_of words.now ≡ option_map Need (cond_of words.now))
        (λ test. words.now ≡ test.0.now ∷ test.1.now ∷ []) }
{
    if !words.begins_test() {
        return None;
    }
    let mut ahead = words.fork();
    let word = ahead.next()?;
    let name = ahead.next()?;
    match ahead.next() {
        None => Some((word, name)),
        Some(_) => None,
    }
}

/// Two words after `need` test a key's presence; more words are a condition.
fn read_need(draft: &mut Draft<HashSeed>, words: &mut Words) -> Result<(), ReadFault>
    requires { IsBetween draft.old }
    ensures { TakesStmt result (need_of words.old) draft.old draft.new }
{
    if let Some((word, name)) = test_in(words) {
        return read_presence(draft, word, name);
    }
    let cmp = read_cond(draft, words)?;
    draft.need(cmp)?;
    Ok(())
}

fn read_show(draft: &mut Draft<HashSeed>, words: &mut Words) -> Result<(), ReadFault>
    requires { IsBetween draft.old }
    ensures { TakesStmt result (option_map Show (last_sum words.old)) draft.old draft.new }
{
    read_last_sum(draft, words)?;
    draft.show()?;
    Ok(())
}

#[tactic(auto, unfolding(crate::specs::Reading::remove_of))]
fn read_remove(draft: &mut Draft<HashSeed>, words: &mut Words) -> Result<(), ReadFault>
    requires { IsBetween draft.old }
    ensures { TakesStmt result (remove_of words.old) draft.old draft.new }
{
    let (Some(name), None) = (words.next(), words.next()) else {
        return Err(ReadFault::Bad);
    };
    let key = Key::new(name).ok_or(ReadFault::Bad)?;
    draft.remove(key)?;
    Ok(())
}

#[tactic(auto, unfolding(crate::specs::Reading::fail_of))]
fn read_fail(draft: &mut Draft<HashSeed>, words: &mut Words) -> Result<(), ReadFault>
    requires { IsBetween draft.old }
    ensures { TakesStmt result (fail_of words.old) draft.old draft.new }
{
    match words.next() {
        None => draft.fail()?,
        Some(_) => return Err(ReadFault::Bad),
    }
    Ok(())
}

/// Adds the statement that the words spell, if its verb is neither `set` nor `need`. It isn't
/// inlined, since few statements have other verbs.
#[inline(never)]
#[tactic(auto, unfolding(crate::specs::Verbs::other_of))]
fn read_other(draft: &mut Draft<HashSeed>, words: &mut Words) -> Result<(), ReadFault>
    requires { IsBetween draft.old }
    ensures { TakesStmt result (other_of words.old) draft.old draft.new }
{
    let Some(verb) = words.next() else {
        return Err(ReadFault::Bad);
    };
    if is_word(verb, b"let") {
        read_bind(draft, words)
    } else if is_word(verb, b"show") {
        read_show(draft, words)
    } else if is_word(verb, b"drop") {
        read_remove(draft, words)
    } else if is_word(verb, b"fail") {
        read_fail(draft, words)
    } else {
        Err(ReadFault::Bad)
    }
}

/// Adds the statement that the line spells. After an `Err` the draft may hold part of it. `set` and
/// `need`, the verbs of most statements, are compared in place.
#[tactic(auto, using(crate::proofs::Verbs::other_verb), unfolding(crate::specs::Reading::stmt_of))]
pub fn read_stmt(draft: &mut Draft<HashSeed>, line: &[u8]) -> Result<(), ReadFault>
    requires { IsBetween draft.old }
    ensures { TakesStmt result (stmt_of (split 32 line.now)) draft.old draft.new }
{
    if let Some(words) = behind_set(line) {
        return read_put(draft, &mut Words::of(words));
    }
    if let Some(words) = behind_need(line) {
        return read_need(draft, &mut Words::of(words));
    }
    read_other(draft, &mut Words::of(line))
}

/// Reads a key of the store and its value.
#[tactic(auto, unfolding(crate::specs::Reading::entry_of))]
pub fn read_entry(words: &mut Words) -> Result<(Key, Value), ReadFault>
    ensures { Gives result (entry_of words.old) }
{
    let (Some(name), Some(digits), None) = (words.next(), words.next(), words.next()) else {
        return Err(ReadFault::Bad);
    };
    let key = Key::new(name).ok_or(ReadFault::Bad)?;
    let number = read_number(digits).ok_or(ReadFault::Bad)?;
    Ok((key, Value::from(number)))
}

/// Declares the keys that the words spell as read.
pub fn read_reads(draft: &mut Draft<HashSeed>, words: &mut Words) -> Result<(), ReadFault>
    requires { IsBare draft.old }
    ensures { Takes result (keys_of words.old) (with_reads draft.old) draft.new }
{
    'words: while let Some(word) = words.next_packed() {
        let Some(key) = Key::of_word(&word) else {
            return Err(ReadFault::Bad);
        };
        draft.read(key)?;
    }
    Ok(())
}

/// Declares the keys that the words spell as written.
pub fn read_writes(draft: &mut Draft<HashSeed>, words: &mut Words) -> Result<(), ReadFault>
    requires { IsBare draft.old }
    ensures { Takes result (keys_of words.old) (with_writes draft.old) draft.new }
{
    'words: while let Some(word) = words.next_packed() {
        if !draft.write_again(&word)? {
            let Some(key) = Key::of_word(&word) else {
                return Err(ReadFault::Bad);
            };
            draft.write(key)?;
        }
    }
    Ok(())
}
