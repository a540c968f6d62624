//! The keys that a transaction declares, read without looking for the ends of lines first.

ghost use Rattle.std.specs.Prelude.{◌≡◌, [], IfSome};
ghost use Rattle.bohm_log.specs.Drafting.{IsBare, fresh, with_write};
ghost use Rattle.bohm_text.specs.Transactions.{KeysRead, declared};

use crate::fixed_words::behind;
use crate::word_ends::{word_end, word_of};
use bohm_log::{Draft, HashSeed};
use bohm_types::{Key, PackedWord};

/// Declares the keys up to the line's end as read.
pub(crate) fn take_reads<'a>(draft: &mut Draft<HashSeed>, text: &'a [u8]) -> Option<&'a [u8]>
    requires { draft.old ≡ fresh draft.old.txn.edition }
    ensures { IfSome result (λ rest. KeysRead text.now rest.now draft.new.txn.reads
        × (draft.new ≡ declared draft.old.txn.edition draft.new.txn.reads [])) }
{
    let mut rest = text;
    'keys: while let Some(front) = behind(b" ", rest) {
        let end = word_end(front);
        let word = word_of(front, end);
        let Some(key) = Key::of_word(&word) else {
            return None;
        };
        let Ok(()) = draft.read(key) else {
            return None;
        };
        rest = &front[end..];
    }
    Some(rest)
}

/// Declares the key that a word spells as written. It has no effect where it fails.
#[inline(always)]
fn take_write(draft: &mut Draft<HashSeed>, word: &PackedWord<'_>) -> Option<()>
    requires { IsBare draft.old }
    ensures { IfSome result (λ _. draft.new ≡ with_write draft.old word.now) }
{
    match draft.write_again(word) {
        Ok(true) => Some(()),
        Ok(false) => {
            let key = Key::of_word(word)?;
            draft.write(key).ok()
        }
        Err(_) => None,
    }
}

/// Declares the keys up to the line's end as written.
pub(crate) fn take_writes<'a>(draft: &mut Draft<HashSeed>, text: &'a [u8]) -> Option<&'a [u8]>
    requires { draft.old ≡ declared draft.old.txn.edition draft.old.txn.reads [] }
    ensures { IfSome result (λ rest. KeysRead text.now rest.now draft.new.txn.writes
        × (draft.new
        ≡ declared draft.old.txn.edition draft.old.txn.reads draft.new.txn.writes)) }
{
    let mut rest = text;
    'keys: while let Some(front) = behind(b" ", rest) {
        let end = word_end(front);
        let word = word_of(front, end);
        let Some(()) = take_write(draft, &word) else {
            return None;
        };
        rest = &front[end..];
    }
    Some(rest)
}
