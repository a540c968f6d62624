//! Sums and conditions, read without looking for the ends of lines first.

ghost use Rattle.std.specs.Prelude.{◌≡◌, ◌≤◌, ◌<◌, ◌++◌, ◌∷◌, IfSome, length, drop};
ghost use Rattle.bohm_text.specs.Print.{cmp_word};
ghost use Rattle.bohm_text.specs.Transactions.{CondRead, FirstRead, SumRead, TermRead};
ghost use Rattle.bohm_text.specs.Transactions.{further_sign, word_sign};

use crate::fixed_words::behind;
use crate::sums::take_term;
use crate::word_ends::{word_end, word_of};
use bohm_log::{Draft, HashSeed};
use bohm_types::Cmp;

/// Adds the term after its sign.
#[inline(always)]
fn take_term_at<'a>(draft: &mut Draft<HashSeed>, minus: bool, text: &'a [u8]) -> Option<&'a [u8]>
    ensures { IfSome result (λ rest. TermRead minus text.now rest.now draft.old draft.new) }
{
    let end = word_end(text);
    let word = word_of(text, end);
    match take_term(draft, minus, &word) {
        Ok(()) => Some(&text[end..]),
        Err(_) => None,
    }
}

/// The sign of a sum's first term, which is part of its word, and the text after it.
#[inline(always)]
fn first_sign<'a>(text: &'a [u8]) -> (bool, &'a [u8])
    ensures { text.now ≡ word_sign result.0 ++ result.1.now }
{
    match text {
        [b'-', rest @ ..] => (true, rest),
        _ => (false, text),
    }
}

/// Adds a sum's first term.
#[inline(always)]
fn take_first_at<'a>(draft: &mut Draft<HashSeed>, text: &'a [u8]) -> Option<&'a [u8]>
    ensures { IfSome result (λ rest. FirstRead text.now rest.now draft.old draft.new) }
{
    let (minus, atom) = first_sign(text);
    take_term_at(draft, minus, atom)
}

/// The sign of a further term, and the text after it.
#[inline(always)]
fn sign_at<'a>(text: &'a [u8]) -> Option<(bool, &'a [u8])>
    ensures { IfSome result (λ r. text.now ≡ further_sign r.0 ++ r.1.now) }
{
    match text {
        [b' ', b'+', b' ', rest @ ..] => Some((false, rest)),
        [b' ', b'-', b' ', rest @ ..] => Some((true, rest)),
        _ => None,
    }
}

/// Adds the terms of the sum here.
#[inline(always)]
fn take_terms<'a>(draft: &mut Draft<HashSeed>, text: &'a [u8]) -> Option<&'a [u8]>
    ensures { IfSome result (λ rest. SumRead text.now rest.now draft.old draft.new) }
{
    let Some(first) = behind(b" ", text) else {
        return None;
    };
    let Some(others) = take_first_at(draft, first) else {
        return None;
    };
    let mut rest = others;
    'terms: while let Some((minus, term)) = sign_at(rest) {
        let Some(others) = take_term_at(draft, minus, term) else {
            return None;
        };
        rest = others;
    }
    Some(rest)
}

/// Adds the sum here, and returns its length in bytes. A length is returned in a register, where a
/// slice would go through memory.
#[inline(never)]
fn take_sum_size(draft: &mut Draft<HashSeed>, text: &[u8]) -> Option<usize>
    ensures inside { IfSome result (λ size. size ≤ length text.now) }
    ensures read { IfSome result
        (λ size. SumRead text.now (drop size text.now) draft.old draft.new) }
{
    let Some(rest) = take_terms(draft, text) else {
        return None;
    };
    Some(text.len() - rest.len())
}

/// Adds the sum here.
#[inline(always)]
pub(crate) fn take_sum<'a>(draft: &mut Draft<HashSeed>, text: &'a [u8]) -> Option<&'a [u8]>
    ensures { IfSome result (λ rest. SumRead text.now rest.now draft.old draft.new) }
{
    let Some(size) = take_sum_size(draft, text) else {
        return None;
    };
    Some(&text[size..])
}

/// A comparison after a space, and the text after it.
#[inline(always)]
fn cmp_at<'a>(text: &'a [u8]) -> Option<(Cmp, &'a [u8])>
    ensures { IfSome result (λ r. text.now ≡ 32 ∷ cmp_word r.0 ++ r.1.now) }
{
    match text {
        [b' ', b'>', b'=', rest @ ..] => Some((Cmp::Ge, rest)),
        [b' ', b'>', rest @ ..] => Some((Cmp::Gt, rest)),
        [b' ', b'<', b'=', rest @ ..] => Some((Cmp::Le, rest)),
        [b' ', b'<', rest @ ..] => Some((Cmp::Lt, rest)),
        [b' ', b'=', rest @ ..] => Some((Cmp::Eq, rest)),
        _ => None,
    }
}

/// Adds both sums of a condition, which begins with a space.
#[inline(always)]
pub(crate) fn take_cond<'a>(draft: &mut Draft<HashSeed>, text: &'a [u8]) -> Option<(Cmp, &'a [u8])>
    requires { length draft.old.done < 2 }
    ensures { IfSome result (λ r. CondRead r.0 text.now r.1.now draft.old draft.new) }
{
    let Some(left) = take_sum(draft, text) else {
        return None;
    };
    let Some((cmp, right)) = cmp_at(left) else {
        return None;
    };
    let Ok(()) = draft.next_sum() else {
        return None;
    };
    let Some(rest) = take_sum(draft, right) else {
        return None;
    };
    Some((cmp, rest))
}

/// `take_cond` for a guard. It isn't inlined, since few statements have a guard.
#[inline(never)]
pub(crate) fn take_guard<'a>(draft: &mut Draft<HashSeed>, text: &'a [u8]) -> Option<(Cmp, &'a [u8])>
    requires { length draft.old.done < 2 }
    ensures { IfSome result (λ r. CondRead r.0 text.now r.1.now draft.old draft.new) }
{
    take_cond(draft, text)
}
