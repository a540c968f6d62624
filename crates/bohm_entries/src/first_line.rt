//! The first line of an entry.

ghost use Rattle.std.specs.Prelude.{◌≡◌, ◌∷◌, true, MatchOption, Option, None, option_map, IfSome, List, ℕ};
ghost use Rattle.bohm_entries.specs.Ids.{is_id};
ghost use Rattle.bohm_text.specs.Cut.{split};
ghost use Rattle.bohm_entries.specs.FirstLines.{IsRest, has_mark, line_words, word_of};
ghost use Rattle.bohm_entries.specs.declared.first_line.Kind.{Kind as TheKind};

use crate::ids::is_id;
use bohm_text::Words;

/// What an entry is.
#[derive(Clone, Copy, Debug, PartialEq, Eq)]
pub enum Kind {
    /// `define NAME`, then a procedure's text.
    Define,
    /// `call NAME ARG..`
    Call,
    /// `txn`, then a transaction's lines up to `end`.
    Transaction,
}

/// The first line of an entry.
#[derive(Drop)]
pub struct FirstLine<'a> {
    pub kind: Kind,
    /// The id, which is 1 to 64 bytes of `!` to `~`.
    pub id: Option<&'a [u8]>,
    /// The words after the kind and the id.
    pub rest: Words<'a>,
}

fn kind_of(word: &[u8]) -> Option<Kind>
    ensures { MatchOption result ((kind : TheKind) → ¬ (word.now ≡ word_of kind)) (λ kind. word.now ≡ word_of kind) }
{
    match word {
        b"define" => Some(Kind::Define),
        b"call" => Some(Kind::Call),
        b"txn" => Some(Kind::Transaction),
        _ => None,
    }
}

/// The id that a word spells: `#`, and the id.
fn marked_id(word: &[u8]) -> Option<&[u8]>
    ensures { MatchOption result ((id : List ℕ) → is_id id ≡ true → ¬ (word.now ≡ 35 ∷ id)) (λ id. (word.now ≡ 35 ∷ id.now) × (is_id id.now ≡ true)) }
{
    match word {
        [b'#', id @ ..] if is_id(id) => Some(id),
        _ => None,
    }
}

fn has_mark(word: &[u8]) -> bool
    ensures { result ≡ has_mark word.now }
{
    matches!(word, [b'#', ..])
}

/// The kind and the id of an entry's first line, and the words after them. `None` where the line
/// begins with no kind, or with a kind and a `#` that begins no id.
pub fn read_first_line(line: &[u8]) -> Option<FirstLine<'_>>
    ensures read { IfSome result (λ it. split 32 line.now ≡ line_words it.kind (option_map (λ id. id.now) it.id) it.rest) }
    ensures id { IfSome result (λ it. IsRest (option_map (λ id. id.now) it.id) it.rest) }
    ensures none { (kind : TheKind) (id : Option (List ℕ)) (rest : List (List ℕ)) → result ≡ None → IsRest id rest
        → ¬ (split 32 line.now ≡ line_words kind id rest) }
{
    let mut words = Words::of(line);
    let kind = kind_of(words.next()?)?;
    let mut ahead = words.fork();
    match ahead.next() {
        Some(word) if has_mark(word) => {
            let id = marked_id(word)?;
            Some(FirstLine {
                kind,
                id: Some(id),
                rest: ahead,
            })
        }
        _ => Some(FirstLine {
            kind,
            id: None,
            rest: words,
        }),
    }
}
