//! The words that end a sum.

ghost use Rattle.std.specs.Prelude.{◌≡◌};
ghost use Rattle.bohm_text.specs.Reading.{cmp_of, stop_of};

use crate::fixed_words::is_word;
use bohm_types::Cmp;

/// What follows a sum.
#[derive(Clone, Copy, Debug, PartialEq, Eq)]
pub enum Stop {
    /// The end of the line.
    End,
    When,
    Compared(Cmp),
}

#[tactic(auto, unfolding(crate::specs::Reading::cmp_of))]
fn read_cmp(word: &[u8]) -> Option<Cmp>
    ensures { result ≡ cmp_of word.now }
{
    if is_word(word, b"<") {
        Some(Cmp::Lt)
    } else if is_word(word, b"<=") {
        Some(Cmp::Le)
    } else if is_word(word, b"=") {
        Some(Cmp::Eq)
    } else if is_word(word, b">=") {
        Some(Cmp::Ge)
    } else if is_word(word, b">") {
        Some(Cmp::Gt)
    } else {
        None
    }
}

/// The word that ends a sum.
#[tactic(auto, unfolding(crate::specs::Reading::stop_of))]
pub fn read_stop(word: &[u8]) -> Option<Stop>
    ensures { result ≡ stop_of word.now }
{
    if is_word(word, b"when") {
        Some(Stop::When)
    } else {
        Some(Stop::Compared(read_cmp(word)?))
    }
}
