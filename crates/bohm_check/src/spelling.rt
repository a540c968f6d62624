//! How much of a word matches a kind of word.

use bohm_types::{GREATEST_LITERAL, LONGEST_NAME};

/// A kind of word.
#[derive(Clone, Copy)]
pub enum Spelling {
    /// One of these.
    OneOf(&'static [&'static [u8]]),
    Key,
    Local,
    /// A whole number with its sign.
    Number,
    /// A literal, a key or a local.
    Atom,
    /// An atom after ` - `, which isn't 0.
    TakenAtom,
    /// An atom, or a minus and one that isn't 0.
    FirstTerm,
}

/// How much of a word matches.
#[derive(Clone, Copy, Debug, PartialEq, Eq)]
pub struct Fit {
    /// The length of the word's longest prefix that begins a word of the kind.
    pub good: usize,
    /// Whether it is a word of the kind.
    pub is_whole: bool,
}

impl Fit {
    const NONE: Fit = Fit {
        good: 0,
        is_whole: false,
    };

    /// The fit with this many more bytes before it.
    fn behind(self, bytes: usize) -> Fit {
        Fit {
            good: self.good.saturating_add(bytes),
            ..self
        }
    }

    fn or(self, other: Fit) -> Fit {
        if other.is_whole || !self.is_whole && other.good > self.good {
            other
        } else {
            self
        }
    }
}

/// How much of the word matches, for the kind that matches most.
pub fn best_fit(spellings: &[Spelling], word: &[u8]) -> Fit {
    let mut best = Fit::NONE;
    for spelling in spellings {
        best = best.or(fit_of(*spelling, word));
    }
    best
}

fn fit_of(spelling: Spelling, word: &[u8]) -> Fit {
    match spelling {
        Spelling::OneOf(words) => {
            let mut best = Fit::NONE;
            for fixed in words {
                best = best.or(fit_fixed(fixed, word));
            }
            best
        }
        Spelling::Key => fit_name(word),
        Spelling::Local => fit_local(word),
        Spelling::Number => match word {
            [b'-', digits @ ..] => fit_negative(digits, GREATEST_LITERAL + 1).behind(1),
            _ => fit_digits(word, GREATEST_LITERAL),
        },
        Spelling::Atom => fit_atom(word),
        Spelling::TakenAtom => fit_taken(word),
        Spelling::FirstTerm => match word {
            [b'-', atom @ ..] => fit_taken(atom).behind(1),
            _ => fit_atom(word),
        },
    }
}

fn fit_fixed(fixed: &[u8], word: &[u8]) -> Fit {
    let mut good: usize = 0;
    for (byte, other) in fixed.iter().zip(word.iter()) {
        if *byte != *other {
            break;
        }
        good = good.saturating_add(1);
    }
    Fit {
        good,
        is_whole: word == fixed,
    }
}

pub fn is_name_byte(byte: u8) -> bool {
    byte.is_ascii_lowercase() || byte.is_ascii_digit() || byte == b'_'
}

fn fit_name(word: &[u8]) -> Fit {
    if !word.first().is_some_and(|byte| byte.is_ascii_lowercase()) {
        return Fit::NONE;
    }
    let end = word
        .iter()
        .position(|byte| !is_name_byte(*byte))
        .unwrap_or(word.len());
    Fit {
        good: end.min(LONGEST_NAME),
        is_whole: end == word.len() && end <= LONGEST_NAME,
    }
}

fn fit_local(word: &[u8]) -> Fit {
    match word {
        [b'$', name @ ..] => fit_name(name).behind(1),
        _ => Fit::NONE,
    }
}

/// Digits up to a limit, without a leading zero.
fn fit_digits(word: &[u8], limit: u64) -> Fit {
    if word.first() == Some(&b'0') {
        return Fit {
            good: 1,
            is_whole: word.len() == 1,
        };
    }
    let mut good: usize = 0;
    let mut number: u64 = 0;
    for byte in word {
        let Some(next) = with_digit(number, *byte, limit) else {
            return Fit {
                good,
                is_whole: false,
            };
        };
        number = next;
        good = good.saturating_add(1);
    }
    Fit {
        good,
        is_whole: good > 0,
    }
}

/// The number with one more digit, if that is at most the limit.
fn with_digit(number: u64, byte: u8, limit: u64) -> Option<u64> {
    if !byte.is_ascii_digit() {
        return None;
    }
    let next = u128::from(number) * 10 + u128::from(byte - b'0');
    if next <= u128::from(limit) {
        Some(next as u64)
    } else {
        None
    }
}

/// Digits after a minus, which aren't 0.
fn fit_negative(digits: &[u8], limit: u64) -> Fit {
    if digits.first() == Some(&b'0') {
        Fit::NONE
    } else {
        fit_digits(digits, limit)
    }
}

fn fit_atom(word: &[u8]) -> Fit {
    match word.first() {
        Some(b'$') => fit_local(word),
        Some(byte) if byte.is_ascii_digit() => fit_digits(word, GREATEST_LITERAL),
        _ => fit_name(word),
    }
}

fn fit_taken(word: &[u8]) -> Fit {
    match word.first() {
        Some(byte) if byte.is_ascii_digit() => fit_negative(word, GREATEST_LITERAL),
        _ => fit_atom(word),
    }
}
