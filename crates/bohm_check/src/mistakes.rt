//! Common mistakes that have their own messages.

use crate::grammar::{Halt, Place, State, SumEnd};
use crate::spelling::is_name_byte;
use bohm_types::LONGEST_NAME;

/// A mistake with its own message.
#[derive(Clone, Copy, Debug, PartialEq, Eq)]
pub enum Mistake {
    ByteOrderMark,
    EmptyLine,
    Comment,
    Tab,
    CarriageReturn,
    BlankAtBegin,
    BlankAtEnd,
    TwoBlanks,
    Capital,
    DoubledEquals,
    Unequal,
    Connective,
    AddedTo,
    IfForWhen,
    IfStatement,
    TestInGuard,
    Parenthesis,
    Product,
    MinusApart,
    ForeignMinus,
    LeadingZero,
    MinusZero,
    LargeNumber,
    LongName,
    MissingEnd,
    /// A byte that occurs in no log.
    ForeignByte,
    /// The line ends where more must follow.
    TooShort,
    /// Any other byte, in a word or at its beginning.
    Word,
}

/// The bytes that editors put before a text.
pub const BYTE_ORDER_MARK: &[u8] = b"\xEF\xBB\xBF";

/// Whether bytes begin with a minus or a dash that isn't the one of a keyboard.
pub fn begins_with_dash(bytes: &[u8]) -> bool {
    bytes.starts_with(b"\xE2\x88\x92") || bytes.starts_with(b"\xE2\x80\x93")
}

/// Whether the first byte that isn't a space begins a comment.
fn is_comment(bytes: &[u8]) -> bool {
    match bytes.iter().position(|byte| *byte != b' ') {
        Some(at) => match bytes.get(at..) {
            Some([b'#', ..] | [b'/', b'/', ..]) => true,
            _ => false,
        },
        None => false,
    }
}

impl Mistake {
    /// The mistake at the byte where a line stops being valid at a place.
    pub fn at(place: Place, line: &[u8], halt: Halt) -> Mistake {
        if line.is_empty() {
            return Mistake::EmptyLine;
        }
        if line.starts_with(BYTE_ORDER_MARK) {
            return Mistake::ByteOrderMark;
        }
        if place == Place::Body && line == b"txn".as_slice() {
            return Mistake::MissingEnd;
        }
        let (before, behind) = line
            .split_at_checked(halt.offset)
            .unwrap_or((line, b"".as_slice()));
        match Mistake::of_word(before, behind, halt.state) {
            Some(mistake) => mistake,
            None => match behind {
                [] if before.last() == Some(&b' ') => Mistake::BlankAtEnd,
                [] => Mistake::TooShort,
                [byte, others @ ..] => Mistake::of_byte(before, *byte, others, halt.state),
            },
        }
    }

    /// The mistake of an operator of other languages, given the bytes of the line before it and
    /// from it on.
    fn of_word(before: &[u8], behind: &[u8], state: State) -> Option<Mistake> {
        let word = first_word(behind);
        if begins_with_dash(behind) {
            return Some(Mistake::ForeignMinus);
        }
        if word.starts_with(b"!=")
            || word.starts_with(b"<>")
            || word == b">".as_slice() && before.ends_with(b"<")
        {
            return Some(Mistake::Unequal);
        }
        if before.ends_with(b" when has ") || before.ends_with(b" when no ") {
            return Some(Mistake::TestInGuard);
        }
        match state {
            State::SetEquals if word == b"+=".as_slice() || word == b"-=".as_slice() => {
                Some(Mistake::AddedTo)
            }
            State::Verb if word == b"if".as_slice() => Some(Mistake::IfStatement),
            State::BehindTerm(SumEnd::Guard) if word == b"if".as_slice() => {
                Some(Mistake::IfForWhen)
            }
            State::BehindTerm(_) | State::LineEnd if is_connective(word) => {
                Some(Mistake::Connective)
            }
            _ => None,
        }
    }

    /// The mistake of a byte, given those before it and those after it.
    fn of_byte(before: &[u8], byte: u8, others: &[u8], state: State) -> Mistake {
        match byte {
            b'\t' => Mistake::Tab,
            b'\r' => Mistake::CarriageReturn,
            b'#' => Mistake::Comment,
            b'/' if others.first() == Some(&b'/') => Mistake::Comment,
            b' ' if others.iter().all(|other| *other == b' ') => Mistake::BlankAtEnd,
            b' ' if before.is_empty() => Mistake::BlankAtBegin,
            b' ' if is_comment(others) => Mistake::Comment,
            b' ' if before.last() == Some(&b' ') => Mistake::TwoBlanks,
            b' ' if before.last() == Some(&b'-') && state.takes_number() => Mistake::MinusApart,
            b'A'..=b'Z' => Mistake::Capital,
            b'*' | b'/' | b'%' => Mistake::Product,
            b'(' | b')' => Mistake::Parenthesis,
            b'=' if before.last() == Some(&b'=') => Mistake::DoubledEquals,
            b'0'..=b'9' if state.takes_number() => Mistake::of_digit(before, byte),
            _ if is_name_byte(byte) && name_before(before) == LONGEST_NAME => Mistake::LongName,
            32..=126 => Mistake::Word,
            _ => Mistake::ForeignByte,
        }
    }

    /// The mistake of a digit where a number may have a digit, but not this one.
    fn of_digit(before: &[u8], byte: u8) -> Mistake {
        match before.last() {
            Some(b'0') if digits_before(before) == 1 => Mistake::LeadingZero,
            Some(b'-' | b' ') if byte == b'0' => Mistake::MinusZero,
            _ if digits_before(before) > 0 => Mistake::LargeNumber,
            _ => Mistake::Word,
        }
    }

    /// Whether its message doesn't say what was expected.
    pub fn leaves_open(self) -> bool {
        matches!(
            self,
            Mistake::EmptyLine | Mistake::Comment | Mistake::ForeignByte | Mistake::TooShort
        )
    }

    /// The mistake's message.
    pub fn words(self) -> &'static str {
        match self {
            Mistake::ByteOrderMark => "a byte order mark precedes the text: remove it",
            Mistake::EmptyLine => "the line is empty",
            Mistake::Comment => "a comment begins here; `bohm-tidy` takes comments out",
            Mistake::Tab => "tab: separate words by one space",
            Mistake::CarriageReturn => "carriage return: a line ends with a newline alone",
            Mistake::BlankAtBegin => "the line begins with a space",
            Mistake::BlankAtEnd => "the line ends with a space",
            Mistake::TwoBlanks => "two spaces: separate words by one",
            Mistake::Capital => "names and words are lower-case",
            Mistake::DoubledEquals => "equal is written `=`, not `==`",
            Mistake::Unequal => {
                "there is no `!=`: a condition compares by `<`, `<=`, `=`, `>=` or `>`"
            }
            Mistake::Connective => {
                "a condition is one comparison: write a `need` line for each condition"
            }
            Mistake::AddedTo => "`set` takes `=` and the whole new value",
            Mistake::IfForWhen => "a condition follows `when`, not `if`",
            Mistake::IfStatement => {
                "there is no `if`: `need` aborts the transaction, `set .. when` writes on a condition"
            }
            Mistake::TestInGuard => { "`when` takes a comparison: only `need` has `has` and `no`" }
            Mistake::Parenthesis => "a sum has no calls and no parentheses",
            Mistake::Product => "a sum adds and subtracts, and has no products and quotients",
            Mistake::MinusApart => "the minus of a first number or name has no space after it",
            Mistake::ForeignMinus => "this dash isn't the minus `-`",
            Mistake::LeadingZero => "a number has no zero before its other digits",
            Mistake::MinusZero => "0 has no minus",
            Mistake::LargeNumber => {
                "the number is too large: the largest is 9223372036854775807"
            }
            Mistake::LongName => "the name is too long: the longest have 32 bytes",
            Mistake::MissingEnd => "`end` is missing: the transaction before it isn't closed",
            Mistake::ForeignByte => "this byte can't occur here",
            Mistake::TooShort => "the line ends too soon",
            Mistake::Word => "",
        }
    }
}

/// The bytes up to the first space.
fn first_word(bytes: &[u8]) -> &[u8] {
    let end = bytes
        .iter()
        .position(|byte| *byte == b' ')
        .unwrap_or(bytes.len());
    bytes.get(..end).unwrap_or(bytes)
}

/// Whether a word joins two conditions in other languages.
fn is_connective(word: &[u8]) -> bool {
    let words: [&[u8]; 4] = [b"and", b"or", b"&&", b"||"];
    words.iter().any(|other| *other == word)
}

/// The length of the name at the end of these bytes.
fn name_before(before: &[u8]) -> usize {
    let others = before.iter().rev().position(|byte| !is_name_byte(*byte));
    others.unwrap_or(before.len())
}

/// The number of digits at the end of these bytes.
fn digits_before(before: &[u8]) -> usize {
    let others = before.iter().rev().position(|byte| !byte.is_ascii_digit());
    others.unwrap_or(before.len())
}
