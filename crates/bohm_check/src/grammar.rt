//! The words that a line may have, one by one.

use crate::spelling::{Fit, Spelling, best_fit};

/// What a text is, by its first line.
#[derive(Clone, Copy, Debug, PartialEq, Eq)]
pub enum Kind {
    Log,
    Procedure,
}

impl Kind {
    /// What a text with this first line is.
    pub fn headed(line: &[u8]) -> Kind {
        if line == b"procedure 1".as_slice() || line == b"procedure 2".as_slice() {
            Kind::Procedure
        } else {
            Kind::Log
        }
    }
}

/// Which line comes next in a text.
#[derive(Clone, Copy, Debug, PartialEq, Eq)]
pub enum Place {
    Head,
    /// A parameter of a procedure, or its reads.
    Keys,
    /// A value parameter of a procedure, or its reads.
    Values,
    /// A line of the store, or the first transaction's opening.
    Store,
    /// A further transaction's opening.
    Between,
    Reads,
    Writes,
    /// A statement, or the transaction's closing.
    Body,
    /// Nothing: a procedure is closed.
    Closed,
}

impl Place {
    /// Which line comes next after a valid line.
    pub fn behind(self, kind: Kind, line: &[u8]) -> Place {
        match self {
            Place::Head if kind == Kind::Procedure => Place::Keys,
            Place::Head => Place::Store,
            Place::Keys if line.starts_with(b"key ") => Place::Keys,
            Place::Keys | Place::Values if line.starts_with(b"value ") => Place::Values,
            Place::Keys | Place::Values => Place::Writes,
            Place::Store if line != b"txn".as_slice() => Place::Store,
            Place::Store | Place::Between => Place::Reads,
            Place::Reads => Place::Writes,
            Place::Writes => Place::Body,
            Place::Body if line != b"end".as_slice() => Place::Body,
            Place::Body if kind == Kind::Procedure => Place::Closed,
            Place::Body => Place::Between,
            Place::Closed => Place::Closed,
        }
    }

    /// Whether a text may end here.
    pub fn may_end(self) -> bool {
        matches!(self, Place::Store | Place::Between | Place::Closed)
    }
}

/// What may follow a sum.
#[derive(Clone, Copy, Debug, PartialEq, Eq)]
pub enum SumEnd {
    /// The end of the line.
    Line,
    /// The end of the line, or `when`.
    Guard,
    /// A comparison.
    Comparison,
}

/// Which word comes next on a line.
#[derive(Clone, Copy, Debug, PartialEq, Eq)]
pub enum State {
    Log,
    Edition,
    /// The first word of a parameter's line, or of the reads.
    Parameter,
    ValueParameter,
    ParameterName,
    Entry,
    /// The number of a line of the store. Its key may be `txn`, which opens a transaction as well.
    Number { opens: bool },
    Opening,
    Reads,
    Writes,
    MoreKeys,
    Verb,
    SetKey,
    SetEquals,
    LetName,
    LetEquals,
    Need,
    /// After `need has` or `need no`: a key, or, where `has` or `no` is a key, what follows a sum's
    /// first term.
    Presence,
    DropKey,
    FirstTerm(SumEnd),
    BehindTerm(SumEnd),
    FurtherTerm { minus: bool, end: SumEnd },
    LineEnd,
    /// No word, and no line.
    TextEnd,
}

const CMP: Spelling = Spelling::OneOf(&[b"<", b"<=", b"=", b">=", b">"]);

const SIGN: Spelling = Spelling::OneOf(&[b"+", b"-"]);

impl State {
    /// The state before the first word of a line.
    pub fn at(place: Place) -> State {
        match place {
            Place::Head => State::Log,
            Place::Keys => State::Parameter,
            Place::Values => State::ValueParameter,
            Place::Store => State::Entry,
            Place::Between => State::Opening,
            Place::Reads => State::Reads,
            Place::Writes => State::Writes,
            Place::Body => State::Verb,
            Place::Closed => State::TextEnd,
        }
    }

    /// Whether the line may end before this word.
    pub fn may_end(self) -> bool {
        matches!(
            self,
            State::LineEnd
                | State::MoreKeys
                | State::Number { opens: true }
                | State::BehindTerm(SumEnd::Line | SumEnd::Guard)
        )
    }

    /// The spellings of the word.
    fn spellings(self) -> &'static [Spelling] {
        match self {
            State::Log => &[Spelling::OneOf(&[b"log"])],
            State::Edition => &[Spelling::OneOf(&[b"1", b"2"])],
            State::Parameter => &[Spelling::OneOf(&[b"key", b"value", b"reads"])],
            State::ValueParameter => &[Spelling::OneOf(&[b"value", b"reads"])],
            State::Entry
            | State::ParameterName
            | State::MoreKeys
            | State::SetKey
            | State::DropKey => &[Spelling::Key],
            State::Number { .. } => &[Spelling::Number],
            State::Opening => &[Spelling::OneOf(&[b"txn"])],
            State::Reads => &[Spelling::OneOf(&[b"reads"])],
            State::Writes => &[Spelling::OneOf(&[b"writes"])],
            State::Verb => &[Spelling::OneOf(&[
                b"set", b"let", b"need", b"show", b"drop", b"fail", b"end",
            ])],
            State::SetEquals | State::LetEquals => &[Spelling::OneOf(&[b"="])],
            State::LetName => &[Spelling::Local],
            State::Need | State::FirstTerm(_) => &[Spelling::FirstTerm],
            State::Presence => &[Spelling::Key, SIGN, CMP],
            State::BehindTerm(SumEnd::Line) => &[SIGN],
            State::BehindTerm(SumEnd::Guard) => &[SIGN, Spelling::OneOf(&[b"when"])],
            State::BehindTerm(SumEnd::Comparison) => &[SIGN, CMP],
            State::FurtherTerm { minus: true, .. } => &[Spelling::TakenAtom],
            State::FurtherTerm { minus: false, .. } => &[Spelling::Atom],
            State::LineEnd | State::TextEnd => &[],
        }
    }

    /// The description of the word in messages.
    pub fn called(self) -> &'static str {
        match self {
            State::Log | State::Edition => "`log 1` or `log 2`",
            State::Parameter => "a parameter (`key` or `value` and a name) or `reads` and keys",
            State::ValueParameter => "a parameter (`value` and a name) or `reads` and keys",
            State::ParameterName => "a parameter's name",
            State::Entry => "a key of the store and its number, or `txn`",
            State::Number { .. } =>
                "a whole number, from -9223372036854775808 to 9223372036854775807",
            State::Opening => "`txn`",
            State::Reads => "`reads` and the keys that the transaction reads",
            State::Writes => "`writes` and the keys that the transaction writes",
            State::MoreKeys => "a key or the line's end",
            State::Verb => "a statement (`set`, `let`, `need`, `show`, `drop` or `fail`) or `end`",
            State::SetKey | State::DropKey => "a key",
            State::SetEquals | State::LetEquals => "`=`",
            State::LetName => "a local, which is `$` and a name",
            State::Need => "`has`, `no` or a sum",
            State::Presence => "a key",
            State::FirstTerm(_) => "a sum: a number, a key or a local",
            State::FurtherTerm { .. } => "a number, a key or a local",
            State::BehindTerm(SumEnd::Line) => "`+`, `-` or the line's end",
            State::BehindTerm(SumEnd::Guard) => "`+`, `-`, `when` or the line's end",
            State::BehindTerm(SumEnd::Comparison) => "`+`, `-`, `<`, `<=`, `=`, `>=` or `>`",
            State::LineEnd => "the line's end",
            State::TextEnd => "the text's end",
        }
    }

    /// Whether the word may be a number.
    pub fn takes_number(self) -> bool {
        matches!(
            self,
            State::Number { .. } | State::Need | State::FirstTerm(_) | State::FurtherTerm { .. }
        )
    }

    /// How far a word fits here.
    pub fn fit(self, word: &[u8]) -> Fit {
        best_fit(self.spellings(), word)
    }

    /// Which word comes next after a valid word.
    pub fn behind(self, word: &[u8]) -> State {
        match self {
            State::Log => State::Edition,
            State::Edition
            | State::ParameterName
            | State::Opening
            | State::DropKey
            | State::LineEnd => State::LineEnd,
            State::TextEnd => State::TextEnd,
            State::Parameter | State::ValueParameter if word != b"reads".as_slice() => {
                State::ParameterName
            }
            State::Parameter | State::ValueParameter => State::MoreKeys,
            State::Entry => State::Number {
                opens: word == b"txn".as_slice(),
            },
            State::Number { .. } => State::LineEnd,
            State::Reads | State::Writes | State::MoreKeys => State::MoreKeys,
            State::Verb => behind_verb(word),
            State::SetKey => State::SetEquals,
            State::SetEquals => State::FirstTerm(SumEnd::Guard),
            State::LetName => State::LetEquals,
            State::LetEquals => State::FirstTerm(SumEnd::Line),
            State::Need if word == b"has".as_slice() || word == b"no".as_slice() => State::Presence,
            State::Need => State::BehindTerm(SumEnd::Comparison),
            State::Presence if word.first().is_some_and(|byte| byte.is_ascii_lowercase()) => {
                State::LineEnd
            }
            State::Presence => behind_term(SumEnd::Comparison, word),
            State::FirstTerm(end) => State::BehindTerm(end),
            State::BehindTerm(end) => behind_term(end, word),
            State::FurtherTerm { end, .. } => State::BehindTerm(end),
        }
    }
}

/// The state after a statement's first word.
fn behind_verb(verb: &[u8]) -> State {
    match verb.first() {
        Some(b's') if verb == b"set".as_slice() => State::SetKey,
        Some(b's') => State::FirstTerm(SumEnd::Line),
        Some(b'l') => State::LetName,
        Some(b'n') => State::Need,
        Some(b'd') => State::DropKey,
        _ => State::LineEnd,
    }
}

/// The state after the word that follows a term: a sign, `when` or a comparison.
fn behind_term(end: SumEnd, word: &[u8]) -> State {
    match word.first() {
        Some(b'+') => State::FurtherTerm { minus: false, end },
        Some(b'-') => State::FurtherTerm { minus: true, end },
        Some(b'w') => State::FirstTerm(SumEnd::Comparison),
        _ => State::FirstTerm(SumEnd::Line),
    }
}

/// Where a line stops being valid at its place.
#[derive(Clone, Copy, Debug, PartialEq, Eq)]
pub struct Halt {
    /// The number of its bytes that are a prefix of a valid line.
    pub offset: usize,
    /// Which word was expected there.
    pub state: State,
}

/// Where a line of a text of this kind stops being valid at a place. `None` if it is valid.
pub fn halt_in(kind: Kind, place: Place, line: &[u8]) -> Option<Halt> {
    if place == Place::Head && kind == Kind::Procedure {
        None
    } else {
        first_halt(place, line)
    }
}

/// Where a line stops being valid at a place: after its longest prefix that a valid line may begin
/// with. `None` if the line is valid. The time grows with the line.
pub fn first_halt(place: Place, line: &[u8]) -> Option<Halt> {
    let mut state = State::at(place);
    let mut offset: usize = 0;
    for word in line.split(|byte| *byte == b' ') {
        if state == State::LineEnd {
            return Some(Halt {
                offset: offset.saturating_sub(1),
                state,
            });
        }
        let fit = state.fit(word);
        if !fit.is_whole {
            return Some(Halt {
                offset: offset.saturating_add(fit.good),
                state,
            });
        }
        state = state.behind(word);
        offset = offset.saturating_add(word.len()).saturating_add(1);
    }
    if state.may_end() {
        None
    } else {
        Some(Halt {
            offset: line.len(),
            state,
        })
    }
}
