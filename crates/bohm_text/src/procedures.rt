//! Reading a procedure line by line.

ghost use Rattle.std.specs.Prelude.{◌≡◌, ◌++◌, [], ◌∷◌, OnOk, IfErr, map, true};
ghost use Rattle.bohm_text.specs.declared.fault.ReadFault.TheVariants.{NoMemory};
ghost use Rattle.bohm_types.specs.Keys.{is_among};
ghost use Rattle.bohm_log.specs.Drafting.{IsBare, IsBetween};
ghost use Rattle.bohm_text.specs.Cut.{split};
ghost use Rattle.bohm_text.specs.ProcedureText.{one_name, key_line, value_line, reads_line};
ghost use Rattle.bohm_text.specs.ProcedureText.{are_declared};
ghost use Rattle.bohm_text.specs.ProcedureText.{after_values, after_keys};
ghost use Rattle.bohm_text.specs.ProcedureText.{stage_after, edition_of, Keys};
ghost use Rattle.bohm_text.specs.ProcedureParse.{Reads};
ghost use Rattle.bohm_text.specs.ProcedureRead.{IsProcedureOf};
ghost use Rattle.std.specs.Prelude.{ℕ, IfOk, Err};
ghost use Rattle.bohm_text.specs.Cut.{whole_lines};
ghost use Rattle.bohm_text.specs.ProcedureFaults.{IsFirstBadLine, IsShort};
ghost use Rattle.bohm_text.specs.ProcedureReading.{Feeds, IsReady, stage_of, let_zero};
ghost use Rattle.bohm_text.specs.Drafted.{with_lets};
ghost use Rattle.bohm_text.specs.declared.procedures.ParamPlace.TheVariants as places;

use crate::fault::{ReadFault, TextFault};
use crate::fixed_words::is_word;
use crate::parsing::split_line;
use crate::reader::words_after;
use crate::statements::{read_reads, read_stmt, read_writes};
use crate::words::Words;
use bohm_log::{Draft, HashSeed, Literal};
use bohm_types::{Edition, Key};
use std::alloc::Global;

/// Which line comes next.
#[derive(Clone, Copy, Debug, PartialEq, Eq)]
pub enum ParamPlace {
    /// A key parameter, a value parameter or the reads.
    Keys,
    /// A value parameter or the reads.
    Values,
    /// The writes.
    Reading,
    /// A statement or the closing.
    Body,
    /// Nothing.
    Done,
}

/// The contents of the lines read so far.
#[derive(Drop)]
pub struct ProcedureReader {
    pub place: ParamPlace,
    pub edition: Edition,
    pub keys: Vec<Key>,
    pub values: Vec<Key>,
    /// The procedure's own instance.
    pub draft: Draft<HashSeed>,
}

fn one_name(words: &mut Words) -> Option<Key>
    ensures { result ≡ one_name words.old }
{
    match (words.next(), words.next()) {
        (Some(word), None) => Key::new(word),
        _ => None,
    }
}

fn is_among(keys: &[Key], key: &Key) -> bool
    ensures { result ≡ is_among keys.now key.now }
{
    keys.contains(key)
}

fn is_param(keys: &[Key], values: &[Key], name: &Key) -> bool
    ensures { result ≡ is_among (keys.now ++ values.now) name.now }
{
    is_among(keys, name) || is_among(values, name)
}

/// Whether the draft declares each of these keys.
fn are_declared(keys: &[Key], draft: &Draft<HashSeed>) -> bool
    ensures { result ≡ are_declared keys.now draft.now.txn.reads draft.now.txn.writes }
{
    keys.iter().all(|key| draft.declares(key))
}

/// Binds each value to 0.
fn add_lets(draft: &mut Draft<HashSeed>, values: &[Key]) -> Result<(), ReadFault>
    requires { IsBetween draft.old }
    ensures ok { OnOk result (draft.new ≡ with_lets draft.old values.now) }
    ensures err { IfErr result (λ e. e ≡ NoMemory) }
{
    for value in values {
        draft.literal(Literal::from(0u32))?;
        draft.bind(*value)?;
    }
    Ok(())
}

impl ProcedureReader {
    fn feed_key(&mut self, words: &mut Words) -> Result<(), ReadFault>
        requires place { self.old.place ≡ places.Keys }
        requires ready { IsReady self.old }
        ensures next { Feeds result (key_line self.old.edition self.old.keys.items words.old)
            (stage_of self.new) }
        ensures ready { OnOk result (IsReady self.new) }
    {
        let key = one_name(words).ok_or(ReadFault::Bad)?;
        if is_among(self.keys.as_slice(), &key) {
            return Err(ReadFault::Bad);
        }
        self.keys.push(key)?;
        Ok(())
    }

    fn feed_value(&mut self, words: &mut Words) -> Result<(), ReadFault>
        requires place { self.old.place ≡ places.Values }
        requires ready { IsReady self.old }
        ensures next { Feeds result
            (value_line self.old.edition self.old.keys.items self.old.values.items words.old)
            (stage_of self.new) }
        ensures ready { OnOk result (IsReady self.new) }
    {
        let name = one_name(words).ok_or(ReadFault::Bad)?;
        if is_param(self.keys.as_slice(), self.values.as_slice(), &name) {
            return Err(ReadFault::Bad);
        }
        self.values.push(name)?;
        Ok(())
    }

    fn feed_reads(&mut self, line: &[u8]) -> Result<(), ReadFault>
        requires place { self.old.place ≡ places.Values }
        requires ready { IsReady self.old }
        ensures next { Feeds result
            (reads_line self.old.edition self.old.keys.items self.old.values.items
            (split 32 line.now)) (stage_of self.new) }
        ensures ready { OnOk result (IsReady self.new) }
    {
        read_reads(&mut self.draft, &mut words_after(b"reads", line)?)?;
        self.place = ParamPlace::Reading;
        Ok(())
    }

    fn feed_values(&mut self, line: &[u8]) -> Result<(), ReadFault>
        requires place { self.old.place ≡ places.Values }
        requires ready { IsReady self.old }
        ensures next { Feeds result
            (after_values self.old.edition self.old.keys.items self.old.values.items
            (split 32 line.now)) (stage_of self.new) }
        ensures ready { OnOk result (IsReady self.new) }
    {
        let mut words = Words::of(line);
        match words.next() {
            Some(word) if is_word(word, b"value") => self.feed_value(&mut words),
            _ => self.feed_reads(line),
        }
    }

    fn feed_keys(&mut self, line: &[u8]) -> Result<(), ReadFault>
        requires place { self.old.place ≡ places.Keys }
        requires ready { IsReady self.old }
        ensures next { Feeds result
            (after_keys self.old.edition self.old.keys.items (split 32 line.now))
            (stage_of self.new) }
        ensures ready { OnOk result (IsReady self.new) }
    {
        let mut words = Words::of(line);
        match words.next() {
            Some(word) if is_word(word, b"key") => self.feed_key(&mut words),
            _ => {
                self.place = ParamPlace::Values;
                self.feed_values(line)
            }
        }
    }

    #[tactic(auto, unfolding(crate::specs::ProcedureText::stage_after))]
    fn feed_writes(&mut self, line: &[u8]) -> Result<(), ReadFault>
        requires place { self.old.place ≡ places.Reading }
        requires ready { IsReady self.old }
        ensures next { Feeds result (stage_after (stage_of self.old) line.now)
            (stage_of self.new) }
        ensures ready { OnOk result (IsReady self.new) }
    {
        read_writes(&mut self.draft, &mut words_after(b"writes", line)?)?;
        if !are_declared(self.keys.as_slice(), &self.draft) {
            return Err(ReadFault::Bad);
        }
        add_lets(&mut self.draft, self.values.as_slice())?;
        self.place = ParamPlace::Body;
        Ok(())
    }

    #[tactic(auto, unfolding(crate::specs::ProcedureText::stage_after))]
    fn feed_body(&mut self, line: &[u8]) -> Result<(), ReadFault>
        requires place { self.old.place ≡ places.Body }
        requires ready { IsReady self.old }
        ensures next { Feeds result (stage_after (stage_of self.old) line.now)
            (stage_of self.new) }
        ensures ready { OnOk result (IsReady self.new) }
    {
        if line == b"end".as_slice() {
            self.place = ParamPlace::Done;
            return Ok(());
        }
        read_stmt(&mut self.draft, line)
    }

    /// Reads the next line. After an `Err` the reader's contents are unspecified.
    #[tactic(auto, unfolding(crate::specs::ProcedureText::stage_after))]
    pub fn feed(&mut self, line: &[u8]) -> Result<(), ReadFault>
        requires { IsReady self.old }
        ensures next { Feeds result (stage_after (stage_of self.old) line.now)
            (stage_of self.new) }
        ensures ready { OnOk result (IsReady self.new) }
    {
        match self.place {
            ParamPlace::Keys => self.feed_keys(line),
            ParamPlace::Values => self.feed_values(line),
            ParamPlace::Reading => self.feed_writes(line),
            ParamPlace::Body => self.feed_body(line),
            ParamPlace::Done => Err(ReadFault::Bad),
        }
    }
}

#[tactic(auto, unfolding(crate::specs::ProcedureText::edition_of))]
fn read_edition(line: &[u8]) -> Option<Edition>
    ensures { result ≡ edition_of line.now }
{
    if line == b"procedure 1".as_slice() {
        Some(Edition::One)
    } else if line == b"procedure 2".as_slice() {
        Some(Edition::Two)
    } else {
        None
    }
}

impl ProcedureReader {
    fn new(alloc: Global, seed: HashSeed, edition: Edition) -> ProcedureReader
        ensures begun { stage_of result ≡ Keys edition [] }
        ensures ready { IsReady result }
    {
        ProcedureReader {
            place: ParamPlace::Keys,
            edition,
            keys: Vec::new(alloc),
            values: Vec::new(alloc),
            draft: Draft::new(alloc, seed, edition),
        }
    }
}

/// Reads a procedure's text to its end.
pub fn read_procedure(
    alloc: Global,
    seed: HashSeed,
    text: &[u8],
) -> Result<ProcedureReader, TextFault>
    ensures { Reads text.now result }
{
    let Some((head, others)) = split_line(text) else {
        return Err(TextFault::Short);
    };
    let Some(edition) = read_edition(head) else {
        return Err(TextFault::Line(1));
    };
    let mut reader = ProcedureReader::new(alloc, seed, edition);
    let mut rest = others;
    let mut count: u64 = 1;
    'lines: while let Some((line, others)) = split_line(rest) {
        count += 1;
        match reader.feed(line) {
            Ok(()) => {}
            Err(ReadFault::Bad) => return Err(TextFault::Line(count)),
            Err(ReadFault::NoMemory) => return Err(TextFault::NoMemory),
        }
        rest = others;
    }
    match reader.place {
        ParamPlace::Done if rest.is_empty() => Ok(reader),
        _ => Err(TextFault::Short),
    }
}

/// Reads a procedure's text to its end. `Line` and `Short` report where it stops being a prefix of
/// a procedure's text.
pub fn parse_procedure(
    alloc: Global,
    seed: HashSeed,
    text: &[u8],
) -> Result<ProcedureReader, TextFault>
    ensures read { IfOk result (IsProcedureOf text.now) }
    ensures line { (n : ℕ) → result ≡ Err (TextFault.Line n)
        → IsFirstBadLine (whole_lines text.now) n }
    ensures short { result ≡ Err TextFault.Short → IsShort text.now }
{
    read_procedure(alloc, seed, text)
}
