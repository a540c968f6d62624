//! Runs a script of calls on a machine, as the programs of tests/calls do in other languages.

use bohm_log::{DrawnSeed, KeyHandle};
use bohm_machine::Machine;
use bohm_procedures::{Calls, Procedure};
use bohm_text::{parse_with_seed, put_replies, put_store};
use bohm_txn::check;
use bohm_types::{Edition, Key, Value};
use std::alloc::Global;

/// A machine, and what the script has made so far.
#[derive(Drop)]
struct Session {
    alloc: Global,
    seed: DrawnSeed,
    machine: Machine,
    procedures: Vec<Procedure>,
    calls: Calls,
    /// The lines of the next procedure.
    text: Vec<u8>,
    /// The replies.
    out: Vec<u8>,
}

fn put_line(text: &mut Vec<u8>, line: &str) -> Option<()> {
    text.extend_from_slice(line.as_bytes()).ok()?;
    text.push(b'\n').ok()
}

/// The rest of each line that begins with this word.
fn lines_after(alloc: Global, script: &str, word: &str) -> Option<Vec<u8>> {
    let mut text = Vec::new(alloc);
    for line in script.lines() {
        let (first, rest) = line.split_once(" ").unwrap_or((line, ""));
        if first == word {
            put_line(&mut text, rest)?;
        }
    }
    Some(text)
}

fn words_of(alloc: Global, line: &str) -> Option<Vec<&str>> {
    let mut words = Vec::new(alloc);
    for word in line.split(" ") {
        words.push(word).ok()?;
    }
    Some(words)
}

fn keys_of(alloc: Global, words: &[&str]) -> Option<Vec<Key>> {
    let mut keys = Vec::new(alloc);
    for word in words {
        keys.push(Key::new(word.as_bytes())?).ok()?;
    }
    Some(keys)
}

fn values_of(alloc: Global, words: &[&str]) -> Option<Vec<Value>> {
    let mut values = Vec::new(alloc);
    for word in words {
        values.push(Value::from(word.parse::<i64>().ok()?)).ok()?;
    }
    Some(values)
}

fn handles_of(alloc: Global, calls: &mut Calls, keys: &[Key]) -> Option<Vec<KeyHandle>> {
    let mut handles = Vec::new(alloc);
    for key in keys {
        handles.push(calls.handle(key).ok()?).ok()?;
    }
    Some(handles)
}

/// Adds a call; every other call names its keys by handles.
fn add_call(
    alloc: Global,
    calls: &mut Calls,
    procedure: &Procedure,
    keys: &[Key],
    values: &[Value],
) -> Option<()> {
    if calls.len() % 2 == 0 {
        if !calls.takes(procedure, keys, values) {
            return None;
        }
        return calls.push(procedure, keys, values).ok();
    }
    let handles = handles_of(alloc, calls, keys)?;
    if !calls.takes_named(procedure, handles.as_slice(), values) {
        return None;
    }
    calls.push_named(procedure, handles.as_slice(), values).ok()
}

impl Session {
    /// A machine of the script's store.
    fn start(alloc: Global, seed: DrawnSeed, script: &str) -> Option<Session> {
        let text = lines_after(alloc, script, "store")?;
        let store = check(parse_with_seed(alloc, seed, text.as_slice()).ok()?).ok()?;
        let machine = Machine::restore(alloc, seed, store.store(), 0).ok()?;
        let calls = match store.edition() {
            Edition::One => machine.calls(alloc, Edition::One).ok()?,
            // This list has its own names.
            Edition::Two => Calls::new(alloc, seed, Edition::Two),
        };
        Some(Session {
            alloc,
            seed,
            machine,
            procedures: Vec::new(alloc),
            calls,
            text: Vec::new(alloc),
            out: Vec::new(alloc),
        })
    }

    /// Parses the procedure whose lines were collected.
    fn prepare(&mut self) -> Option<()> {
        let procedure = Procedure::read(self.alloc, self.seed, self.text.as_slice()).ok()?;
        self.text.clear();
        self.procedures.push(procedure).ok()
    }

    /// Adds the call on a line: the procedure's number, the number of keys and the keys, the number
    /// of values and the values.
    fn push(&mut self, line: &str) -> Option<()> {
        let words = words_of(self.alloc, line)?;
        let number = words.first()?.parse::<u32>().ok()?;
        let end = (words.get(1)?.parse::<u32>().ok()? as usize).checked_add(2)?;
        let keys = keys_of(self.alloc, words.get(2..end)?)?;
        let values = values_of(self.alloc, words.get(end.checked_add(1)?..)?)?;
        let procedure = self.procedures.get(number as usize)?;
        let (keys, values) = (keys.as_slice(), values.as_slice());
        add_call(self.alloc, &mut self.calls, procedure, keys, values)
    }

    /// Runs the calls.
    fn run(&mut self) -> Option<()> {
        let first = u64::from(self.machine.top()) + 1;
        let applied = self.machine.run_calls(self.alloc, &self.calls).ok()?;
        applied.end.ok()?;
        self.calls.clear();
        put_replies(&mut self.out, first, &applied.replies).ok()
    }

    fn carry_out(&mut self, line: &str) -> Option<()> {
        let (word, rest) = line.split_once(" ").unwrap_or((line, ""));
        match word {
            "line" => put_line(&mut self.text, rest),
            "prepare" => self.prepare(),
            "push" => self.push(rest),
            "run" => self.run(),
            _ => Some(()),
        }
    }

    /// The replies, and the store that the machine holds at the end.
    fn end(self) -> Option<Vec<u8>> {
        let Session {
            alloc,
            machine,
            mut out,
            ..
        } = self;
        let store = machine.store_at(alloc, machine.top()).ok()?;
        put_store(&mut out, store.as_slice()).ok()?;
        Some(out)
    }
}

/// The machine's answer to the calls of a script; `None` if it isn't a valid script or an
/// allocation fails.
pub(crate) fn run_script(alloc: Global, seed: DrawnSeed, script: &str) -> Option<Vec<u8>> {
    let mut session = Session::start(alloc, seed, script)?;
    for line in script.lines() {
        session.carry_out(line)?;
    }
    session.end()
}
