//! Logs drawn by a seeded generator.

use bohm_layer_trials::{Draws, checked, one_of};
use bohm_run::Settings;
use bohm_txn::Checked;
use bohm_types::NoMemory;
use std::alloc::Global;
use std::process::Abort;

/// Settings with up to four workers on each side.
pub fn drawn_settings(draws: &mut Draws) -> Option<Settings> {
    let cc = one_of(draws, &[1, 2, 3, 4]);
    let exec = one_of(draws, &[1, 2, 3, 4]);
    let parts = one_of(draws, &[1, 2, 7, 64]);
    let batch = one_of(draws, &[1, 3, 7, 4096]);
    let keep = one_of(draws, &[0, 1, 3, 4096]);
    Settings::new(cc, exec, parts, batch, keep, None)
}

/// Keys for a log; a key is drawn the more often, the more often it occurs here.
const KEYS: [[u8; 6]; 4] = [*b"aaabbc", *b"aabbcd", *b"aabcde", *b"abcdef"];

/// Numbers of a starting store.
const VALUES: [&[u8]; 8] = [
    b"0",
    b"1",
    b"5",
    b"-3",
    b"4000000000000000000",
    b"9223372036854775807",
    b"-9223372036854775807",
    b"-9223372036854775808",
];

/// Numbers in sums. None is 0, which can't follow a minus.
const LITERALS: [&[u8]; 6] = [
    b"1",
    b"2",
    b"3",
    b"4000000000000000000",
    b"9223372036854775806",
    b"9223372036854775807",
];

const COMPARISONS: [&[u8]; 5] = [b"<", b"<=", b"=", b">=", b">"];

/// Statements: `?` represents a key that is read, `^` a key that is written, `#` a number and `~` a
/// comparison.
const STATEMENTS: [&[u8]; 22] = [
    b"set ^ = #",
    b"set ^ = ?",
    b"set ^ = ? + #",
    b"set ^ = ? - #",
    b"set ^ = ? + ? - #",
    b"set ^ = -? - 1",
    b"set ^ = -? + ? + # - #",
    b"set ^ = 0",
    b"set ^ = ? + 1 when ? ~ #",
    b"set ^ = # when ? ~ ?",
    b"set ^ = ? when # ~ #",
    b"drop ^",
    b"drop ^",
    b"show ?",
    b"show ? - ? + #",
    b"show #",
    b"need ? ~ #",
    b"need # ~ ? + ?",
    b"need 0 <= ?",
    b"need has ?",
    b"need no ?",
    b"fail",
];

/// Statements that may follow one that binds `$x`.
const BOUND: [&[u8]; 5] = [
    b"set ^ = $x",
    b"set ^ = $x + ?",
    b"set ^ = -$x when $x ~ #",
    b"show $x",
    b"need $x ~ ? - #",
];

const BINDINGS: [&[u8]; 3] = [b"let $x = #", b"let $x = ?", b"let $x = -? + ? - #"];

/// The keys that the statements of a transaction name.
#[derive(Drop)]
struct Named {
    read: Vec<u8>,
    written: Vec<u8>,
}

/// Appends what a symbol of a statement represents.
fn put_symbol(
    text: &mut Vec<u8>,
    named: &mut Named,
    draws: &mut Draws,
    keys: &[u8; 6],
    symbol: u8,
) -> Result<(), NoMemory> {
    match symbol {
        b'?' => {
            let key = one_of(draws, keys);
            named.read.push(key)?;
            text.push(key)?;
        }
        b'^' => {
            let key = one_of(draws, keys);
            named.written.push(key)?;
            text.push(key)?;
        }
        b'#' => text.extend_from_slice(one_of(draws, &LITERALS))?,
        b'~' => text.extend_from_slice(one_of(draws, &COMPARISONS))?,
        _ => text.push(symbol)?,
    }
    Ok(())
}

fn put_stmt(
    text: &mut Vec<u8>,
    named: &mut Named,
    draws: &mut Draws,
    keys: &[u8; 6],
    stmt: &[u8],
) -> Result<(), NoMemory> {
    for symbol in stmt {
        put_symbol(text, named, draws, keys, *symbol)?;
    }
    text.push(b'\n')?;
    Ok(())
}

/// Appends up to five statements.
fn put_body(
    text: &mut Vec<u8>,
    named: &mut Named,
    draws: &mut Draws,
    keys: &[u8; 6],
) -> Result<(), NoMemory> {
    let bound = draws.below(3) == 0;
    if bound {
        let binding = one_of(draws, &BINDINGS);
        put_stmt(text, named, draws, keys, binding)?;
    }
    for _ in 0..draws.below(5) {
        let stmt = if bound && draws.below(2) == 0 {
            one_of(draws, &BOUND)
        } else {
            one_of(draws, &STATEMENTS)
        };
        put_stmt(text, named, draws, keys, stmt)?;
    }
    Ok(())
}

/// Appends a line with this word and these keys.
fn put_keys(text: &mut Vec<u8>, word: &[u8], keys: &[u8]) -> Result<(), NoMemory> {
    text.extend_from_slice(word)?;
    for key in b"abcdef" {
        if keys.contains(key) {
            text.push(b' ')?;
            text.push(*key)?;
        }
    }
    text.push(b'\n')?;
    Ok(())
}

/// Appends a transaction, which sometimes declares to write one more drawn key.
fn put_txn(rt: &impl Abort, alloc: Global, text: &mut Vec<u8>, draws: &mut Draws, keys: &[u8; 6]) {
    let mut body = Vec::new(alloc);
    let mut named = Named {
        read: Vec::new(alloc),
        written: Vec::new(alloc),
    };
    put_body(&mut body, &mut named, draws, keys).expect(rt, "memory");
    if draws.below(3) == 0 {
        let key = one_of(draws, keys);
        named.written.push(key).ok().expect(rt, "memory");
    }
    put_parts(text, &named, body.as_slice()).expect(rt, "memory");
}

/// Appends a transaction with these keys and this body.
fn put_parts(text: &mut Vec<u8>, named: &Named, body: &[u8]) -> Result<(), NoMemory> {
    text.extend_from_slice(b"txn\n")?;
    put_keys(text, b"reads", named.read.as_slice())?;
    put_keys(text, b"writes", named.written.as_slice())?;
    text.extend_from_slice(body)?;
    text.extend_from_slice(b"end\n")?;
    Ok(())
}

fn put_store(text: &mut Vec<u8>, draws: &mut Draws) -> Result<(), NoMemory> {
    for key in b"abcdef" {
        if draws.below(3) > 0 {
            text.push(*key)?;
            text.push(b' ')?;
            text.extend_from_slice(one_of(draws, &VALUES))?;
            text.push(b'\n')?;
        }
    }
    Ok(())
}

/// Appends this many transactions that the seed determines.
pub fn put_txns(rt: &impl Abort, alloc: Global, text: &mut Vec<u8>, seed: u32, count: u32) {
    let mut draws = Draws::new(seed);
    let keys = one_of(&mut draws, &KEYS);
    for _ in 0..count {
        put_txn(rt, alloc, text, &mut draws, &keys);
    }
}

/// The text of a log of this many transactions that the seed determines.
pub fn drawn_text(rt: &impl Abort, alloc: Global, seed: u32, count: u32) -> Vec<u8> {
    let mut draws = Draws::new(seed);
    let keys = one_of(&mut draws, &KEYS);
    let head = one_of(&mut draws, &[b"log 1\n", b"log 2\n"]);
    let mut text = Vec::from_slice(alloc, head).expect(rt, "memory");
    put_store(&mut text, &mut draws).expect(rt, "memory");
    for _ in 0..count {
        put_txn(rt, alloc, &mut text, &mut draws, &keys);
    }
    text
}

/// A log of this many transactions that the seed determines.
pub fn drawn(rt: &impl Abort, alloc: Global, seed: u32, count: u32) -> Checked {
    let text = drawn_text(rt, alloc, seed, count);
    checked(alloc, text.as_slice()).expect(rt, "a log")
}
