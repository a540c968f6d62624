//! Printing a document.

ghost use Rattle.std.specs.Prelude.{◌≡◌, ◌++◌, ◌∷◌, [], IfOk, OnErr, map};
ghost use Rattle.std.specs.List.{flat_map};
ghost use Rattle.std.specs.Fmt.{signed_decimal};
ghost use Rattle.bohm_log.specs.Seeing.{atom_shown, term_shown, cond_shown, guard_shown};
ghost use Rattle.bohm_text.specs.Print.{atom_word, first_word, further_words, sum_words, cmp_word};
ghost use Rattle.bohm_text.specs.Print.{cond_words};
ghost use Rattle.bohm_text.specs.Print.{guard_words, stmt_words, store_words, txn_lines, spaced};
ghost use Rattle.bohm_text.specs.Print.{line_text, lines_text, print_doc, BeginsWith};

use bohm_log::{
    AtomParts, CondView, Doc, Keys, LogPart, StmtParts, StmtView, SumView, TermParts, TxnView,
};
use bohm_types::{Cmp, Edition, Key, NoMemory, Value};
use itoa::Buffer;
use std::alloc::Global;

fn put_atom(out: &mut Vec<u8>, atom: AtomParts) -> Result<(), NoMemory>
    ensures ok { IfOk result (λ _. out.new.items ≡ out.old.items ++ atom_word (atom_shown atom)) }
    ensures err { OnErr result (BeginsWith out.old.items out.new.items) }
{
    match atom {
        AtomParts::Lit(number) => out.extend_from_slice(Buffer::new().format(number).as_bytes())?,
        AtomParts::Read(key) => out.extend_from_slice(key.text().as_slice())?,
        AtomParts::Local(name) => {
            out.push(b'$')?;
            out.extend_from_slice(name.text().as_slice())?;
        }
    }
    Ok(())
}

fn put_first(out: &mut Vec<u8>, term: TermParts) -> Result<(), NoMemory>
    ensures ok { IfOk result (λ _. out.new.items ≡ out.old.items ++ first_word (term_shown term)) }
    ensures err { OnErr result (BeginsWith out.old.items out.new.items) }
{
    if term.minus {
        out.push(b'-')?;
    }
    put_atom(out, term.atom)
}

fn put_further(out: &mut Vec<u8>, term: TermParts) -> Result<(), NoMemory>
    ensures ok { IfOk result
        (λ _. out.new.items ≡ out.old.items ++ spaced (further_words (term_shown term))) }
    ensures err { OnErr result (BeginsWith out.old.items out.new.items) }
{
    out.extend_from_slice(if term.minus { b" - " } else { b" + " })?;
    put_atom(out, term.atom)
}

/// Appends a sum, with a space before it.
#[tactic(auto, using(crate::proofs::Printed::begins_behind))]
fn put_sum(out: &mut Vec<u8>, sum: &SumView<'_>) -> Result<(), NoMemory>
    ensures ok { IfOk result (λ _. out.new.items ≡ out.old.items ++ spaced (sum_words sum.now)) }
    ensures err { OnErr result (BeginsWith out.old.items out.new.items) }
{
    if sum.len() == 0 {
        return Ok(());
    }
    out.push(b' ')?;
    put_first(out, sum.term(0))?;
    for index in 1..sum.len() {
        put_further(out, sum.term(index))?;
    }
    Ok(())
}

fn cmp_text(cmp: Cmp) -> &'static [u8]
    ensures { result.now ≡ cmp_word cmp }
{
    match cmp {
        Cmp::Lt => b"<",
        Cmp::Le => b"<=",
        Cmp::Eq => b"=",
        Cmp::Ge => b">=",
        Cmp::Gt => b">",
    }
}

/// Appends a condition, with a space before it.
fn put_cond(out: &mut Vec<u8>, cond: &CondView<'_>) -> Result<(), NoMemory>
    ensures ok { IfOk result
        (λ _. out.new.items ≡ out.old.items ++ spaced (cond_words (cond_shown cond.now))) }
    ensures err { OnErr result (BeginsWith out.old.items out.new.items) }
{
    put_sum(out, &cond.left)?;
    out.push(b' ')?;
    out.extend_from_slice(cmp_text(cond.cmp))?;
    put_sum(out, &cond.right)?;
    Ok(())
}

fn put_guard(out: &mut Vec<u8>, guard: &Option<CondView<'_>>) -> Result<(), NoMemory>
    ensures ok { IfOk result
        (λ _. out.new.items ≡ out.old.items ++ spaced (guard_words (guard_shown guard.now))) }
    ensures err { OnErr result (BeginsWith out.old.items out.new.items) }
{
    if let Some(cond) = guard {
        out.extend_from_slice(b" when")?;
        put_cond(out, cond)?;
    }
    Ok(())
}

/// Appends a word and a key.
fn put_key(out: &mut Vec<u8>, word: &[u8], key: Key) -> Result<(), NoMemory>
    ensures ok { IfOk result (λ _. out.new.items ≡ out.old.items ++ word.now ++ key) }
    ensures err { OnErr result (BeginsWith out.old.items out.new.items) }
{
    out.extend_from_slice(word)?;
    out.extend_from_slice(key.text().as_slice())?;
    Ok(())
}

/// Appends the text of a statement, without a newline. After an error `out` contains a prefix of it.
pub fn put_stmt(out: &mut Vec<u8>, stmt: &StmtView<'_>) -> Result<(), NoMemory>
    ensures ok { IfOk result
        (λ _. out.new.items ≡ out.old.items ++ line_text (stmt_words stmt.now)) }
    ensures err { OnErr result (BeginsWith out.old.items out.new.items) }
{
    match stmt.parts() {
        StmtParts::Bind { name, sum } => {
            put_key(out, b"let $", name)?;
            out.extend_from_slice(b" =")?;
            put_sum(out, &sum)?;
        }
        StmtParts::Need(cond) => {
            out.extend_from_slice(b"need")?;
            put_cond(out, &cond)?;
        }
        StmtParts::Has(key) => put_key(out, b"need has ", key)?,
        StmtParts::Lacks(key) => put_key(out, b"need no ", key)?,
        StmtParts::Put { key, sum, guard } => {
            put_key(out, b"set ", key)?;
            out.extend_from_slice(b" =")?;
            put_sum(out, &sum)?;
            put_guard(out, &guard)?;
        }
        StmtParts::Remove(key) => put_key(out, b"drop ", key)?,
        StmtParts::Show(sum) => {
            out.extend_from_slice(b"show")?;
            put_sum(out, &sum)?;
        }
        StmtParts::Fail => out.extend_from_slice(b"fail")?,
    }
    Ok(())
}

/// Appends a line that has a word and then the keys.
fn put_set(out: &mut Vec<u8>, word: &[u8], keys: &Keys<'_>) -> Result<(), NoMemory>
    ensures { IfOk result
        (λ _. out.new.items ≡ out.old.items ++ line_text (word.now ∷ keys.now) ++ 10 ∷ []) }
{
    out.extend_from_slice(word)?;
    for place in 0..keys.len() {
        out.push(b' ')?;
        out.extend_from_slice(keys.key(place).text().as_slice())?;
    }
    out.push(b'\n')?;
    Ok(())
}

fn put_stmts(out: &mut Vec<u8>, txn: &TxnView<'_>) -> Result<(), NoMemory>
    ensures ok { IfOk result
        (λ _. out.new.items ≡ out.old.items ++ lines_text (map stmt_words txn.now.body)) }
    ensures err { OnErr result (BeginsWith out.old.items out.new.items) }
{
    for index in 0..txn.body_len() {
        put_stmt(out, &txn.stmt(index))?;
        out.push(b'\n')?;
    }
    Ok(())
}

/// Appends a line for each statement of a transaction's body. An error leaves `out` unchanged.
pub fn put_body(out: &mut Vec<u8>, txn: &TxnView<'_>) -> Result<(), NoMemory>
    ensures ok { IfOk result
        (λ _. out.new.items ≡ out.old.items ++ lines_text (map stmt_words txn.now.body)) }
    ensures err { OnErr result (out.new.items ≡ out.old.items) }
{
    let before = out.len();
    if let Err(refusal) = put_stmts(out, txn) {
        out.truncate(before);
        return Err(refusal);
    }
    Ok(())
}

fn put_txn(out: &mut Vec<u8>, txn: &TxnView<'_>) -> Result<(), NoMemory>
    ensures { IfOk result
        (λ _. out.new.items ≡ out.old.items ++ lines_text (txn_lines txn.now)) }
{
    out.extend_from_slice(b"txn\n")?;
    put_set(out, b"reads", &txn.reads())?;
    put_set(out, b"writes", &txn.writes())?;
    put_body(out, txn)?;
    out.extend_from_slice(b"end\n")?;
    Ok(())
}

fn put_log(out: &mut Vec<u8>, log: &LogPart<'_>) -> Result<(), NoMemory>
    ensures { IfOk result
        (λ _. out.new.items ≡ out.old.items ++ lines_text (flat_map txn_lines log.now)) }
{
    for index in 0..log.len() {
        put_txn(out, &log.txn(index))?;
    }
    Ok(())
}

pub fn put_value(out: &mut Vec<u8>, value: Value) -> Result<(), NoMemory>
    ensures ok { IfOk result (λ _. out.new.items ≡ out.old.items ++ signed_decimal value) }
    ensures err { OnErr result (out.new.items ≡ out.old.items) }
{
    out.extend_from_slice(Buffer::new().format(value.get()).as_bytes())?;
    Ok(())
}

fn put_entry_lines(out: &mut Vec<u8>, entries: &[(Key, Value)]) -> Result<(), NoMemory>
    ensures ok { IfOk result
        (λ _. out.new.items ≡ out.old.items ++ lines_text (map store_words entries.now)) }
    ensures err { OnErr result (BeginsWith out.old.items out.new.items) }
{
    for (key, value) in entries {
        out.extend_from_slice(key.text().as_slice())?;
        out.push(b' ')?;
        put_value(out, *value)?;
        out.push(b'\n')?;
    }
    Ok(())
}

/// Appends a line for each key of a store. An error leaves `out` unchanged.
pub fn put_entries(out: &mut Vec<u8>, entries: &[(Key, Value)]) -> Result<(), NoMemory>
    ensures ok { IfOk result
        (λ _. out.new.items ≡ out.old.items ++ lines_text (map store_words entries.now)) }
    ensures err { OnErr result (out.new.items ≡ out.old.items) }
{
    let before = out.len();
    if let Err(refusal) = put_entry_lines(out, entries) {
        out.truncate(before);
        return Err(refusal);
    }
    Ok(())
}

/// Prints the document's unique text. Its time and memory grow with the length of the text.
pub fn print_doc(alloc: Global, doc: &Doc) -> Result<Vec<u8>, NoMemory>
    ensures { IfOk result (λ text. text.items ≡ print_doc doc.now) }
{
    let mut out = Vec::new(alloc);
    out.extend_from_slice(match doc.edition() {
        Edition::One => b"log 1\n",
        Edition::Two => b"log 2\n",
    })?;
    put_entries(&mut out, doc.store())?;
    put_log(&mut out, &doc.log())?;
    Ok(out)
}
