//! Procedures that were accepted.

ghost use Rattle.std.specs.Prelude.{◌≡◌, ◌≢◌, ◌++◌, [], ◌∷◌, ℕ, Err, IfOk, IfSome, OnOk, length};
ghost use Rattle.bohm_log.specs.Drafting.{IsBetween};
ghost use Rattle.bohm_types.specs.Procedure.{procedure_with};
ghost use Rattle.bohm_text.specs.Cut.{whole_lines};
ghost use Rattle.bohm_text.specs.ProcedureFaults.{IsFirstBadLine, IsShort};
ghost use Rattle.bohm_text.specs.ProcedureText.{IsProcedure, print_procedure};
ghost use Rattle.bohm_txn.specs.Faulty.{IsFirstFault, alone};
ghost use Rattle.bohm_txn.specs.declared.fault.CheckFault.{CheckFault};
ghost use Rattle.bohm_procedures.specs.Accepting.{BeginsWithLets, IsAccepted, IsRefusedBy};
ghost use Rattle.bohm_procedures.specs.Compiling.{IsCompiled};
ghost use Rattle.bohm_procedures.specs.declared.fault.ProcedureFault.TheVariants as faults;

use crate::compiled::{Compiled, compile};
use crate::fault::ProcedureFault;
use bohm_log::{CloseFault, Doc, Draft, DrawnSeed, HashSeed, Log, LogFault, Template};
use bohm_text::{ProcedureReader, TextFault, parse_procedure};
use bohm_txn::{CheckFault, check};
use bohm_types::{Edition, Key, NoMemory};
use std::alloc::Global;
use std::marker::Model;

/// An accepted procedure. Its text was read, and its own instance is well formed, so all its
/// instances are.
pub struct Procedure {
    template: Template,
    text: Vec<u8>,
    compiled: Option<Compiled>,
}

// Written out: a derived drop is proved anew in each function that drops such a value.
impl Drop for Procedure {
    fn drop(self) {
        let Self {
            template,
            text,
            compiled,
        } = self;
        drop(template);
        drop(text);
        drop(compiled);
    }
}

impl Model for Procedure {
    ghost use Rattle.std.specs.Prelude.{◌≡◌, IfSome};
    ghost use Rattle.bohm_types.specs.Procedure.{Procedure};
    ghost use Rattle.bohm_text.specs.ProcedureText.{IsProcedure, print_procedure};
    ghost use Rattle.bohm_procedures.specs.Accepting.{IsAccepted};
    ghost use Rattle.bohm_procedures.specs.Compiling.{IsCompiled};

    ghost Value = { Procedure };

    ghost view = { λ p. p.template };

    ghost invariant = { λ p. IsAccepted p.template × IsProcedure p.template
        × (print_procedure p.template ≡ p.text.items)
        × IfSome p.compiled (IsCompiled p.template) };
}

impl Procedure {
    /// Reads the procedure of this text, if its own instance is well formed. The error is the first
    /// bad line, else `Short`, else the check's first fault in the own instance. It is `NoMemory`
    /// if an allocation fails or the 32-bit numbers of a column are used up, which takes more than
    /// 4 GiB of text.
    ///
    /// Its time grows with the length of the text, and with the number of parameters times the
    /// number of parameters and declared names. It keeps the text. Its names are hashed with the
    /// seed.
    pub fn read(alloc: Global, seed: DrawnSeed, text: &[u8]) -> Result<Procedure, ProcedureFault>
        ensures found { IfOk result (λ p. print_procedure p ≡ text.now) }
        ensures sound { IfOk result IsProcedure }
        ensures accepted { IfOk result IsAccepted }
        ensures line { (n : ℕ) → result ≡ Err (faults.Line n)
            → IsFirstBadLine (whole_lines text.now) n }
        ensures short { result ≡ Err faults.Short → IsShort text.now }
        ensures check { (f : CheckFault) → result ≡ Err (faults.Check f)
            → IsRefusedBy text.now f }
    {
        let kept = match Vec::from_slice(alloc, text) {
            Ok(kept) => kept,
            Err(_) => return Err(ProcedureFault::NoMemory),
        };
        let seed = HashSeed::from(seed);
        match parse_procedure(alloc, seed, text) {
            Err(TextFault::Line(n)) => Err(ProcedureFault::Line(n)),
            Err(TextFault::Short) => Err(ProcedureFault::Short),
            Err(TextFault::NoMemory) => Err(ProcedureFault::NoMemory),
            Ok(reader) => {
                let ProcedureReader {
                    edition,
                    keys,
                    values,
                    draft,
                    ..
                } = reader;
                let Accepted { template, compiled } = accept(
                    alloc,
                    seed,
                    edition,
                    draft,
                    keys,
                    values.as_slice(),
                )?;
                Ok(Procedure {
                    template,
                    text: kept,
                    compiled,
                })
            }
        }
    }

    /// How many key parameters it has: at most 32.
    pub fn keys(&self) -> usize
        ensures { result ≡ length self.now.keys }
    {
        self.template.keys_len()
    }

    /// How many value parameters it has: at most 64.
    pub fn values(&self) -> usize
        ensures { result ≡ length self.now.values }
    {
        self.template.values_len()
    }

    /// Its edition.
    pub fn edition(&self) -> Edition
        ensures { result ≡ self.now.edition }
    {
        self.template.edition()
    }

    /// Its text.
    pub fn print(&self, alloc: Global) -> Result<Vec<u8>, NoMemory>
        ensures { IfOk result (λ text. text.items ≡ print_procedure self.now) }
    {
        Ok(Vec::from_slice(alloc, self.text.as_slice())?)
    }

    /// Its compiled body. There is none if the test of the body's shape failed; calls of such a
    /// procedure run by their instances.
    pub fn compiled(&self) -> Option<&Compiled>
        ensures compiled { IfSome result (λ c. IsCompiled self.now c.now) }
        ensures accepted { IsAccepted self.now }
    {
        self.compiled.as_ref()
    }

    pub(crate) fn text(&self) -> &[u8]
        ensures sound { IsProcedure self.now }
        ensures is { result.now ≡ print_procedure self.now }
    {
        self.text.as_slice()
    }

    pub(crate) fn template(&self) -> &Template
        ensures same { result.now ≡ self.now }
        ensures accepted { IsAccepted result.now }
    {
        &self.template
    }
}

/// Appends the transaction of a draft. The draft is between statements, so it can't fail with
/// `Open`.
fn close_whole(log: &mut Log<HashSeed>, draft: &Draft<HashSeed>) -> Result<(), LogFault>
    requires { IsBetween draft.now }
    ensures { OnOk result (log.new ≡ log.old ++ draft.now.txn ∷ []) }
{
    match log.close(draft) {
        Ok(()) => Ok(()),
        Err(CloseFault::Log(fault)) => Err(fault),
        Err(CloseFault::Open) => unreachable!(),
    }
}

/// The parts of a procedure that its text doesn't have as they are.
#[derive(Drop)]
struct Accepted {
    template: Template,
    compiled: Option<Compiled>,
}

/// The procedure whose own instance was read, if that instance is well formed.
fn accept(
    alloc: Global,
    seed: HashSeed,
    edition: Edition,
    draft: Draft<HashSeed>,
    keys: Vec<Key>,
    values: &[Key],
) -> Result<Accepted, ProcedureFault>
    requires edition { draft.txn.edition ≡ edition }
    requires lets { BeginsWithLets draft.txn values.now }
    requires whole { IsBetween draft }
    ensures ok { IfOk result (λ p. p.template ≡ procedure_with draft.txn keys.items values.now) }
    ensures accepted { IfOk result (λ p. IsAccepted p.template) }
    ensures compiled { IfOk result (λ p. IfSome p.compiled (IsCompiled p.template)) }
    ensures line { (n : ℕ) → result ≢ Err (faults.Line n) }
    ensures short { result ≢ Err faults.Short }
    ensures fault { (f : CheckFault) → result ≡ Err (faults.Check f)
        → IsFirstFault (alone draft.txn) f }
{
    let mut log = Log::new(alloc, seed);
    if close_whole(&mut log, &draft).is_err() {
        return Err(ProcedureFault::NoMemory);
    }
    let doc = match Doc::new(edition, Vec::new(alloc), log) {
        Some(doc) => doc,
        None => unreachable!(),
    };
    match check(doc) {
        Err(fault) => Err(ProcedureFault::Check(fault)),
        Ok(checked) => {
            let own = checked.log().txn(0);
            let compiled = match compile(alloc, &own, keys.as_slice(), values) {
                Ok(compiled) => compiled,
                Err(_) => return Err(ProcedureFault::NoMemory),
            };
            match Template::new(alloc, draft, keys, values) {
                Ok(template) => Ok(Accepted { template, compiled }),
                Err(_) => Err(ProcedureFault::NoMemory),
            }
        }
    }
}
