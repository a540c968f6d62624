//! What the calls of a procedure cost.

ghost use Rattle.std.specs.Prelude.{◌≡◌, ◌++◌, [], ◌∷◌, if◌then◌else◌, length, IfOk};
ghost use Rattle.bohm_types.specs.Txn.{Txn};
ghost use Rattle.bohm_place.specs.Shares.{AreWellFormed};
ghost use Rattle.bohm_procedures.specs.Accepting.{IsAccepted, own};
ghost use Rattle.bohm_read_ahead.specs.Sharing.{is_shared};
ghost use Rattle.bohm_text.specs.ProcedureText.{IsProcedure};
ghost use Rattle.bohm_text.specs.declared.fault.TextFault.TheVariants as faults;
ghost use Rattle.bohm_explain.specs.Costs.{cost_json, cost_of, cost_table, costs_text};
ghost use Rattle.bohm_explain.specs.Costs.{pays_words, several, truth};

use crate::pieces::{Piece, put};
use crate::request::Request;
use crate::table::word_for;
use crate::weights::{declared_by, weight};
use bohm_log::{CloseFault, DrawnSeed, HashSeed, Log, LogPart};
use bohm_procedures::Procedure;
use bohm_read_ahead::{Sharing, sharing_of};
use bohm_settings::{LARGEST_BATCH, Settings};
use bohm_text::{TextFault, parse_procedure};
use bohm_types::NoMemory;
use std::alloc::Global;

/// What a call costs.
#[derive(Clone, Copy, Debug, PartialEq, Eq)]
pub struct Cost {
    /// The statements of its body; each value is bound by one.
    pub statements: u64,
    /// Their terms, or 1 if there are none.
    pub terms: u64,
    /// The keys that it declares to read.
    pub reads: u64,
    /// The keys that it declares to write.
    pub writes: u64,
    /// The accesses that are planned for it: one for each declared key.
    pub accesses: u64,
    /// Whether several workers share a list of such calls, or why not.
    pub sharing: Sharing,
    /// Whether several workers run such calls faster than one.
    pub pays: bool,
}

/// Whether several workers run these transactions faster than one, by the rule of a run.
fn pays(txns: &LogPart<'_>) -> bool
    requires alone { length txns.now ≡ 1 }
    requires formed { AreWellFormed txns.now }
    ensures { result ≡ is_shared several txns.now }
{
    let Some(several) = Settings::new(1, 2, 1, LARGEST_BATCH, 0, None) else {
        unreachable!()
    };
    matches!(sharing_of(txns, several), Sharing::Shared)
}

/// What the only one of these transactions costs.
fn cost_of(txns: &LogPart<'_>, settings: Settings) -> Cost
    requires alone { length txns.now ≡ 1 }
    requires formed { AreWellFormed txns.now }
    ensures { (t : Txn) → txns.now ≡ t ∷ [] → result ≡ cost_of settings t }
{
    let txn = txns.txn(0);
    Cost {
        statements: txn.body_len() as u64,
        terms: u64::from(weight(&txn)),
        reads: txn.reads().len() as u64,
        writes: txn.writes().len() as u64,
        accesses: u64::from(declared_by(&txn)),
        sharing: sharing_of(txns, settings),
        pays: pays(txns),
    }
}

/// The fault of reading a text that a procedure has printed.
fn no_memory(fault: TextFault) -> NoMemory
    requires { fault ≡ faults.NoMemory }
{
    // Only the `requires` needs the fault.
    let _ = fault;
    NoMemory
}

/// The log of a procedure's own instance alone.
fn own_log(alloc: Global, seed: DrawnSeed, procedure: &Procedure) -> Result<Log<HashSeed>, NoMemory>
    requires { IsProcedure procedure.now }
    ensures { IfOk result (λ log. log ≡ own procedure.now ∷ []) }
{
    let seed = HashSeed::from(seed);
    let text = procedure.print(alloc)?;
    let reader = match parse_procedure(alloc, seed, text.as_slice()) {
        Ok(reader) => reader,
        Err(fault) => return Err(no_memory(fault)),
    };
    let mut log = Log::new(alloc, seed);
    match log.close(&reader.draft) {
        Ok(()) => Ok(log),
        Err(CloseFault::Log(_)) => Err(NoMemory),
        Err(CloseFault::Open) => unreachable!(),
    }
}

fn pays_words(pays: bool) -> &'static [u8]
    ensures { result.now ≡ pays_words pays }
{
    if pays {
        b"several executing workers run such calls faster than one: a plan, a claim and an install take less time than a body\n"
    } else {
        b"one executing worker runs such calls faster than several: a plan, a claim and an install take longer than a body\n"
    }
}

fn truth(is: bool) -> &'static [u8]
    ensures { result.now ≡ truth is }
{
    if is { b"true" } else { b"false" }
}

fn put_table(out: &mut Vec<u8>, cost: Cost) -> Result<(), NoMemory>
    ensures { IfOk result (λ _. out.new.items ≡ out.old.items ++ cost_table cost) }
{
    put(
        out,
        &[
            Piece::Text(b"statements     terms     reads    writes  accesses     run\n"),
            Piece::Number(10, cost.statements),
            Piece::Number(10, cost.terms),
            Piece::Number(10, cost.reads),
            Piece::Number(10, cost.writes),
            Piece::Number(10, cost.accesses),
            Piece::Right(8, word_for(cost.sharing)),
            Piece::Text(b"\n\n"),
            Piece::Text(pays_words(cost.pays)),
        ],
    )
}

fn put_json(out: &mut Vec<u8>, cost: Cost) -> Result<(), NoMemory>
    ensures { IfOk result (λ _. out.new.items ≡ out.old.items ++ cost_json cost) }
{
    put(
        out,
        &[
            Piece::Decimal(b"{\"statements\":", cost.statements),
            Piece::Decimal(b",\"terms\":", cost.terms),
            Piece::Decimal(b",\"reads\":", cost.reads),
            Piece::Decimal(b",\"writes\":", cost.writes),
            Piece::Decimal(b",\"accesses\":", cost.accesses),
            Piece::Text(b",\"run\":\""),
            Piece::Text(word_for(cost.sharing)),
            Piece::Text(b"\",\"workers_pay\":"),
            Piece::Text(truth(cost.pays)),
            Piece::Text(b"}\n"),
        ],
    )
}

/// What a call of a procedure costs, as a table or in JSON: the counts of its own instance, and how
/// a run with the request's settings runs a list of calls. The time grows with the procedure's text.
pub fn print_costs(
    alloc: Global,
    seed: DrawnSeed,
    procedure: &Procedure,
    request: Request,
) -> Result<Vec<u8>, NoMemory>
    requires sound { IsProcedure procedure.now }
    requires accepted { IsAccepted procedure.now }
    ensures { IfOk result (λ text. text.items ≡ costs_text request procedure.now) }
{
    let log = own_log(alloc, seed, procedure)?;
    let cost = cost_of(&log.part(), request.settings());
    let mut out = Vec::new(alloc);
    if request.layout().json {
        put_json(&mut out, cost)?;
        return Ok(out);
    }
    put_table(&mut out, cost)?;
    Ok(out)
}
