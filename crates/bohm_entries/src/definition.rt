//! The procedure of a definition.

ghost use Rattle.std.specs.Prelude.{◌≡◌, ◌≢◌, ◌⊎◌, ℕ, Err, IfOk};
ghost use Rattle.bohm_types.specs.Procedure.{Procedure as TheProcedure};
ghost use Rattle.bohm_txn.specs.declared.fault.CheckFault.{CheckFault as TheFault};
ghost use Rattle.bohm_text.specs.Cut.{whole_lines};
ghost use Rattle.bohm_text.specs.ProcedureFaults.{IsFirstBadLine, IsShort};
ghost use Rattle.bohm_text.specs.ProcedureText.{IsProcedure, print_procedure};
ghost use Rattle.bohm_procedures.specs.Accepting.{IsAccepted, IsRefusedBy};
ghost use Rattle.bohm_entries.specs.declared.refusal.EntryFault.TheVariants as fault_is;
ghost use Rattle.bohm_entries.specs.declared.refusal.Refusal.{Refusal as TheRefusal};
ghost use Rattle.bohm_entries.specs.declared.refusal.Refusal.TheVariants as refusal_is;
ghost use Rattle.bohm_entries.specs.Refusals.{RefusesDefinition};

use crate::refusal::{EntryFault, Refusal};
use bohm_log::DrawnSeed;
use bohm_procedures::{Procedure, ProcedureFault};
use bohm_types::Edition;
use std::alloc::Global;

/// Reads the procedure of a definition in a ledger of this edition. A procedure of another edition
/// is refused at its first line. Its time is that of `Procedure::read`.
pub fn read_definition(
    alloc: Global,
    seed: DrawnSeed,
    edition: Edition,
    text: &[u8],
) -> Result<Procedure, EntryFault>
    ensures found { IfOk result (λ p. print_procedure p ≡ text.now) }
    ensures sound { IfOk result IsProcedure }
    ensures accepted { IfOk result IsAccepted }
    ensures edition { IfOk result (λ p. p.edition ≡ edition) }
    ensures line { (n : ℕ) → result ≡ Err (fault_is.Refused (refusal_is.Line n))
        → IsFirstBadLine (whole_lines text.now) n ⊎ ((n ≡ 1) × ((p : TheProcedure) × (print_procedure p ≡ text.now) × (p.edition ≢ edition))) }
    ensures short { result ≡ Err (fault_is.Refused refusal_is.Short) → IsShort text.now }
    ensures check { (f : TheFault) → result ≡ Err (fault_is.Refused (refusal_is.Check f))
        → IsRefusedBy text.now f }
    ensures refused { (r : TheRefusal) → result ≡ Err (fault_is.Refused r) → RefusesDefinition edition text.now r }
{
    match Procedure::read(alloc, seed, text) {
        Ok(procedure) => {
            if procedure.edition() == edition {
                Ok(procedure)
            } else {
                Err(EntryFault::Refused(Refusal::Line(1)))
            }
        }
        Err(ProcedureFault::Line(line)) => Err(EntryFault::Refused(Refusal::Line(line))),
        Err(ProcedureFault::Short) => Err(EntryFault::Refused(Refusal::Short)),
        Err(ProcedureFault::Check(fault)) => Err(EntryFault::Refused(Refusal::Check(fault))),
        Err(ProcedureFault::NoMemory) => Err(EntryFault::NoMemory),
    }
}
