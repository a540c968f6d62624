//! The document of a log, or a run's refusal.

ghost use Rattle.std.specs.Prelude.{◌≡◌, Err, OnOk, IfOk, IfErr};
ghost use Rattle.bohm_answer.specs.declared.fault.RunFault.TheVariants as run;
ghost use Rattle.bohm_report.specs.Refusals.{IsReported};
ghost use Rattle.bohm_txn.specs.declared.fault.CheckFault.{CheckFault};
ghost use Rattle.bohm_report.specs.Refused.{RunRefuses, fault_of};
ghost use Rattle.bohm_text.specs.Print.{print_doc};
ghost use Rattle.bohm_txn.specs.Faulty.{WellFormed};
ghost use Rattle.bohm_types.specs.Sound.{IsDocument};
ghost use Rattle.bohm_run.specs.Headline.{IsBeforeWriting};

use crate::checking::check_text;
use crate::refusal::Refusal;
use bohm_answer::RunFault;
use bohm_log::DrawnSeed;
use bohm_txn::Checked;
use std::alloc::Global;
use std::random::RandomSource;

/// The fault of a run on a text that is refused.
fn fault_of(refusal: Refusal) -> RunFault
    ensures { result ≡ fault_of refusal }
{
    match refusal {
        Refusal::Text(fault) => RunFault::from(fault),
        Refusal::Check(fault) => RunFault::Check(fault),
        Refusal::NoMemory => RunFault::NoMemory,
    }
}

/// The checked document of a text, or the fault with which a run refuses the text. Messages for
/// people about why it isn't a valid log are added to the report, as long as allocations succeed.
///
/// The time grows with the length of the text, and with the number k of its keys as k log k.
pub fn check_reported<T: RandomSource>(
    rt: &T,
    alloc: Global,
    text: &[u8],
    report: &mut Vec<u8>,
) -> Result<Checked, RunFault>
    ensures found { IfOk result (λ checked. print_doc checked ≡ text.now) }
    ensures sound { IfOk result IsDocument }
    ensures well_formed { IfOk result WellFormed }
    ensures silent { OnOk result (report.new ≡ report.old) }
    ensures err { IfErr result (RunRefuses text.now) }
    ensures reported { (f : CheckFault) → result ≡ Err (run.Check f)
        → IsReported text.now report.old.items report.new.items }
    ensures before { IfErr result IsBeforeWriting }
{
    match check_text(alloc, DrawnSeed::draw(rt), text, report) {
        Ok(checked) => Ok(checked),
        Err(refusal) => Err(fault_of(refusal)),
    }
}
