//! The command and its options.

ghost use Rattle.std.specs.Prelude.{◌≡◌, IfOk};
ghost use Rattle.clap.specs.Words.{app_of};
ghost use Rattle.bohm_cli.specs.Options.{bohm};

use bohm_command::number;
use bohm_run::{LARGEST_BATCH, MOST_KEPT, MOST_PARTS, MOST_WORKERS};
use clap::Command;
use std::alloc::{AllocError, Global};

/// The program's name.
pub const NAME: &str = "bohm";

/// What help says above the options.
const ABOUT: &str = "\
Runs the log of transactions on standard input, and prints the replies and the
store: bohm [OPTIONS] < LOG. Workers, partitions and batches change the speed,
never the answer.";

const CC: &str = "\
Workers that parse the log ahead, window by window, and plan
shared windows, 1 to 16 [default: 1]. Three pay off on logs
of 5 MB and more";

const EXEC: &str = "\
Executing workers, 1 to 16 [default: 1]. Several share a
window if its bodies have 32 statements on average, or if
--batch is below 4096; other windows run on one";

const PARTS: &str = "\
Partitions of the keys, 1 to 64 [default: 1]. In a shared
window each is planned by one of the --cc workers, so no
more of them plan than there are partitions";

const BATCH: &str = "\
Transactions in a batch, 1 to 4096 [default: 4096]. Small
batches take less memory, large ones give workers more to
share";

const KEEP: &str = "\
How many timestamps below the log's length stay readable,
0 to 4096 [default: 0]";

const AT: &str = "\
Print the store as this transaction left it (0: the starting
store), 0 to 4294967295 [default: the log's length]. A
timestamp below the log's length needs --keep";

/// What help says below the options.
const AFTER_HELP: &str = "\
Examples:
  bohm < bank.log
  bohm --cc 3 --keep 10 --at 95 < bank.log

docs/log.md describes logs, with examples. If a log is refused, bohm-check says
what is wrong; bohm-tidy writes the exact text of a loosely written one.
bench/README.md has the measurements, and docs/options.md says how to choose the
numbers of workers.

Exit status:
  0  the answer was printed, or this help
  1  the run was refused: standard error has the fault's line
  2  the arguments were refused: standard error says why";

/// The command.
pub fn command<'a>(alloc: Global) -> Result<Command<'a>, AllocError>
    ensures { IfOk result (λ command. app_of command ≡ bohm) }
{
    Command::new(alloc, NAME)
        .about(ABOUT)
        .after_help(AFTER_HELP)
        .arg(number(alloc, "cc", 1, MOST_WORKERS, CC))?
        .arg(number(alloc, "exec", 1, MOST_WORKERS, EXEC))?
        .arg(number(alloc, "parts", 1, MOST_PARTS, PARTS))?
        .arg(number(alloc, "batch", 1, LARGEST_BATCH, BATCH))?
        .arg(number(alloc, "keep", 0, MOST_KEPT, KEEP))?
        .arg(number(alloc, "at", 0, u32::MAX, AT))
}
