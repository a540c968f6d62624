//! The command and its options.

ghost use Rattle.std.specs.Prelude.{◌≡◌, false, IfOk};
ghost use Rattle.clap.specs.Words.{app_of, rule_of};
ghost use Rattle.bohm_ledger_cli.specs.Options.{bohm_ledger, word_rule};

use bohm_command::{flag, number};
use bohm_types::LARGEST_BATCH;
use clap::{Arg, Command};
use std::alloc::{AllocError, Global};

/// The program's name.
pub const NAME: &str = "bohm-ledger";

/// The longest wait, in microseconds.
pub const LONGEST_WAIT: u32 = 60_000_000;

/// What help says above the options.
const ABOUT: &str = "\
Answers the requests on standard input, one after another, by a ledger in a
file, which is made if it isn't there: bohm-ledger [OPTIONS] FILE. What an
answer says is on the disk.

bohm-ledger --log [FROM [TO]] FILE prints the log of these transactions, calls
written out, with the store before them: bohm answers it alike.";

const EDITION: &str = "\
The edition of a new ledger, 1 or 2 [default: 2]; that of one
which is there stands, and another one is refused";

const BATCH: &str = "\
The most requests that are stored in one commit, 1 to 4096
[default: 4096]";

const WAIT: &str = "\
How many microseconds a commit waits for more requests, 0 to
60000000 [default: 0]";

const LOG: &str = "\
Print the log of the transactions from number FROM to number
TO, instead of answering requests [default: all of them]";

const FROM: &str = "\
With --log, the first transaction";

const TO: &str = "\
With --log, the last transaction";

const FILE: &str = "\
The ledger's file";

/// What help says below the options.
const AFTER_HELP: &str = "\
Requests:
  define [#ID] NAME, and a procedure's lines
  call [#ID] NAME ARGUMENT..
  txn [#ID], and a transaction's lines
  get KEY, get KEY at N
  top
  digest
  checkpoint

docs/ledger.md describes entries, ids and answers.

Exit status:
  0  the requests were answered, the log was printed, or this help
  1  the file is no ledger, in use or damaged, or a write failed: standard error
     says which, and what was answered is on the disk
  2  the arguments were refused: standard error says why";

/// The ids of the words that aren't options. The file is the last one that is given.
pub const FIRST: &str = "first";

pub const SECOND: &str = "second";

pub const THIRD: &str = "third";

fn word<'a>(alloc: Global, id: &'a str, name: &'a str, help: &'a str) -> Arg<'a>
    ensures rule { rule_of result ≡ word_rule id.entry.now }
    ensures local { result.global ≡ false }
{
    Arg::new(alloc, id).value_name(name).help(help)
}

/// The command.
pub fn command<'a>(alloc: Global) -> Result<Command<'a>, AllocError>
    ensures { IfOk result (λ command. app_of command ≡ bohm_ledger) }
{
    Command::new(alloc, NAME)
        .about(ABOUT)
        .after_help(AFTER_HELP)
        .arg(number(alloc, "edition", 1, 2, EDITION))?
        .arg(number(alloc, "batch", 1, LARGEST_BATCH, BATCH))?
        .arg(number(alloc, "wait", 0, LONGEST_WAIT, WAIT))?
        .arg(flag(alloc, "log", LOG))?
        .arg(word(alloc, FIRST, "FROM", FROM))?
        .arg(word(alloc, SECOND, "TO", TO))?
        .arg(word(alloc, THIRD, "FILE", FILE))
}
