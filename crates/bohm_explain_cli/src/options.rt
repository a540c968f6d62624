//! The command and its options.

ghost use Rattle.std.specs.Prelude.{◌≡◌, IfOk};
ghost use Rattle.clap.specs.Words.{app_of};
ghost use Rattle.bohm_explain_cli.specs.Options.{explain};

use bohm_command::{Program, command_with_file, flag, number};
use bohm_explain::{LAST_PART, MOST_LISTED};
use bohm_settings::{LARGEST_BATCH, MOST_PARTS, MOST_WORKERS};
use clap::Command;
use std::alloc::{AllocError, Global};

/// What help says above the options.
const ABOUT: &str = "\
Explains why the log of transactions in a file, or on standard input, scales or
doesn't: the parts that bohm makes of it with the same options, whether several
workers share each, how many of its transactions wait for one another, and how long
their longest chain is, as a table with a line for each part, and which keys are
the hottest. Nothing is run, but with --replies.

Of a procedure, whose first line is 'procedure 1' or 'procedure 2', what its calls
cost.";

const CC: &str = "\
Planning workers of the run, 1 to 16 [default: 1]";

const EXEC: &str = "\
Executing workers of the run, 1 to 16 [default: 1]";

const PARTS: &str = "\
Partitions of the keys in the run, 1 to 64 [default: 1]";

const BATCH: &str = "\
Transactions in a batch of the run, 1 to 4096
[default: 4096]";

const SUMMARY: &str = "\
Leave out the figures of each part";

const JSON: &str = "\
Print the figures as JSON instead of a table";

const REPLIES: &str = "\
Run the log, and print instead of all figures why each of its
transactions aborts that does";

const TOP: &str = "\
Keys to list below the table, the hottest first, 0 to 1000
[default: 10]";

const PICTURE: &str = "\
Print an SVG instead of all figures: the parts, and the
conflicts of the part with this number by key, 1 to 1000000.
The log must have this part";

/// What help says below the options.
const AFTER_HELP: &str = "\
Columns:
  part          the number of the part, from 1, and 'all' for the whole log: a
                window that runs on one thread, or a batch of a shared one
  from          the number in the log of its first transaction
  run           'shared' by several workers; or why it runs in log order: 'one'
                executing worker, or 'short' bodies
  transactions  the transactions of the part
  keys          the keys that they declare; one both read and written counts twice
  sure          the transactions that commit whatever the store holds
  taken         declared keys whose version an earlier transaction of the
                part makes, so that it is waited for: the keys read and,
                except for sure transactions, the keys written
  depth         transactions on the longest chain of such waits
  width         transactions over depth: the highest speedup that executing
                workers can give, if all transactions take equally long
  terms         the terms in the transactions' bodies, 1 for a body without
  heaviest      the most terms on a chain of waits
  width         terms over heaviest: the same if a transaction takes as long
                as it has terms

Parts run one after another, so the depths of 'all' are sums.

Hottest keys:
  writers       the transactions of the log that declare to write the key
  readers       those that declare to read it
  chain         transactions on the longest chain with a wait for the key

Below them are the transactions of one of the longest chains, by their numbers in
the log: the first hundred, or all of them with --json.

A picture has a band for each of the first 1000 parts, as long as the part has
transactions, with its longest chain in red; and for the keys with the most waits
in one part an arc from each transaction to one that waits for it.

The last line says which key is on the longest chain, and the highest speedup that
more executing workers can give to the execution, and to the whole run. The second
follows from the first: as measured, execution takes an eighth of a run.

With --replies there is a line for each transaction that aborts: its reply, as bohm
prints it, the statement that failed, and that statement's line in the log:
  3 abort need 1: need alice >= 30 (line 17)

Of a procedure there is one line, of its own instance, and whether several workers
run calls faster than one:
  statements    the statements of a call's body, one for each value among them
  terms         the terms in them, or 1
  reads         the keys that a call declares to read; fewer, as with writes,
                where two of its arguments are one key
  writes        the keys that it declares to write
  accesses      the accesses that are planned for it: reads and writes
  run           how bohm runs a list of calls with the same options

Examples:
  bohm-explain --replies bank.log
  bohm-explain --exec 4 --batch 1000 --top 20 bank.log
  bohm-explain --summary --json bank.log > bank.json
  bohm-explain --exec 4 --svg 3 bank.log > third.svg

Exit status:
  0  the explanation was printed, or help or the version
  1  the text was refused, as procedures are with --replies and --svg, or the
     log lacks the part to be drawn: standard error has the fault's line, and
     for a bad text what bohm-check says
  2  the arguments were refused, or the file can't be opened: standard error
     says why";

/// The program.
pub const EXPLAIN: Program<'static> = Program {
    name: "bohm-explain",
    about: ABOUT,
    after_help: AFTER_HELP,
};

/// The command.
pub fn command<'a>(alloc: Global) -> Result<Command<'a>, AllocError>
    ensures { IfOk result (λ command. app_of command ≡ explain) }
{
    command_with_file(alloc, EXPLAIN)?
        .arg(number(alloc, "cc", 1, MOST_WORKERS, CC))?
        .arg(number(alloc, "exec", 1, MOST_WORKERS, EXEC))?
        .arg(number(alloc, "parts", 1, MOST_PARTS, PARTS))?
        .arg(number(alloc, "batch", 1, LARGEST_BATCH, BATCH))?
        .arg(number(alloc, "top", 0, MOST_LISTED, TOP))?
        .arg(number(alloc, "svg", 1, LAST_PART, PICTURE))?
        .arg(flag(alloc, "summary", SUMMARY))?
        .arg(flag(alloc, "json", JSON))?
        .arg(flag(alloc, "replies", REPLIES))
}
