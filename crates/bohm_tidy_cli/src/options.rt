//! The command, its options and its help.

ghost use Rattle.std.specs.Prelude.{◌≡◌, IfOk};
ghost use Rattle.clap.specs.Words.{app_of};
ghost use Rattle.bohm_tidy_cli.specs.Options.{tidy};

use bohm_command::{Program, command_with_file, flag};
use clap::Command;
use std::alloc::{AllocError, Global};

/// What help says above the options.
const ABOUT: &str = "\
Writes the exact text of the log of transactions, or of the procedure, in a file or
on standard input, which may be loosely written:

  - comments, from # to the end of a line, and empty lines
  - spaces and tabs before, between and after words; Windows line endings; a
    byte order mark; no newline after the last line
  - sums, comparisons and = without spaces: set a=b+c-5 when d<=0
  - the keys of the store, of reads and of writes in any order, and a key of
    reads or of writes more than once
  - reads or writes left out: a line is added with what the body reads or writes
  - - 0 and + -3 in sums, which become + 0 and - 3

bohm, bohm-check and bohm-explain accept the exact text. Nothing is run; bohm-check
reports undeclared keys and the like.";

/// What help says below the options.
const AFTER_HELP: &str = "\
Example:

  log 2              # the first line is needed: log 1 or log 2
  bob 5
  alice   100

  txn                # alice pays bob, if she can
    need alice>=30
    set alice=alice-30
    set bob=bob+30
  end

becomes

  log 2
  alice 100
  bob 5
  txn
  reads alice bob
  writes alice bob
  need alice >= 30
  set alice = alice - 30
  set bob = bob + 30
  end

bohm-tidy refuses a line that can't be parsed, a text that ends too soon, a key that
the store names twice, and more than 67108864 bytes, of the text or of the exact
text. Below the refusal is what is wrong, as bohm-check reports it: the line of the
text as it was given, a caret, what was expected, and a corrected line.

To run it:
  bohm-tidy loose.log > exact.log
  bohm-tidy loose.log | bohm
  bohm-tidy --check loose.log

Exit status:
  0  the exact text was printed, or help or the version
  1  the text was refused: standard error says why, and nothing was printed
  2  the arguments were refused, or the file can't be opened: standard error
     says why";

/// The program.
pub const TIDY: Program<'static> = Program {
    name: "bohm-tidy",
    about: ABOUT,
    after_help: AFTER_HELP,
};

const CHECK: &str = "\
Write nothing but what bohm-check says of the exact text, at the
lines of the text as it was given";

const KEEP_COMMENTS: &str = "\
Keep the comments: without this option bohm-tidy writes the
exact text of what it wrote";

/// The command.
pub fn command<'a>(alloc: Global) -> Result<Command<'a>, AllocError>
    ensures { IfOk result (λ command. app_of command ≡ tidy) }
{
    command_with_file(alloc, TIDY)?
        .arg(flag(alloc, "check", CHECK))?
        .arg(flag(alloc, "keep-comments", KEEP_COMMENTS))
}
