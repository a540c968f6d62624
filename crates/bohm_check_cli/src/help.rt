//! The program's name and its help.

use bohm_command::Program;

/// What help says above the options.
const ABOUT: &str = "\
Checks whether the text of a file, or on standard input, is a log that bohm runs,
or a procedure, and if it isn't, shows what to fix. Nothing is run.";

/// What help says below the options.
const AFTER_HELP: &str = "\
A log is summarized in one line: its edition, the keys of its store, its
transactions, the distinct keys of the store and of all sets, and how many
transactions are sure, that is, commit on every store.

A text whose first line is 'procedure 1' or 'procedure 2' is a procedure:
  procedure 2, 2 keys, 1 value, 5 statements

Otherwise standard error has the line with which bohm refuses the text, and then
what is wrong. Bad lines are shown with a caret below the byte at which they go
wrong, and what was expected, up to 20 of them. If a log has none and has other
faults, up to 20 of those are shown in order:

  line 9, transaction 2, statement 1:
      set carol = bob + 5
          ^^^^^
  carol is written and isn't declared: line 8 has `writes bob`
  help, line 8: writes bob carol

'help: ' is followed by the line to write instead of the one shown,
'help, line 8: ' by the line to write instead of line 8. Lines, transactions and
statements count from 1. docs/log.md describes logs by examples.

A note on a procedure of edition 1 names a statement that may read a key's value
from before the transaction, where two of its arguments are one key.

bohm-tidy writes the exact text of a loosely written log: with comments, indents,
empty lines or its keys in any order.

Examples:
  bohm-check bank.log
  bohm-tidy draft.txt > bank.log && bohm-check bank.log

Exit status:
  0  the text is a log or a procedure, or help or the version was printed
  1  it isn't, or couldn't be read: standard error says why
  2  the arguments were refused, or the file can't be opened: standard error
     says why";

/// The program.
pub const CHECK: Program<'static> = Program {
    name: "bohm-check",
    about: ABOUT,
    after_help: AFTER_HELP,
};
