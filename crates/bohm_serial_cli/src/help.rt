//! The program's name and its help.

use bohm_command::Program;

/// What help says above the options.
const ABOUT: &str = "\
Runs the log of transactions on standard input one after another, and prints
the replies and the store, as bohm does without options. It has no planning, no
batches and no threads: it is the baseline for measuring bohm.";

/// What help says below the options.
const AFTER_HELP: &str = "\
Exit status:
  0  the answer was printed, or this help
  1  the run was refused: standard error has the fault's line
  2  the arguments were refused: standard error says why";

/// The program.
pub const SERIAL: Program<'static> = Program {
    name: "serial",
    about: ABOUT,
    after_help: AFTER_HELP,
};
