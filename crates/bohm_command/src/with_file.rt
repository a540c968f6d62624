//! Programs that read a file, or else standard input.

ghost use Rattle.std.specs.Prelude.{◌≡◌, false, option_map, string_bytes, IfOk};
ghost use Rattle.clap.specs.Words.{app_of, found_of, rows_of, rule_of};
ghost use Rattle.bohm_command.specs.Options.{file_in, file_rule, with_file};

use crate::fault::ArgumentFault;
use crate::no_options::Program;
use crate::version::VERSION;
use clap::{Arg, ArgMatches, Command};
use std::alloc::{AllocError, Global};
use std::fs::{File, Files};

/// The argument's id.
const FILE: &str = "file";

/// What help says of the argument.
const FILE_HELP: &str = "\
The file to read, instead of standard input";

/// The argument that names a file.
fn file<'a>(alloc: Global) -> Arg<'a>
    ensures rule { rule_of result ≡ file_rule }
    ensures local { result.global ≡ false }
{
    Arg::new(alloc, FILE).value_name("FILE").help(FILE_HELP)
}

/// The command of a program that takes the name of a file, which may be left out, and that prints
/// its version on request.
pub fn command_with_file<'a>(alloc: Global, program: Program<'a>) -> Result<Command<'a>, AllocError>
    ensures { IfOk result (λ command. app_of command ≡ with_file program.entry.name.now) }
{
    Command::new(alloc, program.name)
        .about(program.about)
        .after_help(program.after_help)
        .version(VERSION)
        .arg(file(alloc))
}

/// The name of the file, if the arguments have one.
pub fn file_given(alloc: Global, matches: &ArgMatches<'_>) -> Result<Option<String>, AllocError>
    ensures { IfOk result (λ name. option_map string_bytes name
        ≡ file_in (rows_of (found_of matches.now))) }
{
    match matches.get_str(FILE) {
        Some(name) => Ok(Some(String::from_str(alloc, name)?)),
        None => Ok(None),
    }
}

/// Opens the file of this name for reading. Where that fails, the text says why.
pub fn opened<R: Files + AllocGlobal>(rt: &R, name: &str) -> Result<R::File, ArgumentFault> {
    match File::open(rt, name) {
        Ok(file) => Ok(file),
        Err(error) => {
            Err(ArgumentFault::Bad(format!(in rt.alloc(); "error: can't open {name}: {error}\n")?))
        }
    }
}
