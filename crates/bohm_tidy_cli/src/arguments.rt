//! What the arguments ask for.

ghost use Rattle.std.specs.Prelude.{◌≡◌, [], map, option_map, string_bytes, IfOk, IfErr};
ghost use Rattle.bohm_command.specs.Options.{file_in};
ghost use Rattle.bohm_command.specs.Taken.{AreTaken, faults_in, rows_in};
ghost use Rattle.bohm_command.specs.Faults.{IsNoMemory, IsFoundAmong};
ghost use Rattle.bohm_tidy_cli.specs.Options.{tidy, wishes_in};

use crate::options::{TIDY, command};
use bohm_command::{ArgumentFault, command_line, file_given, is_given, parse_line};
use std::alloc::Global;

/// What is to be written.
#[derive(Clone, Copy, Debug, PartialEq, Eq)]
pub struct Wishes {
    /// Nothing but the faults of the text and of the check.
    pub check: bool,
    /// The comments too.
    pub keep_comments: bool,
}

/// What the arguments ask for.
#[derive(Debug, Drop)]
pub struct Arguments {
    /// The name of the file to read, in place of standard input.
    pub file: Option<String>,
    pub wishes: Wishes,
}

/// What the arguments after the program's name ask for. Arguments that clap doesn't accept are
/// refused with its text.
pub fn read_arguments(alloc: Global, arguments: &[String]) -> Result<Arguments, ArgumentFault>
    ensures file { IfOk result (λ taken. option_map string_bytes taken.file
        ≡ file_in (rows_in tidy (map string_bytes arguments.now))) }
    ensures ok { IfOk result (λ taken. taken.wishes ≡ wishes_in (map string_bytes arguments.now)) }
    ensures faultless { IfOk result (λ _. faults_in tidy (map string_bytes arguments.now) ≡ []) }
    ensures taken { AreTaken tidy (map string_bytes arguments.now) → IfErr result IsNoMemory }
    ensures found { IfErr result (IsFoundAmong (faults_in tidy (map string_bytes arguments.now))) }
{
    let line = command_line(alloc, TIDY.name, arguments)?;
    let matches = parse_line(alloc, command(alloc)?, line.as_slice())?;
    let wishes = Wishes {
        check: is_given(&matches, "check"),
        keep_comments: is_given(&matches, "keep-comments"),
    };
    let file = file_given(alloc, &matches)?;
    Ok(Arguments { file, wishes })
}
