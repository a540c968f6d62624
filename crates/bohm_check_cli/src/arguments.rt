//! What the arguments ask for.

ghost use Rattle.std.specs.Prelude.{◌≡◌, [], map, option_map, string_bytes, IfOk, IfErr};
ghost use Rattle.bohm_command.specs.Faults.{IsNoMemory, IsFoundAmong};
ghost use Rattle.bohm_command.specs.Options.{file_in};
ghost use Rattle.bohm_command.specs.Taken.{AreTaken, faults_in, rows_in};
ghost use Rattle.bohm_check_cli.specs.Options.{check};

use crate::help::CHECK;
use bohm_command::{ArgumentFault, command_line, command_with_file, file_given, parse_line};
use std::alloc::Global;

/// The name of the file to check, if the arguments after the program's name have one. Arguments that
/// clap doesn't accept are refused with its text.
pub fn read_arguments(alloc: Global, arguments: &[String]) -> Result<Option<String>, ArgumentFault>
    ensures ok { IfOk result (λ file. option_map string_bytes file
        ≡ file_in (rows_in check (map string_bytes arguments.now))) }
    ensures faultless { IfOk result (λ _. faults_in check (map string_bytes arguments.now) ≡ []) }
    ensures taken { AreTaken check (map string_bytes arguments.now) → IfErr result IsNoMemory }
    ensures found { IfErr result (IsFoundAmong (faults_in check (map string_bytes arguments.now))) }
{
    let line = command_line(alloc, CHECK.name, arguments)?;
    let matches = parse_line(alloc, command_with_file(alloc, CHECK)?, line.as_slice())?;
    Ok(file_given(alloc, &matches)?)
}
