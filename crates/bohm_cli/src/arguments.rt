//! Settings from the arguments.

ghost use Rattle.std.specs.Prelude.{◌≡◌, [], map, string_bytes, IfOk, IfErr};
ghost use Rattle.bohm_command.specs.Taken.{AreTaken, faults_in};
ghost use Rattle.bohm_command.specs.Faults.{IsNoMemory, IsFoundAmong};
ghost use Rattle.bohm_cli.specs.Options.{bohm};
ghost use Rattle.bohm_cli.specs.Taken.{settings_in};

use crate::options::{NAME, command};
use bohm_command::{ArgumentFault, command_line, parse_line};
use bohm_run::Settings;
use std::alloc::Global;

/// The settings that the arguments after the program's name give; absent options have their
/// defaults. Arguments that clap doesn't accept are refused with its text.
pub fn read_arguments(alloc: Global, arguments: &[String]) -> Result<Settings, ArgumentFault>
    ensures ok { IfOk result (λ settings. settings ≡ settings_in (map string_bytes arguments.now)) }
    ensures faultless { IfOk result (λ _. faults_in bohm (map string_bytes arguments.now) ≡ []) }
    ensures taken { AreTaken bohm (map string_bytes arguments.now) → IfErr result IsNoMemory }
    ensures found { IfErr result (IsFoundAmong (faults_in bohm (map string_bytes arguments.now))) }
{
    let line = command_line(alloc, NAME, arguments)?;
    let matches = parse_line(alloc, command(alloc)?, line.as_slice())?;
    let defaults = Settings::default();
    let settings = Settings::new(
        matches.get_one("cc").unwrap_or(defaults.cc().count()),
        matches.get_one("exec").unwrap_or(defaults.exec().count()),
        matches.get_one("parts").unwrap_or(defaults.parts()),
        matches.get_one("batch").unwrap_or(defaults.batch()),
        matches
            .get_one("keep")
            .unwrap_or(defaults.keep().timestamps()),
        matches.get_one("at"),
    );
    Ok(settings.unwrap())
}
