//! Programs without their own options.

ghost use Rattle.std.specs.Prelude.{◌≡◌, true, [], map, string_bytes, IfOk, IfErr};
ghost use Rattle.clap.specs.Words.{app_of, is_simple_and_free, new_app};
ghost use Rattle.bohm_command.specs.Faults.{IsNoMemory, IsFoundAmong};
ghost use Rattle.bohm_command.specs.Taken.{AreTaken, faults_in};

use crate::fault::ArgumentFault;
use crate::line::{arguments_given, command_line, parse_line};
use clap::Command;
use std::alloc::Global;
use std::env::Env;

/// A program that accepts no argument but a request for help.
#[derive(Clone, Copy, Debug)]
pub struct Program<'a> {
    pub name: &'a str,
    /// The help texts above and below the options.
    pub about: &'a str,
    pub after_help: &'a str,
}

/// The program's command.
fn command<'a>(alloc: Global, program: Program<'a>) -> Command<'a>
    ensures { app_of result ≡ new_app program.entry.name.now }
{
    Command::new(alloc, program.name)
        .about(program.about)
        .after_help(program.after_help)
}

/// Accepts no arguments after the program's name. Arguments, and a request for help, are refused
/// with clap's text.
pub fn read_no_options(
    alloc: Global,
    program: Program<'_>,
    arguments: &[String],
) -> Result<(), ArgumentFault>
    requires simple { is_simple_and_free (new_app program.name.now) ≡ true }
    ensures faultless { IfOk result (λ _.
        faults_in (new_app program.entry.name.now) (map string_bytes arguments.now) ≡ []) }
    ensures taken { AreTaken (new_app program.entry.name.now) (map string_bytes arguments.now)
        → IfErr result IsNoMemory }
    ensures found { IfErr result (IsFoundAmong
        (faults_in (new_app program.entry.name.now) (map string_bytes arguments.now))) }
{
    let line = command_line(alloc, program.name, arguments)?;
    match parse_line(alloc, command(alloc, program), line.as_slice()) {
        Ok(_) => Ok(()),
        Err(fault) => Err(fault),
    }
}

/// Accepts no arguments on the command line, as `read_no_options` does.
pub fn no_options_given<R: Env + AllocGlobal>(
    rt: &R,
    program: Program<'_>,
) -> Result<(), ArgumentFault>
    requires simple { is_simple_and_free (new_app program.name.now) ≡ true }
{
    let arguments = arguments_given(rt, program.name)?;
    read_no_options(rt.alloc(), program, arguments.as_slice())
}
