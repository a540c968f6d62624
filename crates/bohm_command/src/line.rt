//! The command line: a program's name and its arguments.

ghost use Rattle.std.specs.Prelude.{◌≡◌, true, [], ◌∷◌, map, string_bytes, IfOk, IfErr};
ghost use Rattle.bohm_command.specs.Faults.{IsNoMemory, IsFoundAmong};
ghost use Rattle.clap.specs.Walk.{texts};
ghost use Rattle.clap.specs.Words.{app_of, fault_of, found_of, is_simple_and_free, matches_of};
ghost use Rattle.clap.specs.Words.{rows_of, takes, IsParsedFrom};

use crate::fault::ArgumentFault;
use clap::{ArgMatches, Command};
use std::alloc::{AllocError, Global};
use std::env::{self, Env};
use std::io;

/// The arguments of the program with this name. An argument that isn't UTF-8 can't be passed to
/// clap here, and is refused with the text that clap has for it in Rust.
pub fn arguments_given<R: Env + AllocGlobal>(
    rt: &R,
    name: &str,
) -> Result<Vec<String>, ArgumentFault> {
    let mut given = match env::args(rt) {
        Ok(given) => given,
        Err(error) if error.kind() == io::ErrorKind::OutOfMemory => {
            return Err(ArgumentFault::NoMemory);
        }
        Err(error) if error.kind() == io::ErrorKind::InvalidData => {
            return Err(ArgumentFault::Bad(not_utf8(rt.alloc(), name)?));
        }
        Err(error) => {
            return Err(ArgumentFault::Bad(format!(in rt.alloc(); "error: {error}\n")?));
        }
    };
    let _program = given.next();
    let mut arguments = Vec::new(rt.alloc());
    for argument in given {
        arguments.push(argument)?;
    }
    Ok(arguments)
}

/// The message about an argument that isn't UTF-8.
fn not_utf8(alloc: Global, name: &str) -> Result<String, AllocError> {
    format!(in alloc;
        "\
error: invalid UTF-8 was detected in one or more arguments

Usage: {name} [OPTIONS]

For more information, try '--help'.
"
    )
}

/// The program's name and its arguments.
pub fn command_line<'a>(
    alloc: Global,
    name: &'a str,
    arguments: &'a [String],
) -> Result<Vec<&'a str>, AllocError>
    ensures { IfOk result (λ line. texts line.items
        ≡ name.entry.now ∷ map string_bytes arguments.entry.now) }
{
    let mut line = Vec::new(alloc);
    line.push(name)?;
    for argument in arguments {
        line.push(argument.as_str())?;
    }
    Ok(line)
}

/// Parses a line that begins with the command's name. A line that the command doesn't accept is
/// refused with clap's text.
pub fn parse_line<'a>(
    alloc: Global,
    command: Command<'a>,
    line: &'a [&'a str],
) -> Result<ArgMatches<'a>, ArgumentFault>
    requires simple { is_simple_and_free (app_of command) ≡ true }
    ensures parsed { IfOk result (IsParsedFrom command.entry) }
    ensures rows { IfOk result (λ matches. rows_of (found_of matches)
        ≡ matches_of (app_of command.entry) (texts line.entry.now)) }
    ensures faultless { IfOk result (λ _.
        fault_of (app_of command.entry) (texts line.entry.now) ≡ []) }
    ensures taken { takes (app_of command.entry) (texts line.entry.now) ≡ true
        → IfErr result IsNoMemory }
    ensures found { IfErr result (IsFoundAmong
        (fault_of (app_of command.entry) (texts line.entry.now))) }
{
    match command.try_get_matches_from(line) {
        Ok(matches) => Ok(matches),
        Err(error) => Err(ArgumentFault::of(alloc, error)),
    }
}
