//! The request that the arguments make.

ghost use Rattle.std.specs.Prelude.{◌≡◌, [], if◌then◌else◌, map, option_map, string_bytes, IfOk};
ghost use Rattle.std.specs.Prelude.{IfErr};
ghost use Rattle.bohm_command.specs.Options.{file_in};
ghost use Rattle.bohm_command.specs.Taken.{AreTaken, faults_in, rows_in};
ghost use Rattle.bohm_command.specs.Faults.{IsNoMemory, IsFoundAmong};
ghost use Rattle.bohm_explain_cli.specs.Options.{explain};
ghost use Rattle.bohm_explain_cli.specs.Taken.{wish_in};
ghost use Rattle.bohm_explain_cli.specs.declared.arguments.Wish.TheVariants.{Figures, Aborts};

use crate::options::{EXPLAIN, command};
use bohm_command::{ArgumentFault, command_line, file_given, is_given, parse_line};
use bohm_explain::{LISTED, Layout, Request};
use bohm_settings::Settings;
use std::alloc::Global;

/// What is printed about a log.
#[derive(Clone, Copy, Debug, PartialEq, Eq)]
pub enum Wish {
    /// The answer to this request.
    Figures(Request),
    /// Why its transactions abort.
    Aborts,
}

/// What the arguments ask for.
#[derive(Debug, Drop)]
pub struct Arguments {
    /// The name of the file to read, in place of standard input.
    pub file: Option<String>,
    pub wish: Wish,
}

/// The wish for this request, unless the aborts are asked for.
fn wished(for_aborts: bool, request: Request) -> Wish
    ensures { result ≡ (if for_aborts then Aborts else Figures request) }
{
    if for_aborts {
        Wish::Aborts
    } else {
        Wish::Figures(request)
    }
}

/// The file and the wish that the arguments after the program's name have, with the defaults of
/// absent options. Arguments that clap doesn't accept are refused with its text.
pub fn read_arguments(alloc: Global, arguments: &[String]) -> Result<Arguments, ArgumentFault>
    ensures file { IfOk result (λ taken. option_map string_bytes taken.file
        ≡ file_in (rows_in explain (map string_bytes arguments.now))) }
    ensures ok { IfOk result (λ taken. taken.wish ≡ wish_in (map string_bytes arguments.now)) }
    ensures faultless { IfOk result (λ _. faults_in explain (map string_bytes arguments.now) ≡ []) }
    ensures taken { AreTaken explain (map string_bytes arguments.now) → IfErr result IsNoMemory }
    ensures found { IfErr result (IsFoundAmong (faults_in explain (map string_bytes arguments.now))) }
{
    let line = command_line(alloc, EXPLAIN.name, arguments)?;
    let matches = parse_line(alloc, command(alloc)?, line.as_slice())?;
    let layout = Layout {
        summary: is_given(&matches, "summary"),
        json: is_given(&matches, "json"),
    };
    let defaults = Settings::default();
    let request = Request::new(
        matches.get_one("cc").unwrap_or(defaults.cc().count()),
        matches.get_one("exec").unwrap_or(defaults.exec().count()),
        matches.get_one("parts").unwrap_or(defaults.parts()),
        matches.get_one("batch").unwrap_or(defaults.batch()),
        matches.get_one("top").unwrap_or(LISTED),
        matches.get_one("svg"),
        layout,
    );
    let wish = wished(is_given(&matches, "replies"), request.unwrap());
    let file = file_given(alloc, &matches)?;
    Ok(Arguments { file, wish })
}
