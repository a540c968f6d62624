//! Options that take a number, and flags.

ghost use Rattle.std.specs.Prelude.{◌≡◌, false};
ghost use Rattle.clap.specs.Words.{found_of, rows_of, rule_of};
ghost use Rattle.bohm_command.specs.Options.{flag_in, flag_rule, number_rule};

use clap::{Arg, ArgAction, ArgMatches};
use std::alloc::Global;

/// An option of this name that takes one number from `least` to `most`.
pub fn number<'a>(alloc: Global, name: &'a str, least: u32, most: u32, help: &'a str) -> Arg<'a>
    ensures rule { rule_of result ≡ number_rule name.entry.now least most }
    ensures local { result.global ≡ false }
{
    let numbers = clap::value_parser!(u32).range(i64::from(least)..=i64::from(most));
    Arg::new(alloc, name)
        .long(name)
        .value_name("N")
        .value_parser(numbers)
        .help(help)
}

/// A flag of this name.
pub fn flag<'a>(alloc: Global, name: &'a str, help: &'a str) -> Arg<'a>
    ensures rule { rule_of result ≡ flag_rule name.entry.now }
    ensures local { result.global ≡ false }
{
    Arg::new(alloc, name)
        .long(name)
        .action(ArgAction::SetTrue)
        .help(help)
}

/// Whether the flag of this name was given.
pub fn is_given(matches: &ArgMatches<'_>, name: &str) -> bool
    ensures { result ≡ flag_in (rows_of (found_of matches.now)) name.now }
{
    matches.get_one(name).unwrap_or(false)
}
