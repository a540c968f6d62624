//! What the arguments ask for.

ghost use Rattle.std.specs.Prelude.{◌≡◌, ℕ, None, IfSome, option_map};
ghost use Rattle.bohm_ledger_cli.specs.Asked.{IsRange, IsTransaction};
ghost use Rattle.bohm_ledger_cli.specs.declared.arguments.Wish.{Wish as TheWish};

use crate::options::{FIRST, NAME, SECOND, THIRD, command};
use bohm_command::{ArgumentFault, command_line, is_given, parse_line};
use bohm_types::{Edition, LARGEST_BATCH};
use clap::ArgMatches;
use std::alloc::Global;

/// How requests are answered.
#[derive(Clone, Copy, Debug)]
pub struct Serving {
    /// The edition that was asked for.
    pub edition: Option<Edition>,
    /// The most requests of a commit.
    pub most: u32,
    /// How many microseconds a commit waits for more.
    pub wait: u32,
}

impl Default for Serving {
    fn default() -> Serving {
        Serving {
            edition: None,
            most: LARGEST_BATCH,
            wait: 0,
        }
    }
}

/// What the program was asked for.
#[derive(Clone, Copy, Debug)]
pub enum Wish {
    /// To answer requests.
    Serve(Serving),
    /// To print the log of the transactions from this one to that one.
    Print { from: u64, to: Option<u64> },
}

/// What the arguments ask for, of the ledger in this file.
#[derive(Debug, Drop)]
pub struct Arguments {
    pub file: String,
    pub wish: Wish,
}

fn refused<T: Drop>(alloc: Global, why: &str) -> Result<T, ArgumentFault> {
    Err(ArgumentFault::Bad(format!(in alloc;
        "error: {why}\n\nFor more information, try '--help'.\n"
    )?))
}

/// The number of a transaction that a word names, 1 or more.
fn transaction(word: &str) -> Option<u64>
    ensures named { IfSome result (IsTransaction word.now) }
    ensures unnamed { result ≡ None → (number : ℕ) → ¬ IsTransaction word.now number }
{
    match word.parse::<u64>() {
        Ok(number) if number > 0 => Some(number),
        _ => None,
    }
}

fn edition_of(number: u32) -> Edition {
    if number == 1 {
        Edition::One
    } else {
        Edition::Two
    }
}

/// The log that the words in front of the file ask for.
fn read_range(from: Option<&str>, to: Option<&str>) -> Option<Wish>
    ensures asked { IfSome result (IsRange (option_map (λ w. w.now) from.entry) (option_map (λ w. w.now) to.entry)) }
    ensures refused { result ≡ None → (wish : TheWish)
        → ¬ IsRange (option_map (λ w. w.now) from.entry) (option_map (λ w. w.now) to.entry) wish }
{
    let from = match from {
        Some(word) => transaction(word)?,
        None => 1,
    };
    let to = match to {
        Some(word) => Some(transaction(word)?),
        None => None,
    };
    if to.is_some_and(|to| to < from) {
        return None;
    }
    Some(Wish::Print { from, to })
}

/// The file, and the log that is asked for.
fn read_log(alloc: Global, matches: &ArgMatches<'_>) -> Result<Arguments, ArgumentFault> {
    if matches.contains_id("edition")
        || matches.contains_id("batch")
        || matches.contains_id("wait")
    {
        return refused(alloc, "--log takes no other option");
    }
    let words = (
        matches.get_str(FIRST),
        matches.get_str(SECOND),
        matches.get_str(THIRD),
    );
    let (file, wish) = match words {
        (Some(file), None, _) => (file, read_range(None, None)),
        (Some(from), Some(file), None) => (file, read_range(Some(from), None)),
        (Some(from), Some(to), Some(file)) => (file, read_range(Some(from), Some(to))),
        _ => return refused(alloc, "no file was named"),
    };
    match wish {
        Some(wish) => Ok(Arguments {
            file: String::from_str(alloc, file)?,
            wish,
        }),
        None => refused(
            alloc,
            "FROM and TO are numbers from 1 on, and TO isn't below FROM",
        ),
    }
}

/// What the arguments after the program's name ask for. Arguments that clap doesn't accept are
/// refused with its text.
pub fn read_arguments(alloc: Global, arguments: &[String]) -> Result<Arguments, ArgumentFault> {
    let line = command_line(alloc, NAME, arguments)?;
    let matches = parse_line(alloc, command(alloc)?, line.as_slice())?;
    if is_given(&matches, "log") {
        return read_log(alloc, &matches);
    }
    let (Some(file), None) = (matches.get_str(FIRST), matches.get_str(SECOND)) else {
        return refused(alloc, "one file has to be named");
    };
    let edition: Option<u32> = matches.get_one("edition");
    let defaults = Serving::default();
    Ok(Arguments {
        file: String::from_str(alloc, file)?,
        wish: Wish::Serve(Serving {
            edition: edition.map(edition_of),
            most: matches.get_one("batch").unwrap_or(defaults.most),
            wait: matches.get_one("wait").unwrap_or(defaults.wait),
        }),
    })
}
