//! The program in three other ways, for tests. If the first argument is a number of bytes, it runs
//! a log in windows of that size; if it is `machine`, a log without a store as a segment of a new
//! machine, on workers; if it is `calls`, a script of procedures and calls on a machine. Options of
//! the program follow.
#![tactic(auto)]

mod script;

use bohm_command::{ArgumentFault, NoAnswer, arguments_given, exit_code, tell, without_request};
use bohm_log::DrawnSeed;
use bohm_machine::{Machine, SegmentFault};
use bohm_run::{Applied, RunFault, Settings, read_log, run_text_in_windows, write_all};
use bohm_store::StoreFault;
use bohm_text::print_answer;
use script::run_script;
use std::alloc::Global;
use std::io::{self, Read, Write};
use std::process::ExitCode;
use std::random::RandomSource;
use std::sync::Wait;
use std::thread::Threads;

/// How the log is run.
#[derive(Clone, Copy)]
enum Way {
    /// In windows of this many bytes.
    Windows(usize),
    /// As a segment of a machine.
    Machine,
    /// A script of calls on a machine.
    Calls,
}

/// What the arguments ask for.
struct Request {
    way: Way,
    settings: Settings,
}

/// The number after this option, if the option is given.
fn number_of(arguments: &[String], name: &str) -> Option<u32> {
    let at = arguments
        .iter()
        .position(|argument| argument.as_str() == name)?;
    arguments.get(at.saturating_add(1))?.parse::<u32>().ok()
}

fn read_way(argument: &str) -> Option<Way> {
    if argument == "machine" {
        return Some(Way::Machine);
    }
    if argument == "calls" {
        return Some(Way::Calls);
    }
    let size = argument.parse::<u32>().ok()?;
    Some(Way::Windows(size as usize))
}

/// The request of these arguments, with the defaults of absent options.
fn read_request(arguments: &[String]) -> Option<Request> {
    let way = read_way(arguments.first()?.as_str())?;
    let settings = Settings::new(
        number_of(arguments, "--cc").unwrap_or(1),
        number_of(arguments, "--exec").unwrap_or(1),
        number_of(arguments, "--parts").unwrap_or(1),
        number_of(arguments, "--batch").unwrap_or(4096),
        number_of(arguments, "--keep").unwrap_or(0),
        number_of(arguments, "--at"),
    )?;
    Some(Request { way, settings })
}

fn request_given(rt: &HostRuntime) -> Result<Request, ArgumentFault> {
    let arguments = arguments_given(rt, "bohm_windows_cli")?;
    match read_request(arguments.as_slice()) {
        Some(request) => Ok(request),
        None => Err(ArgumentFault::Bad(format!(in rt.alloc();
            "windows of how many bytes, machine, or calls?\n"
        )?)),
    }
}

/// The text of the replies, and of the store that the machine holds.
fn answer(alloc: Global, machine: &Machine, applied: Applied) -> Result<Vec<u8>, RunFault> {
    let Applied { replies, end } = applied;
    end?;
    let store = match machine.store_at(alloc, machine.top()) {
        Ok(store) => store,
        Err(StoreFault::Trimmed) => return Err(RunFault::Trimmed),
        Err(StoreFault::Future) => return Err(RunFault::Future),
        Err(StoreFault::NoMemory) => return Err(RunFault::NoMemory),
    };
    Ok(print_answer(alloc, &replies, store.as_slice())?)
}

/// Runs the log that the reader holds as a segment of a new machine, and writes its answer.
fn run_on_machine<T: Threads + Wait + Sync + RandomSource, R: Read, W: Write>(
    rt: &T,
    alloc: Global,
    reader: &mut R,
    writer: &mut W,
    settings: Settings,
) -> Result<(), NoAnswer> {
    let seed = DrawnSeed::draw(rt);
    let segment = read_log(alloc, seed, reader)?;
    let mut machine = Machine::restore(alloc, seed, &[], 0).map_err(RunFault::from)?;
    let applied = match machine.apply_on_workers(rt, alloc, &segment, settings) {
        Ok(applied) => applied,
        Err(SegmentFault::Store) => return Err(NoAnswer::Refused("refused: store\n")),
        Err(SegmentFault::Timestamps) => return Err(NoAnswer::Refused("refused: timestamps\n")),
    };
    let text = answer(alloc, &machine, applied)?;
    write_all(writer, text.as_slice())?;
    Ok(())
}

/// Runs the script that the reader holds, and writes the machine's answer.
fn run_calls<T: RandomSource, R: Read, W: Write>(
    rt: &T,
    alloc: Global,
    reader: &mut R,
    writer: &mut W,
) -> Result<(), NoAnswer> {
    let mut script = String::new(alloc);
    if reader.read_to_string(&mut script).is_err() {
        return Err(NoAnswer::Run(RunFault::Read));
    }
    match run_script(alloc, DrawnSeed::draw(rt), &script) {
        Some(text) => Ok(write_all(writer, text.as_slice())?),
        None => Err(NoAnswer::Refused("refused: script\n")),
    }
}

fn main(rt: HostRuntime) -> ExitCode {
    let mut out = io::writer(&rt);
    let alloc = rt.alloc();
    let answered = match request_given(&rt) {
        Ok(Request { way, settings }) => match way {
            Way::Windows(size) => {
                let reader = &mut rt.reader();
                let ran = run_text_in_windows(&rt, alloc, reader, &mut out, settings, size);
                ran.map_err(NoAnswer::from)
            }
            Way::Machine => run_on_machine(&rt, alloc, &mut rt.reader(), &mut out, settings),
            Way::Calls => run_calls(&rt, alloc, &mut rt.reader(), &mut out),
        },
        Err(fault) => without_request(&mut out, fault),
    };
    if let Err(reason) = &answered {
        let _ = tell(&mut rt.stderr(), reason);
    }
    exit_code(&answered)
}
