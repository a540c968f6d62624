//! The program: a log on standard input, its answer on standard output.
#![tactic(auto)]

mod arguments;
mod options;

use arguments::read_arguments;
use bohm_command::{ArgumentFault, NoAnswer, arguments_given, exit_code, tell, without_request};
use bohm_run::{Settings, run_text};
use options::NAME;
use std::io;
use std::process::ExitCode;

/// The settings that the program was started with.
fn settings_given(rt: &HostRuntime) -> Result<Settings, ArgumentFault> {
    let arguments = arguments_given(rt, NAME)?;
    read_arguments(rt.alloc(), arguments.as_slice())
}

fn main(rt: HostRuntime) -> ExitCode {
    let mut out = io::writer(&rt);
    let answered = match settings_given(&rt) {
        Ok(settings) => run_text(&rt, rt.alloc(), &mut rt.reader(), &mut out, settings).map_err(
            NoAnswer::from,
        ),
        Err(fault) => without_request(&mut out, fault),
    };
    if let Err(reason) = &answered {
        let _ = tell(&mut rt.stderr(), reason);
    }
    exit_code(&answered)
}
