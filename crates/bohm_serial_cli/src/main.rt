//! The plain program: a log on standard input, run one transaction after another, its answer on
//! standard output. It is the baseline of measurements.
#![tactic(auto)]

mod help;
mod serial;

use bohm_command::{NoAnswer, exit_code, no_options_given, tell, without_request};
use help::SERIAL;
use serial::serial_text;
use std::io;
use std::process::ExitCode;

fn main(rt: HostRuntime) -> ExitCode {
    let mut out = io::writer(&rt);
    let answered = match no_options_given(&rt, SERIAL) {
        Ok(()) => serial_text(&rt, rt.alloc(), &mut rt.reader(), &mut out).map_err(NoAnswer::from),
        Err(fault) => without_request(&mut out, fault),
    };
    if let Err(reason) = &answered {
        let _ = tell(&mut rt.stderr(), reason);
    }
    exit_code(&answered)
}
