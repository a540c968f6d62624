//! The program: a log or a procedure in a file or on standard input; its summary on standard output,
//! or its faults on standard error.
#![tactic(auto)]

mod arguments;
mod checking;
mod help;

use arguments::read_arguments;
use bohm_command::{
    ArgumentFault, NoAnswer, arguments_given, exit_code, opened, tell, without_request,
};
use checking::check_text;
use help::CHECK;
use std::io::{self, Write};
use std::process::ExitCode;

/// The name of the file that the program was asked to check, if it was asked for one.
fn file_named(rt: &HostRuntime) -> Result<Option<String>, ArgumentFault> {
    let arguments = arguments_given(rt, CHECK.name)?;
    read_arguments(rt.alloc(), arguments.as_slice())
}

/// Checks the file, or standard input.
fn check(rt: &HostRuntime, report: &mut Vec<u8>) -> Result<(), NoAnswer> {
    let (mut out, alloc) = (io::writer(rt), rt.alloc());
    let name = match file_named(rt) {
        Ok(name) => name,
        Err(fault) => return without_request(&mut out, fault),
    };
    let Some(name) = name else {
        return Ok(check_text(rt, alloc, &mut rt.reader(), &mut out, report)?);
    };
    match opened(rt, name.as_str()) {
        Ok(mut file) => Ok(check_text(rt, alloc, &mut file, &mut out, report)?),
        Err(fault) => without_request(&mut out, fault),
    }
}

fn main(rt: HostRuntime) -> ExitCode {
    let mut report = Vec::new(rt.alloc());
    let answered = check(&rt, &mut report);
    let mut err = rt.stderr();
    if let Err(reason) = &answered {
        let _ = tell(&mut err, reason);
    }
    let _ = err.write_all(report.as_slice());
    exit_code(&answered)
}
