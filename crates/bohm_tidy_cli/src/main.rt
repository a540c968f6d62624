//! The program: a loosely written log or procedure in a file or on standard input, its exact text on
//! standard output.
#![tactic(auto)]

mod arguments;
mod options;
mod refusal;
mod tidying;

use arguments::{Arguments, read_arguments};
use bohm_command::{
    ArgumentFault, NoAnswer, arguments_given, exit_code, opened, tell, without_request,
};
use options::TIDY;
use std::io::{self, Write};
use std::process::ExitCode;
use tidying::tidy_text;

/// What the program was asked for.
fn asked(rt: &HostRuntime) -> Result<Arguments, ArgumentFault> {
    let arguments = arguments_given(rt, TIDY.name)?;
    read_arguments(rt.alloc(), arguments.as_slice())
}

/// Tidies the text of the file, or on standard input, as the arguments ask.
fn tidy(rt: &HostRuntime, report: &mut Vec<u8>) -> Result<(), NoAnswer> {
    let (mut out, alloc) = (io::writer(rt), rt.alloc());
    let Arguments { file, wishes } = match asked(rt) {
        Ok(taken) => taken,
        Err(fault) => return without_request(&mut out, fault),
    };
    let Some(name) = file else {
        return Ok(tidy_text(rt, alloc, &mut rt.reader(), &mut out, wishes, report)?);
    };
    match opened(rt, name.as_str()) {
        Ok(mut file) => Ok(tidy_text(rt, alloc, &mut file, &mut out, wishes, report)?),
        Err(fault) => without_request(&mut out, fault),
    }
}

fn main(rt: HostRuntime) -> ExitCode {
    let mut report = Vec::new(rt.alloc());
    let answered = tidy(&rt, &mut report);
    if let Err(reason) = &answered {
        let mut err = rt.stderr();
        let _ = tell(&mut err, reason);
        let _ = err.write_all(report.as_slice());
    }
    exit_code(&answered)
}
