//! The program: a log or a procedure in a file or on standard input; on standard output, why the log
//! scales or doesn't, why its transactions abort, or what the procedure's calls cost.
#![tactic(auto)]

mod arguments;
mod explaining;
mod fault;
mod options;

use arguments::{Arguments, read_arguments};
use bohm_command::{
    ArgumentFault, NoAnswer, arguments_given, exit_code, opened, tell, without_request,
};
use explaining::explain_text;
use fault::no_answer;
use options::EXPLAIN;
use std::io::{self, Write};
use std::process::ExitCode;

/// What the program was asked for.
fn asked(rt: &HostRuntime) -> Result<Arguments, ArgumentFault> {
    let arguments = arguments_given(rt, EXPLAIN.name)?;
    read_arguments(rt.alloc(), arguments.as_slice())
}

/// Explains the log or procedure of the file, or on standard input, as the arguments request.
fn explain(rt: &HostRuntime, report: &mut Vec<u8>) -> Result<(), NoAnswer> {
    let (mut out, alloc) = (io::writer(rt), rt.alloc());
    let Arguments { file, wish } = match asked(rt) {
        Ok(taken) => taken,
        Err(fault) => return without_request(&mut out, fault),
    };
    let Some(name) = file else {
        return explain_text(rt, alloc, &mut rt.reader(), &mut out, wish, report).map_err(no_answer);
    };
    match opened(rt, name.as_str()) {
        Ok(mut file) => {
            explain_text(rt, alloc, &mut file, &mut out, wish, report).map_err(no_answer)
        }
        Err(fault) => without_request(&mut out, fault),
    }
}

fn main(rt: HostRuntime) -> ExitCode {
    let mut report = Vec::new(rt.alloc());
    let answered = explain(&rt, &mut report);
    if let Err(reason) = &answered {
        let mut err = rt.stderr();
        let _ = tell(&mut err, reason);
        let _ = err.write_all(report.as_slice());
    }
    exit_code(&answered)
}
