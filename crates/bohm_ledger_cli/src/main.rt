//! The program: requests on standard input, answered by a ledger in a file.
#![tactic(auto)]

mod archives;
mod arguments;
mod failure;
mod file;
mod input;
mod options;
mod printing;
mod progress;
mod serving;

use archives::FileArchives;
use arguments::{Arguments, Serving, Wish, read_arguments};
use bohm_command::{ArgumentFault, arguments_given, exit_code, tell, without_request};
use bohm_ledger::Fault;
use bohm_log::DrawnSeed;
use bohm_requests::{DeskFault, RequestDesk};
use bohm_types::Edition;
use failure::Failure;
use file::{Opened, open_ledger};
use options::NAME;
use printing::print_log;
use progress::Progress;
use serving::serve;
use sqlite_std_file::{File, Unknown};
use sqlite_store::FileStore;
use std::process::ExitCode;
use std::{fs, io};

/// The exit status where the file is no ledger or a write failed.
const FAILED: u8 = 1;

/// What the program was asked for.
fn asked(rt: &HostRuntime) -> Result<Arguments, ArgumentFault> {
    let arguments = arguments_given(rt, NAME)?;
    read_arguments(rt.alloc(), arguments.as_slice())
}

/// Opens the ledger in a file, or makes it.
fn open_desk(
    rt: &HostRuntime,
    file: &str,
    serving: Serving,
) -> Result<RequestDesk<FileStore<File>>, Failure> {
    let alloc = rt.alloc();
    let files = match sqlite_std_file::open(rt, file, Unknown) {
        Ok(files) => files,
        Err(error) => return Err(Failure::File(error)),
    };
    let Opened { store, is_new } = match open_ledger(alloc, files) {
        Ok(opened) => opened,
        Err(error) => return Err(Failure::Store(error)),
    };
    let seed = DrawnSeed::draw(rt);
    let most = serving.most as usize;
    let opened = if is_new {
        let edition = serving.edition.unwrap_or(Edition::Two);
        RequestDesk::create(alloc, seed, store, edition, most)
    } else {
        RequestDesk::open(alloc, seed, store, most)
    };
    match opened {
        Ok(desk) => Ok(desk),
        Err((fault, _)) => Err(Failure::Desk(fault)),
    }
}

/// Says why arguments make no request.
fn end_without_request(rt: &HostRuntime, fault: ArgumentFault) -> ExitCode {
    let answered = without_request(&mut io::writer(rt), fault);
    if let Err(reason) = &answered {
        let _ = tell(&mut rt.stderr(), reason);
    }
    exit_code(&answered)
}

/// Says why the ledger in a file failed.
fn end_with(rt: &HostRuntime, file: &str, done: Result<(), Failure>) -> ExitCode {
    match done {
        Ok(()) => ExitCode::SUCCESS,
        Err(failure) => {
            let _ = eprintln!(rt; "{NAME}: {file}: {failure}");
            ExitCode::from(FAILED)
        }
    }
}

/// Copies the log of a ledger's file into the file, where its requests were served: the file alone
/// has all of it then.
fn close(desk: RequestDesk<FileStore<File>>, served: Result<(), Failure>) -> Result<(), Failure> {
    served?;
    let mut store = desk.into_store();
    match store.checkpoint() {
        Ok(()) => Ok(()),
        Err(error) => Err(Failure::Desk(DeskFault::Ledger(Fault::Store(error)))),
    }
}

/// Prints the log of transactions of the ledger in a file.
fn print_from(rt: &HostRuntime, file: &str, from: u64, to: Option<u64>) -> Result<(), Failure> {
    if let Err(error) = fs::metadata(rt, file) {
        return Err(Failure::Archive(error));
    }
    let mut desk = open_desk(rt, file, Serving::default())?;
    let archives = FileArchives::of(rt, file)?;
    let (alloc, seed) = (rt.alloc(), DrawnSeed::draw(rt));
    print_log(
        alloc,
        seed,
        &mut desk,
        archives,
        &mut io::writer(rt),
        from,
        to,
    )
}

/// Opens what answers requests.
fn open_asked<'a>(
    rt: &'a HostRuntime,
    file: &str,
    serving: Serving,
) -> Result<(RequestDesk<FileStore<File>>, FileArchives<'a>), Failure> {
    let desk = open_desk(rt, file, serving)?;
    match serving.edition {
        Some(edition) if edition != desk.edition() => Err(Failure::Edition),
        _ => Ok((desk, FileArchives::of(rt, file)?)),
    }
}

fn main(rt: HostRuntime) -> ExitCode {
    let Arguments { file, wish } = match asked(&rt) {
        Ok(asked) => asked,
        Err(fault) => return end_without_request(&rt, fault),
    };
    let file = file.as_str();
    let serving = match wish {
        Wish::Serve(serving) => serving,
        Wish::Print { from, to } => return end_with(&rt, file, print_from(&rt, file, from, to)),
    };
    let progress = Progress::start(&rt, rt.alloc());
    let opened = open_asked(&rt, file, serving);
    drop(progress);
    let done = match opened {
        Ok((mut desk, archives)) => {
            let mut out = io::writer(&rt);
            let served = serve(
                &rt,
                rt.stdin(),
                rt.alloc(),
                &mut desk,
                archives,
                &mut out,
                serving,
            );
            close(desk, served)
        }
        Err(failure) => Err(failure),
    };
    end_with(&rt, file, done)
}
