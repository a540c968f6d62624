//! Readers and writers in memory that fail on request.

use std::alloc::Global;
use std::io::{self, ErrorKind, Read, Write};

/// How many calls succeed before one fails, and the kind of its error.
#[derive(Clone, Copy)]
pub struct Failure {
    pub calls: Option<u32>,
    pub kind: ErrorKind,
}

impl Failure {
    pub fn never() -> Failure {
        Failure {
            calls: None,
            kind: ErrorKind::Other,
        }
    }

    pub fn after(calls: u32, kind: ErrorKind) -> Failure {
        Failure {
            calls: Some(calls),
            kind,
        }
    }

    /// The next call's result. It fails only once.
    fn next(&mut self) -> io::Result<()> {
        match self.calls {
            None => Ok(()),
            Some(0) => {
                self.calls = None;
                Err(io::Error::from(self.kind))
            }
            Some(calls) => {
                self.calls = Some(calls - 1);
                Ok(())
            }
        }
    }
}

/// A reader that returns at most `most` of its bytes a call.
#[derive(Drop)]
pub struct FakeReader<'a> {
    pub bytes: &'a [u8],
    pub most: usize,
    pub failure: Failure,
}

impl Read for FakeReader<'_> {
    fn read(&mut self, buf: &mut [u8]) -> io::Result<usize> {
        self.failure.next()?;
        let room = self.most.min(buf.len());
        self.bytes.read(&mut buf[..room])
    }
}

/// A writer that stores what it accepts, at most `most` bytes a call.
#[derive(Drop)]
pub struct FakeWriter {
    pub taken: Vec<u8>,
    pub most: usize,
    pub failure: Failure,
    pub flush_failure: Failure,
    pub flushes: u32,
}

impl FakeWriter {
    pub fn new(alloc: Global, most: usize) -> FakeWriter {
        FakeWriter {
            taken: Vec::new(alloc),
            most,
            failure: Failure::never(),
            flush_failure: Failure::never(),
            flushes: 0,
        }
    }
}

impl Write for FakeWriter {
    fn write(&mut self, buf: &[u8]) -> io::Result<usize> {
        self.failure.next()?;
        let room = self.most.min(buf.len());
        self.taken.write(&buf[..room])
    }

    fn flush(&mut self) -> io::Result<()> {
        self.flushes = self.flushes.saturating_add(1);
        self.flush_failure.next()
    }
}
