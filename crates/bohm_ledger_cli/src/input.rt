//! Standard input, read by a thread of its own.

use crate::failure::Failure;
use crossbeam_channel::{Receiver, Sender, bounded};
use std::alloc::Global;
use std::io::{Read, Stdin};
use std::sync::Wait;
use std::thread;
use std::thread::Threads;
use std::time::{Clock, Duration, Instant};

/// The bytes that are read at once.
const PIECE: usize = 1 << 16;

/// How many pieces are read ahead.
const AHEAD: usize = 64;

/// A piece of the input; none where it can't be read.
type Piece = Option<Vec<u8>>;

/// The input, piece by piece.
#[derive(Drop)]
pub struct Pieces {
    queue: Receiver<Piece, Global>,
}

/// The next piece of the input; an empty one at its end.
fn read_piece<I: Read>(alloc: Global, input: &mut I) -> Piece {
    let Ok(mut piece) = vec![in alloc; 0u8; PIECE] else {
        return None;
    };
    match input.read(piece.as_mut_slice()) {
        Ok(count) => {
            piece.truncate(count);
            Some(piece)
        }
        Err(_) => None,
    }
}

/// Sends the input, until it ends or nobody takes it any more.
fn send_all<R: Wait>(rt: &R, input: Stdin, alloc: Global, pieces: &Sender<Piece, Global>) {
    let mut input = input.lock();
    for _ in rt.forever() {
        let piece = read_piece(alloc, &mut input);
        let is_last = match &piece {
            Some(bytes) => bytes.is_empty(),
            None => true,
        };
        if piece.as_ref().is_some_and(|bytes| bytes.is_empty()) {
            return;
        }
        if pieces.send(rt, piece).is_err() || is_last {
            return;
        }
    }
}

impl Pieces {
    /// Starts to read standard input. The thread ends with the input, or with the program.
    pub fn start<R: Threads + Wait + Copy + Send + 'static>(
        rt: &R,
        input: Stdin,
        alloc: Global,
    ) -> Result<Pieces, Failure> {
        let (pieces, queue) = bounded(alloc, AHEAD)?;
        let theirs = *rt;
        match thread::spawn(rt, move || send_all(&theirs, input, alloc, &pieces)) {
            Ok(_) => Ok(Pieces { queue }),
            Err(_) => Err(Failure::Thread),
        }
    }

    /// Waits for more input, and appends it to a text. Whether there was any.
    pub fn wait<R: Wait>(&self, rt: &R, text: &mut Vec<u8>) -> Result<bool, Failure> {
        match self.queue.recv(rt) {
            Ok(Some(piece)) => {
                text.extend_from_slice(piece.as_slice())?;
                Ok(true)
            }
            Ok(None) => Err(Failure::Input),
            Err(_) => Ok(false),
        }
    }

    /// Appends the input that is there to a text, until it has so many bytes.
    pub fn take<R: Wait>(&self, rt: &R, text: &mut Vec<u8>, most: usize) -> Result<(), Failure> {
        for _ in 0..AHEAD {
            if text.len() >= most {
                return Ok(());
            }
            match self.queue.try_recv(rt) {
                Ok(Some(piece)) => text.extend_from_slice(piece.as_slice())?,
                Ok(None) => return Err(Failure::Input),
                Err(_) => return Ok(()),
            }
        }
        Ok(())
    }

    /// Appends the input of so many microseconds to a text, unless it has so many bytes before.
    pub fn wait_for<R: Wait + Clock>(
        &self,
        rt: &R,
        text: &mut Vec<u8>,
        most: usize,
        microseconds: u32,
    ) -> Result<(), Failure> {
        let Ok(start) = Instant::now(rt) else {
            return Ok(());
        };
        let whole = Duration::from_micros(u64::from(microseconds));
        for _ in rt.forever() {
            let Ok(spent) = start.elapsed(rt) else {
                return Ok(());
            };
            if text.len() >= most || spent >= whole {
                return Ok(());
            }
            match self.queue.recv_timeout(rt, whole - spent) {
                Ok(Some(piece)) => text.extend_from_slice(piece.as_slice())?,
                Ok(None) => return Err(Failure::Input),
                Err(_) => return Ok(()),
            }
        }
        Ok(())
    }
}
