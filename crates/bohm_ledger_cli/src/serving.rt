//! Requests from standard input, answered on standard output.

use crate::arguments::Serving;
use crate::failure::Failure;
use crate::input::Pieces;
use bohm_requests::{Archives, RequestDesk, asks_for_checkpoint};
use bohm_text::split_line;
use sqlite_trees::store::Store;
use std::alloc::Global;
use std::io::{Stdin, Write};
use std::sync::Wait;
use std::thread::Threads;
use std::time::Clock;

/// The bytes of input that are held, at most and a piece more, while requests wait.
const MOST_WAITING: usize = 1 << 22;

/// Where fewer bytes wait, more input is taken if it is there.
const FEW_WAITING: usize = 1 << 18;

/// How many transactions a checkpoint follows.
const CHECKPOINT_EVERY: u64 = 1_000_000;

/// What moves old batches into archives.
pub trait Archiving {
    /// Moves batches that come before the checkpoint's into an archive, if there are enough.
    fn archive<S: Store + Drop>(&mut self, desk: &mut RequestDesk<S>) -> Result<(), Failure>;
}

/// Input that isn't answered yet.
#[derive(Drop)]
struct Text {
    bytes: Vec<u8>,
    /// How many bytes of it are answered.
    done: usize,
    /// How many bytes behind these are whole lines of a request that isn't whole.
    seen: usize,
}

impl Text {
    fn none(alloc: Global) -> Text {
        Text {
            bytes: Vec::new(alloc),
            done: 0,
            seen: 0,
        }
    }

    fn rest(&self) -> &[u8] {
        let done = self.done.min(self.bytes.len());
        &self.bytes[done..]
    }

    /// Forgets what is answered.
    fn compact(&mut self, alloc: Global) -> Result<(), Failure> {
        let rest = Vec::from_slice(alloc, self.rest())?;
        self.bytes = rest;
        self.done = 0;
        Ok(())
    }

    /// Forgets so many bytes more, which are answered.
    fn pass(&mut self, bytes: usize) {
        self.done = self.done.saturating_add(bytes);
        self.seen = 0;
    }

    /// Whether the first request may be whole: behind the lines that were seen comes a line `end`,
    /// or the first line. So a long entry that comes in pieces is read once or twice.
    fn may_be_whole(&self) -> bool {
        let rest = self.rest();
        let seen = self.seen.min(rest.len());
        let mut behind = &rest[seen..];
        'lines: while let Some((line, others)) = split_line(behind) {
            if seen == 0 || line == b"end".as_slice() {
                return true;
            }
            behind = others;
        }
        false
    }

    /// Sees the whole lines that are there.
    fn see(&mut self) {
        let rest = self.rest();
        let seen = self.seen.min(rest.len());
        let mut behind = &rest[seen..];
        'lines: while let Some((_, others)) = split_line(behind) {
            behind = others;
        }
        self.seen = rest.len().saturating_sub(behind.len());
    }
}

/// Writes answers, and forgets them.
pub(crate) fn write_answers<O: Write>(
    output: &mut O,
    answers: &mut Vec<u8>,
) -> Result<(), Failure> {
    if let Err(error) = output.write_all(answers.as_slice()) {
        return Err(Failure::Output(error));
    }
    if let Err(error) = output.flush() {
        return Err(Failure::Output(error));
    }
    answers.clear();
    Ok(())
}

/// Answers the whole requests of a text. Whether there were any.
fn answer_some<S: Store + Drop, A: Archives, O: Write>(
    desk: &mut RequestDesk<S>,
    archives: &mut A,
    output: &mut O,
    text: &mut Text,
    answers: &mut Vec<u8>,
) -> Result<bool, Failure> {
    let taken = if asks_for_checkpoint(text.rest()) {
        desk.answer_checkpoint(answers)?
    } else {
        desk.answer(archives, text.rest(), answers)?
    };
    if taken == 0 {
        return Ok(false);
    }
    text.pass(taken);
    write_answers(output, answers)?;
    Ok(true)
}

/// Answers what is left where the input ends: a line without its end, an entry cut off.
fn answer_end<S: Store + Drop, A: Archives, O: Write>(
    desk: &mut RequestDesk<S>,
    archives: &mut A,
    output: &mut O,
    text: &mut Text,
    answers: &mut Vec<u8>,
) -> Result<(), Failure> {
    if text.rest().is_empty() {
        return Ok(());
    }
    if !text.rest().ends_with(b"\n") {
        text.bytes.push(b'\n')?;
    }
    for _ in 0..u64::MAX {
        if !answer_some(desk, archives, output, text, answers)? {
            break;
        }
    }
    if text.rest().is_empty() {
        return Ok(());
    }
    desk.answer_rest(archives, text.rest(), answers)?;
    write_answers(output, answers)
}

/// Makes a checkpoint where one is due.
fn keep<S: Store + Drop, A: Archiving>(
    desk: &mut RequestDesk<S>,
    archives: &mut A,
) -> Result<(), Failure> {
    if desk.top().saturating_sub(desk.checkpointed()) < CHECKPOINT_EVERY {
        return Ok(());
    }
    desk.checkpoint()?;
    archives.archive(desk)
}

/// Answers the requests on standard input.
pub fn serve<
    R: Threads + Wait + Clock + Copy + Send + 'static,
    S: Store + Drop,
    A: Archives + Archiving + Drop,
    O: Write,
>(
    rt: &R,
    input: Stdin,
    alloc: Global,
    desk: &mut RequestDesk<S>,
    mut archives: A,
    output: &mut O,
    serving: Serving,
) -> Result<(), Failure> {
    let pieces = Pieces::start(rt, input, alloc)?;
    let mut text = Text::none(alloc);
    let mut answers = Vec::new(alloc);
    for _ in rt.forever() {
        if text.rest().len() < FEW_WAITING {
            text.compact(alloc)?;
            pieces.take(rt, &mut text.bytes, MOST_WAITING)?;
        }
        if text.may_be_whole()
            && answer_some(desk, &mut archives, output, &mut text, &mut answers)?
        {
            keep(desk, &mut archives)?;
            continue;
        }
        text.see();
        if !pieces.wait(rt, &mut text.bytes)? {
            break;
        }
        if serving.wait > 0 {
            pieces.wait_for(rt, &mut text.bytes, MOST_WAITING, serving.wait)?;
        }
    }
    answer_end(desk, &mut archives, output, &mut text, &mut answers)?;
    desk.checkpoint()?;
    archives.archive(desk)
}
