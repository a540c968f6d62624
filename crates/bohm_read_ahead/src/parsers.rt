//! Threads that parse windows.

ghost use Rattle.std.specs.Prelude.{◌≡◌, ◌<◌};
ghost use Rattle.bohm_handoff.specs.Ends.{promised};

use crate::checked_window::CheckedWindow;
use crate::parse_task::ParseTask;
use crate::promise::ParseOf;
use bohm_handoff::Giver;
use bohm_settings::{Planners, Settings};
use bohm_types::NoMemory;
use crossbeam_channel::{Receiver, Sender, bounded};
use std::alloc::Global;
use std::sync::Wait;
use std::thread;
use std::thread::{JoinHandle, Threads};

/// A task, and the giver of its result.
#[derive(Drop)]
pub(crate) struct ParseJob {
    pub(crate) task: ParseTask,
    pub(crate) giver: Giver<CheckedWindow, ParseOf>,
    ghost edition: { (promised giver).edition ≡ task.edition },
    ghost window: { (promised giver).window.value ≡ task.window },
}

impl ParseJob {
    /// Runs the task, and gives its result.
    fn carry_out(self) {
        let ParseJob { task, giver } = self;
        giver.give(task.run());
    }
}

/// The maximum number of windows ahead of a run: each thread parses one, and one more is ready. If
/// the caller's thread executes, each has another window to continue with while the caller's thread
/// parses one itself.
pub(crate) fn most_ahead(settings: Settings) -> usize
    ensures { 0 < result }
{
    let threads = settings.cc().count() as usize;
    if settings.exec().count() == 1 {
        2 * threads + 1
    } else {
        threads + 1
    }
}

/// Threads that parse windows, and the queue from which they take them.
pub(crate) struct Parsers {
    jobs: Sender<ParseJob, Global>,
    queue: Receiver<ParseJob, Global>,
    threads: Vec<JoinHandle<()>>,
}

// Written out: a derived drop is proved anew in each function that drops such a value.
impl Drop for Parsers {
    fn drop(self) {
        let Self {
            jobs,
            queue,
            threads,
        } = self;
        drop(jobs);
        drop(queue);
        drop(threads);
    }
}

/// Carries out jobs until no more can arrive.
fn work<R: Wait>(rt: &R, jobs: &Receiver<ParseJob, Global>) {
    for _ in rt.forever() {
        let Ok(job) = jobs.recv(rt) else {
            return;
        };
        job.carry_out();
    }
}

impl Parsers {
    /// Starts this many threads, or as many as can be started, with a queue for `ahead` windows.
    pub(crate) fn start<R: Threads + Wait + Copy + Send + 'static>(
        rt: &R,
        alloc: Global,
        count: Option<Planners>,
        ahead: usize,
    ) -> Result<Parsers, NoMemory> {
        let count = match count {
            Some(planners) => planners.count(),
            None => 0,
        };
        let (jobs, queue) = bounded(alloc, ahead)?;
        let mut threads = Vec::with_capacity(alloc, count as usize)?;
        for _ in 0..count {
            let Ok(own) = queue.clone() else {
                break;
            };
            let theirs = *rt;
            let Ok(thread) = thread::spawn(rt, move || work(&theirs, &own)) else {
                break;
            };
            // There is room for it.
            threads.push(thread)?;
        }
        Ok(Parsers {
            jobs,
            queue,
            threads,
        })
    }

    /// Sends the job to a thread, or carries it out at once if there is none.
    pub(crate) fn send<R: Wait>(&self, rt: &R, job: ParseJob) {
        if self.threads.is_empty() {
            job.carry_out();
        } else if let Err(refused) = self.jobs.send(rt, job) {
            refused.into_inner().carry_out();
        }
    }

    /// Carries out a job that no thread has taken yet.
    pub(crate) fn help<R: Wait>(&self, rt: &R) {
        if let Ok(job) = self.queue.try_recv(rt) {
            job.carry_out();
        }
    }

    /// Ends the threads and joins them.
    pub(crate) fn end<R: Threads>(self, rt: &R) {
        let Parsers {
            jobs,
            queue,
            threads,
        } = self;
        drop(jobs);
        drop(queue);
        for thread in threads {
            thread.join(rt);
        }
    }
}
