//! The settings of a run.

ghost use Rattle.std.specs.Prelude.{◌≡◌, ◌≤◌};
ghost use Rattle.std.specs.Option.{SomeIff};
ghost use Rattle.bohm_settings.specs.Given.{AreInRange, Given, IsBetween, defaults};
ghost use Rattle.bohm_settings.specs.Given.{most_kept, most_parts, most_workers};
ghost use Rattle.bohm_types.specs.Limits.{largest_batch};

use crate::retention::Kept;
use crate::worker_counts::{Executors, Planners};
use std::marker::Model;

/// The maximum number of planning workers, and of executing workers.
pub const MOST_WORKERS: u32 = 16;

/// The maximum number of partitions of the keys.
pub const MOST_PARTS: u32 = 64;

/// The maximum number of transactions in a batch.
pub const LARGEST_BATCH: u32 = bohm_types::LARGEST_BATCH;

/// The maximum number of timestamps below the last batch's end that stay readable.
pub const MOST_KEPT: u32 = 4096;

/// The numbers of planning and executing workers, of partitions of the keys and of transactions in
/// a batch, how many timestamps below the last batch's end stay readable, and the timestamp whose
/// store is printed (`None`: the log's length).
#[derive(Clone, Copy, Debug, PartialEq, Eq)]
pub struct Settings {
    cc: Planners,
    exec: Executors,
    parts: u32,
    batch: u32,
    keep: Kept,
    at: Option<u32>,
}

impl Model for Settings {
    ghost use Rattle.bohm_settings.specs.Given.{Given, AreInRange};

    ghost Value = { Given };

    ghost view = { λ s. record {
      cc = s.cc;
      exec = s.exec;
      parts = s.parts;
      batch = s.batch;
      keep = s.keep;
      at = s.at;
    } };

    ghost invariant = { λ s. AreInRange
        (record {
          cc = s.cc;
          exec = s.exec;
          parts = s.parts;
          batch = s.batch;
          keep = s.keep;
          at = s.at;
        }) };

    ghost inverse = { λ g. record {
      cc = g.cc;
      exec = g.exec;
      parts = g.parts;
      batch = g.batch;
      keep = g.keep;
      at = g.at;
    } };
}

impl Settings {
    /// These settings, if each number is in its range.
    pub fn new(
        cc: u32,
        exec: u32,
        parts: u32,
        batch: u32,
        keep: u32,
        at: Option<u32>,
    ) -> Option<Settings>
        ensures { let given : Given
            = record { cc = cc; exec = exec; parts = parts; batch = batch; keep = keep; at = at }
            in SomeIff result (AreInRange given) given }
    {
        let in_range = (1..=MOST_WORKERS).contains(&cc)
            && (1..=MOST_WORKERS).contains(&exec)
            && (1..=MOST_PARTS).contains(&parts)
            && (1..=LARGEST_BATCH).contains(&batch)
            && keep <= MOST_KEPT;
        if !in_range {
            return None;
        }
        Some(Settings {
            cc: Planners::new(cc)?,
            exec: Executors::new(exec)?,
            parts,
            batch,
            keep: Kept::new(keep),
            at,
        })
    }

    /// The number of planning workers: in `run_text` they also parse and check windows ahead.
    pub fn cc(&self) -> Planners
        ensures value { result ≡ self.now.cc }
        ensures in_range { IsBetween 1 most_workers result }
    {
        self.cc
    }

    /// The number of executing workers.
    pub fn exec(&self) -> Executors
        ensures value { result ≡ self.now.exec }
        ensures in_range { IsBetween 1 most_workers result }
    {
        self.exec
    }

    /// The number of partitions of the keys.
    pub fn parts(&self) -> u32
        ensures value { result ≡ self.now.parts }
        ensures in_range { IsBetween 1 most_parts result }
    {
        self.parts
    }

    /// The number of transactions in a batch.
    pub fn batch(&self) -> u32
        ensures value { result ≡ self.now.batch }
        ensures in_range { IsBetween 1 largest_batch result }
    {
        self.batch
    }

    /// How many timestamps below the last batch's end stay readable.
    pub fn keep(&self) -> Kept
        ensures value { result ≡ self.now.keep }
        ensures in_range { result ≤ most_kept }
    {
        self.keep
    }

    /// The timestamp whose store is printed; `None` is the log's length.
    pub fn at(&self) -> Option<u32>
        ensures { result ≡ self.now.at }
    {
        self.at
    }
}

/// One worker of each kind, one partition, the largest batches, no timestamp below the last batch's
/// end, and the store at the log's length.
impl Default for Settings {
    ghost is_default = { λ settings. settings ≡ defaults };

    fn default() -> Settings {
        Settings {
            cc: Planners::one(),
            exec: Executors::one(),
            parts: 1,
            batch: LARGEST_BATCH,
            keep: Kept::new(0),
            at: None,
        }
    }
}
