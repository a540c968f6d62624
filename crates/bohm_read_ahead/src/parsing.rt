//! A window that is parsed ahead.

ghost use Rattle.std.specs.Prelude.{◌≡◌};
ghost use Rattle.bohm_read_ahead.specs.Parsing.{IsChecked, IsParsing, window_of};

use crate::checked_window::CheckedWindow;
use crate::parse_task::ParseTask;
use crate::parsers::{ParseJob, Parsers};
use crate::promise::ParseOf;
use bohm_handoff::{Taker, handoff};
use bohm_types::Edition;
use std::snapshot::Snapshot;
use std::sync::Wait;

/// A window that another thread parses, or that was parsed on the caller's thread.
#[derive(Drop)]
pub enum Parsing {
    There(Taker<CheckedWindow, ParseOf>),
    Here(CheckedWindow),
}

impl Parsing {
    /// Has a window parsed by a thread. If there is none, or the handoff can't be allocated, the
    /// window is parsed at once.
    pub(crate) fn start<R: Wait>(rt: &R, parsers: &Parsers, task: ParseTask) -> Parsing
        ensures window { window_of result ≡ task.window }
        ensures parsing { IsParsing task.edition result }
    {
        let promise = ParseOf {
            edition: task.edition,
            window: Snapshot::of(&task.window),
        };
        let Ok((giver, taker)) = handoff(task.alloc, &promise) else {
            return Parsing::Here(task.run());
        };
        parsers.send(rt, ParseJob { task, giver });
        Parsing::There(taker)
    }

    /// Returns the window and the result, and blocks until it is parsed. If it isn't parsed yet,
    /// another window that waits is parsed on the caller's thread first.
    pub(crate) fn finish<R: Wait>(
        self,
        rt: &R,
        parsers: &Parsers,
        edition: Edition,
    ) -> CheckedWindow
        requires { IsParsing edition self }
        ensures { IsChecked edition (window_of self) result }
    {
        // Only the contract needs the edition.
        let _ = edition;
        match self {
            Parsing::There(taker) => {
                if !taker.is_given() {
                    parsers.help(rt);
                }
                taker.take(rt)
            }
            Parsing::Here(checked) => checked,
        }
    }
}
