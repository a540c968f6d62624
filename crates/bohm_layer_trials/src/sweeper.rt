//! A board and the pass that sweeps it.

ghost use Rattle.bohm_exec.specs.Steps.{IsFree};

use crate::boards::{assert_in, finish, next_batch, sweep_these};
use bohm_board::{Batch, Board, Claimed, Pass, Slot, Status};
use bohm_exec::{Aside, Finished, Gate};
use bohm_store::History;
use bohm_txn::{Checked, shows};
use bohm_types::Cell;
use std::alloc::Global;
use std::process::Abort;
use std::thread::Threads;

/// A board, a pass that holds nothing, and how many evaluations were made with it.
#[derive(Drop)]
pub struct Sweeper<'a> {
    board: Board<'a>,
    pass: Pass,
    evaluations: u64,
    ghost free: { IsFree board pass },
}

/// The status of a position, and the cell of one of its slots.
pub fn seen(
    rt: &impl Abort,
    board: &Board,
    pass: &mut Pass,
    t: u32,
    index: u32,
) -> (Status, Option<Cell>)
    requires { IsFree board.now pass.old }
    ensures { IsFree board.now pass.new }
{
    let batch = board.batch();
    assert_in(rt, batch, t);
    let txn = batch.txn(t);
    let writes = txn.writes().len();
    let place = index as usize;
    let inside = place < writes || place - writes < shows(&txn);
    assert!(rt; inside);
    let status = board.status(pass, t);
    let found = board.look(pass, Slot { txn: t, index });
    (status, found)
}

/// One pass that knows what each of the two passes knew.
pub fn joined(board: &Board, left: Pass, right: Pass) -> Pass
    requires { IsFree board.now left × IsFree board.now right }
    ensures { IsFree board.now result }
{
    board.join(left, right)
}

/// A log as the first batch over its own store.
fn first_batch<'a, R: Abort + Threads + Sync>(
    rt: &R,
    alloc: Global,
    log: &'a Checked,
) -> Batch<'a> {
    let txns = log.log();
    let fits = txns.len() > 0 && txns.len() <= 4096;
    assert!(rt; fits);
    let history = History::open(alloc, log.store()).expect(rt, "memory");
    next_batch(rt, alloc, &history, &txns).expect(rt, "memory")
}

impl<'a> Sweeper<'a> {
    /// A board of a log over its own store.
    pub fn new<R: Abort + Threads + Sync>(rt: &R, alloc: Global, log: &'a Checked) -> Sweeper<'a> {
        let batch = first_batch(rt, alloc, log);
        let (board, pass) = Board::open(alloc, batch).expect(rt, "memory");
        Sweeper::of(board, pass)
    }

    /// Sweeps these positions, and returns what it sets aside.
    pub fn sweep<G: Gate>(
        &mut self,
        rt: &impl Abort,
        alloc: Global,
        share: &[u32],
        gate: &G,
    ) -> Aside {
        let count = &mut self.evaluations;
        sweep_these(rt, alloc, &self.board, &mut self.pass, share, gate, count)
    }

    /// Splits off another pass, which claims an open position.
    pub fn hold(self, rt: &impl Abort, t: u32) -> (Sweeper<'a>, Pass) {
        let Sweeper {
            board,
            pass,
            evaluations,
        } = self;
        assert_in(rt, board.batch(), t);
        let (pass, mut holder) = board.split(pass);
        let is_mine = matches!(board.claim(&mut holder, t), Claimed::Mine);
        assert!(rt; is_mine);
        assert_eq!(rt; Board::holding(&holder), Some(t));
        assert_eq!(rt; Board::holding(&pass), None);
        let sweeper = Sweeper {
            board,
            pass,
            evaluations,
        };
        (sweeper, holder)
    }

    /// The status of a position, and the cell of one of its slots.
    pub fn see(&mut self, rt: &impl Abort, t: u32, index: u32) -> (Status, Option<Cell>) {
        seen(rt, &self.board, &mut self.pass, t, index)
    }

    /// The board, with two passes.
    pub fn split(self) -> (Board<'a>, Pass, Pass)
        ensures { IsFree result.0 result.1 × IsFree result.0 result.2 }
    {
        let Sweeper {
            board,
            pass,
            evaluations: _,
        } = self;
        let (left, right) = board.split(pass);
        (board, left, right)
    }

    /// The board with one of its passes.
    pub fn of(board: Board<'a>, pass: Pass) -> Sweeper<'a>
        requires { IsFree board pass }
    {
        Sweeper {
            board,
            pass,
            evaluations: 0,
        }
    }

    /// Closes and completes the board. Returns how many positions had no outcome, and the result.
    pub fn finish(self, rt: &impl Abort, alloc: Global, asides: &[Aside]) -> (u32, Finished<'a>) {
        let Sweeper {
            board,
            pass,
            evaluations,
        } = self;
        let closed = board.close(pass);
        let unfinished = closed.unfinished();
        let finished = finish(rt, alloc, closed, asides, evaluations);
        (unfinished, finished)
    }
}
