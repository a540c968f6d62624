//! The replies of a run, in two columns.

ghost use Rattle.std.specs.Prelude.{◌≡◌, ◌<◌, [], ◌∷◌, ◌++◌, Some, length};
ghost use Rattle.std.specs.Prelude.{slice_get, take, true, false, OnOk, OnErr};
ghost use Rattle.bohm_txn.specs.declared.outcome.Reply.TheVariants as replies_are;
ghost use Rattle.bohm_txn.specs.ReplyRows.{Adds, IsInside, reply_by, reply_shown};
ghost use Rattle.bohm_txn.specs.Serial.{reply_with};

use crate::outcome::{Outcome, Reason};
use crate::reply_sink::ReplySink;
use bohm_types::{NoMemory, Value};
use std::alloc::Global;
use std::marker::Model;

/// A reply, borrowed from its list.
#[derive(Clone, Copy, Debug)]
pub enum ReplyView<'a> {
    /// The shown values, in the order of the statements.
    Commit { shows: &'a [Value] },
    /// The first statement that fails, counted from 1, and why.
    Abort { reason: Reason, stmt: u32 },
}

impl<'a> ReplyView<'a> {
    /// The outcome, and the shown values: none for an abort.
    pub fn parts(self) -> (Outcome, &'a [Value])
        ensures { reply_with result.0 result.1.now ≡ reply_shown self.entry }
    {
        match self {
            ReplyView::Commit { shows } => (Outcome::Commit, shows),
            ReplyView::Abort { reason, stmt } => (Outcome::Abort { reason, stmt }, &[]),
        }
    }
}

/// A transaction's outcome, and where its shown values are among all of them.
#[derive(Clone, Copy, Debug)]
pub enum ReplyRow {
    Commit { start: usize, end: usize },
    Abort { reason: Reason, stmt: u32 },
}

/// Replies in log order, which contracts see as a list of them. They are stored in two vectors, one
/// of a small row for each reply and one of all shown values, so a reply needs no allocation.
#[derive(Debug)]
pub struct Replies {
    rows: Vec<ReplyRow>,
    values: Vec<Value>,
}

// Written out: a derived drop is proved anew in each function that drops such a value.
impl Drop for Replies {
    fn drop(self) {
        let Self { rows, values } = self;
        drop(rows);
        drop(values);
    }
}

impl Model for Replies {
    ghost use Rattle.std.specs.Prelude.{List, map};
    ghost use Rattle.std.specs.List.{All};
    ghost use Rattle.bohm_txn.specs.declared.outcome.Reply.{Reply};
    ghost use Rattle.bohm_txn.specs.ReplyRows.{reply_by, IsInside};

    ghost Value = { List Reply };

    ghost view = { λ r. map (reply_by r.values.items) r.rows.items };

    ghost invariant = { λ r. All (IsInside r.values.items) r.rows.items };
}

/// The reply of a row.
fn lent<'a>(values: &'a [Value], row: ReplyRow) -> ReplyView<'a>
    requires { IsInside values.now row }
    ensures { reply_shown result ≡ reply_by values.now row }
{
    match row {
        ReplyRow::Commit { start, end } => ReplyView::Commit {
            shows: &values[start..end],
        },
        ReplyRow::Abort { reason, stmt } => ReplyView::Abort { reason, stmt },
    }
}

fn row_at(rows: &[ReplyRow], index: usize) -> ReplyRow
    requires { index < length rows.now }
    ensures { slice_get rows.now index ≡ Some result }
{
    rows[index]
}

/// Appends the values and their row. An error appends nothing.
#[inline]
fn add(rows: &mut Vec<ReplyRow>, values: &mut Vec<Value>, shows: &[Value]) -> Result<(), NoMemory>
    ensures ok { OnOk result
        (Adds rows.old.items values.old.items shows.now rows.new.items values.new.items) }
    ensures rows { OnErr result (rows.new.items ≡ rows.old.items) }
    ensures values { OnErr result (values.new.items ≡ values.old.items) }
{
    let start = values.len();
    rows.reserve(1)?;
    if !shows.is_empty() {
        values.extend_from_slice(shows)?;
    }
    rows.push_reserved(ReplyRow::Commit {
        start,
        end: values.len(),
    });
    Ok(())
}

impl Replies {
    /// No replies. It allocates nothing.
    pub fn new(alloc: Global) -> Replies
        ensures { result ≡ [] }
    {
        Replies {
            rows: Vec::new(alloc),
            values: Vec::new(alloc),
        }
    }

    /// Reserves capacity for this many more replies, apart from the values that they show.
    pub fn reserve(&mut self, more: usize) -> Result<(), NoMemory>
        ensures { self.new ≡ self.old }
    {
        self.rows.reserve(more)?;
        Ok(())
    }

    pub fn len(&self) -> usize
        ensures { result ≡ length self.now }
    {
        self.rows.len()
    }

    pub fn is_empty(&self) -> bool
        ensures none { result ≡ true → self.now ≡ [] }
        ensures some { result ≡ false → 0 < length self.now }
    {
        self.rows.is_empty()
    }

    /// How many values the replies show, including those that `truncate` removed. It is a hint of
    /// the size of the replies' text: no contract says more.
    pub fn most_shows(&self) -> usize {
        self.values.len()
    }

    /// The reply at an index, counted from 0.
    pub fn get(&self, index: usize) -> ReplyView<'_>
        requires { index < length self.now }
        ensures { slice_get self.now index ≡ Some (reply_shown result) }
    {
        lent(self.values.as_slice(), row_at(self.rows.as_slice(), index))
    }

    /// Appends an abort. An error leaves the list unchanged.
    pub fn push_abort(&mut self, reason: Reason, stmt: u32) -> Result<(), NoMemory>
        ensures ok { OnOk result (self.new ≡ self.old ++ replies_are.Abort reason stmt ∷ []) }
        ensures err { OnErr result (self.new ≡ self.old) }
    {
        self.rows.push(ReplyRow::Abort { reason, stmt })?;
        Ok(())
    }

    /// Appends a commit that shows these values. An error leaves the list unchanged.
    #[tactic(auto, using(crate::proofs::ReplyRows::commit_inside))]
    pub fn push_commit(&mut self, shows: &[Value]) -> Result<(), NoMemory>
        ensures ok { OnOk result (self.new ≡ self.old ++ replies_are.Commit shows.now ∷ []) }
        ensures err { OnErr result (self.new ≡ self.old) }
    {
        add(&mut self.rows, &mut self.values, shows)
    }

    /// Appends the reply of a transaction with this outcome: a commit shows these values. An error
    /// leaves the list unchanged.
    pub fn push(&mut self, outcome: Outcome, shows: &[Value]) -> Result<(), NoMemory>
        ensures ok { OnOk result (self.new ≡ self.old ++ reply_with outcome shows.now ∷ []) }
        ensures err { OnErr result (self.new ≡ self.old) }
    {
        match outcome {
            Outcome::Commit => self.push_commit(shows),
            Outcome::Abort { reason, stmt } => self.push_abort(reason, stmt),
        }
    }

    /// Appends the replies of another list, up to one that fails.
    fn push_all(&mut self, more: &Replies) -> Result<(), NoMemory>
        ensures ok { OnOk result (self.new ≡ self.old ++ more.now) }
        ensures err { OnErr result (take (length self.old) self.new ≡ self.old) }
    {
        self.reserve(more.len())?;
        for index in 0..more.len() {
            let (outcome, shows) = more.get(index).parts();
            self.push(outcome, shows)?;
        }
        Ok(())
    }

    /// Appends the replies of another list. An error leaves the list unchanged. The time grows with
    /// the number of the replies and of the values that they show.
    pub fn append(&mut self, more: Replies) -> Result<(), NoMemory>
        ensures ok { OnOk result (self.new ≡ self.old ++ more) }
        ensures err { OnErr result (self.new ≡ self.old) }
    {
        let len = self.len();
        if let Err(refusal) = self.push_all(&more) {
            self.truncate(len);
            return Err(refusal);
        }
        Ok(())
    }

    /// Removes all replies. Capacity is kept.
    pub fn clear(&mut self)
        ensures { self.new ≡ [] }
    {
        self.rows.clear();
        self.values.clear();
    }

    /// Keeps the first `len` replies.
    pub fn truncate(&mut self, len: usize)
        ensures { self.new ≡ take len self.old }
    {
        self.rows.truncate(len);
    }
}

/// The numbers aren't kept.
impl ReplySink for Replies {
    ghost use Rattle.std.specs.Prelude.{◌≡◌, [], ◌++◌, length};
    ghost use Rattle.std.proofs.Common.{append-nil, append_assoc, sym, ap, ◌∙◌, List};
    ghost use Rattle.bohm_txn.specs.declared.outcome.Reply.{Reply};

    ghost appended = { λ _ a xs b. b ≡ a ++ xs };

    ghost is_bare = { λ a. a ≡ [] };

    ghost extent = { length };

    fn empty(alloc: Global) -> Replies {
        Replies::new(alloc)
    }

    fn reserve(&mut self, more: usize) -> Result<(), NoMemory> {
        self.reserve(more)
    }

    #[inline]
    fn push(&mut self, _number: u64, outcome: Outcome, shows: &[Value]) -> Result<(), NoMemory> {
        self.push(outcome, shows)
    }

    fn append(&mut self, more: Replies) -> Result<(), NoMemory> {
        self.append(more)
    }

    fn len(&self) -> usize {
        self.len()
    }

    fn truncate(&mut self, len: usize) {
        self.truncate(len)
    }

    ghost nothing = { λ _ a. sym (append-nil a) };

    ghost joined = { λ _ a b c xs ys first second. second
        ∙ ap (λ (rs : List Reply). rs ++ ys) first ∙ append_assoc a xs ys };
}
