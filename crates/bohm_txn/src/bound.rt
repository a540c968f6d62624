//! Which names the statements so far bind.

ghost use Rattle.std.specs.Prelude.{◌≡◌, ◌∷◌, ◌++◌, [], List};
ghost use Rattle.std.specs.List.{list_any};
ghost use Rattle.bohm_log.specs.declared.row.StmtRow.{StmtRow};
ghost use Rattle.bohm_txn.specs.Rows.{AreNoted, binds_at, has_note};

use bohm_log::{Action, StmtRow};

/// How many names have a note of whether they are bound. For other names the statements are
/// searched.
const NOTED: usize = 64;

/// For each of the first `NOTED` names, whether it is bound.
#[derive(Clone, Copy)]
pub struct Bound {
    noted: [bool; NOTED],
}

/// The names are compared first, since most rows have a different name.
fn binds(row: &StmtRow, place: u32) -> bool
    ensures { result ≡ binds_at place row.now }
{
    row.name == place && matches!(row.action, Action::Bind)
}

fn are_binding(rows: &[StmtRow], place: u32) -> bool
    ensures { result ≡ list_any (binds_at place) rows.now }
{
    rows.iter().any(|row| binds(row, place))
}

impl Bound {
    /// The notes before the first statement: no name is bound.
    pub fn new() -> Bound
        ensures { AreNoted result.noted [] }
    {
        Bound {
            noted: [false; NOTED],
        }
    }

    /// Notes the next statement.
    pub fn note(&mut self, row: &StmtRow)
        ensures { (rows : List StmtRow) → AreNoted self.old.noted rows
            → AreNoted self.new.noted (rows ++ row.now ∷ []) }
    {
        if (row.name as usize) < NOTED && binds(row, row.name) {
            self.noted[row.name as usize] = true;
        }
    }

    /// Whether the name at an index has a note that it is bound.
    pub fn has(&self, place: u32) -> bool
        ensures { result ≡ has_note self.now.noted place }
    {
        (place as usize) < NOTED && self.noted[place as usize]
    }

    /// Whether one of the statements so far binds the name at an index.
    pub fn binds(&self, before: &[StmtRow], place: u32) -> bool
        requires { AreNoted self.now.noted before.now }
        ensures { result ≡ list_any (binds_at place) before.now }
    {
        if (place as usize) < NOTED {
            self.noted[place as usize]
        } else {
            are_binding(before, place)
        }
    }
}
