//! Terms and statements of a fixed size, which refer to names by index.

ghost use Rattle.std.specs.Prelude.{◌≡◌};
ghost use Rattle.bohm_log.specs.Drafting.{opened, first_end, second_end, latest_from, next_sum};

use bohm_types::Cmp;

/// What a term's index refers to.
#[derive(Clone, Copy, Debug, PartialEq, Eq)]
pub enum AtomKind {
    /// The index is the literal itself.
    Small,
    /// An index among the large literals.
    Large,
    /// An index among the reads.
    Read,
    /// An index among the other names, of a key that isn't declared.
    Unread,
    /// An index among the other names, of a local.
    Local,
}

/// An atom, and whether it is subtracted, in 8 bytes.
#[derive(Clone, Copy, Debug)]
pub struct TermRow {
    pub kind: AtomKind,
    pub minus: bool,
    pub place: u32,
}

/// What a statement does.
#[derive(Clone, Copy, Debug, PartialEq, Eq)]
pub enum Action {
    Bind,
    Need(Cmp),
    Has,
    Lacks,
    Put,
    PutWhen(Cmp),
    Remove,
    Show,
    Fail,
}

/// A statement in 24 bytes. Its sums are the terms between these offsets, one after another.
#[derive(Clone, Copy, Debug)]
pub struct StmtRow {
    pub action: Action,
    /// Whether the name is an index among the declared keys, rather than among the other names.
    pub declared: bool,
    pub name: u32,
    pub start: u32,
    pub first: u32,
    pub second: u32,
    pub third: u32,
}

/// Which sum of a statement is being read: its first, or a side of its condition.
#[derive(Clone, Copy, Debug)]
pub enum Step {
    Whole,
    Left,
    Right,
}

/// Where the sums of the statement that is being read begin and end.
#[derive(Clone, Copy, Debug)]
pub struct Pending {
    pub start: u32,
    pub first: u32,
    pub second: u32,
    pub step: Step,
}

impl Pending {
    /// A statement whose first sum begins at this offset.
    pub fn at(offset: u32) -> Pending
        ensures { result ≡ opened offset }
    {
        Pending {
            start: offset,
            first: offset,
            second: offset,
            step: Step::Whole,
        }
    }

    /// Where the sum that is being read begins.
    pub fn latest(&self) -> u32
        ensures { result ≡ latest_from self.now }
    {
        match self.step {
            Step::Whole => self.start,
            Step::Left => self.first,
            Step::Right => self.second,
        }
    }

    /// The statement once the sum being read has ended at this offset, where the next one begins.
    pub fn next(&self, end: u32) -> Pending
        ensures { result ≡ next_sum end self.now.start self.now.first self.now.second
            self.now.step }
    {
        match self.step {
            Step::Whole => Pending {
                start: self.start,
                first: end,
                second: end,
                step: Step::Left,
            },
            Step::Left => Pending {
                start: self.start,
                first: self.first,
                second: end,
                step: Step::Right,
            },
            Step::Right => *self,
        }
    }

    /// The ends of the first sum and of the second, if the last term ends at this offset.
    pub fn ends(&self, end: u32) -> (u32, u32)
        ensures first { result.0 ≡ first_end self.now.first end self.now.step }
        ensures second { result.1 ≡ second_end self.now.second end self.now.step }
    {
        match self.step {
            Step::Whole => (end, end),
            Step::Left => (self.first, end),
            Step::Right => (self.first, self.second),
        }
    }
}
