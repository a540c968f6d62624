//! A sum as a view of the columns.

ghost use Rattle.std.specs.Prelude.{◌≡◌, ◌<◌, ◌≤◌, length, Some, slice_get};
ghost use Rattle.bohm_log.specs.Parts.{term_of, sum_between, TermIn};
ghost use Rattle.bohm_log.specs.Seeing.{parts_seen, term_shown, IsSeen};

use crate::row::{AtomKind, TermRow};
use crate::slices::TxnSlices;
use bohm_types::Key;
use std::marker::Model;

/// What a term adds or subtracts.
#[derive(Clone, Copy, Debug, PartialEq, Eq)]
pub enum AtomParts {
    Lit(u64),
    /// The value of a key.
    Read(Key),
    /// The value of a local.
    Local(Key),
}

/// An atom, and whether it is subtracted.
#[derive(Clone, Copy, Debug)]
pub struct TermParts {
    pub minus: bool,
    pub atom: AtomParts,
}

/// A sum, which contracts see as the list of its terms.
#[derive(Drop)]
pub struct SumView<'a> {
    pub(crate) seen: &'a TxnSlices<'a>,
    pub(crate) start: u32,
    pub(crate) end: u32,
}

impl<'a> Model for SumView<'a> {
    ghost use Rattle.std.specs.Prelude.{Bool, List};
    ghost use Rattle.bohm_types.specs.Term.{Atom};

    ghost Value = { List (Bool × Atom) };

    ghost use Rattle.bohm_log.specs.Parts.{sum_between};
    ghost use Rattle.bohm_log.specs.Seeing.{parts_seen, IsSeenSum};

    ghost view = { λ v. sum_between (parts_seen v.seen.now) v.start v.end };

    ghost invariant = { λ v. IsSeenSum v.seen.now v.start v.end };
}

/// The sum of the terms between two offsets.
pub fn sum_at<'a>(seen: &'a TxnSlices<'a>, start: u32, end: u32) -> SumView<'a>
    requires seen { IsSeen seen.now }
    requires rises { start ≤ end }
    requires end { end ≤ length seen.now.terms.now }
    ensures { result ≡ sum_between (parts_seen seen.now) start end }
{
    SumView { seen, start, end }
}

/// A term with the atom that its index refers to.
fn term_parts(seen: &TxnSlices, term: TermRow) -> TermParts
    requires within { TermIn (parts_seen seen.now) term }
    requires seen { IsSeen seen.now }
    ensures { term_shown result ≡ term_of (parts_seen seen.now) term }
{
    let place = term.place as usize;
    TermParts {
        minus: term.minus,
        atom: match term.kind {
            AtomKind::Small => AtomParts::Lit(u64::from(term.place)),
            AtomKind::Large => AtomParts::Lit(seen.large[place]),
            AtomKind::Read => AtomParts::Read(*seen.names.name(seen.reads[place] as usize)),
            AtomKind::Unread => AtomParts::Read(seen.others[place]),
            AtomKind::Local => AtomParts::Local(seen.others[place]),
        },
    }
}

impl SumView<'_> {
    /// How many terms it has.
    pub fn len(&self) -> usize
        ensures { result ≡ length self.now }
    {
        (self.end - self.start) as usize
    }

    /// The term at an index, counted from 0.
    pub fn term(&self, index: usize) -> TermParts
        requires { index < length self.now }
        ensures { slice_get self.now index ≡ Some (term_shown result) }
    {
        let terms = &self.seen.terms[self.start as usize..self.end as usize];
        term_parts(self.seen, terms[index])
    }
}
