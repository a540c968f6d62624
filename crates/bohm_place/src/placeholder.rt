//! Placeholders of versions.

ghost use Rattle.std.specs.Prelude.{◌≡◌, length};
ghost use Rattle.bohm_place.specs.Chains.{none};
ghost use Rattle.bohm_place.specs.Shares.{within, greater_of, greater};

/// A version that a transaction is going to produce.
#[derive(Clone, Copy, Debug, PartialEq, Eq)]
pub struct Placeholder {
    /// The timestamp of the transaction; 0 means that there is no placeholder.
    pub begin: u32,
    /// Which of its declared writes produces the version, counted from 0.
    pub index: u32,
}

impl Placeholder {
    /// No placeholder.
    pub fn none() -> Placeholder
        ensures { result ≡ none }
    {
        Placeholder { begin: 0, index: 0 }
    }

    /// The placeholder itself if it belongs to the batch that starts at `first`, and else `none`.
    pub fn within(self, first: u32) -> Placeholder
        ensures { result ≡ within first self }
    {
        if self.begin < first {
            Placeholder::none()
        } else {
            self
        }
    }

    /// If at least one of the two placeholders is `none`, the other one.
    pub fn or(self, other: Placeholder) -> Placeholder
        ensures { result ≡ greater_of self other }
    {
        Placeholder {
            begin: self.begin.max(other.begin),
            index: self.index.max(other.index),
        }
    }
}

/// Merges the result of another worker into that of some workers, which have none of its keys.
pub fn join(found: &mut [Placeholder], more: &[Placeholder])
    requires { length found.old ≡ length more.now }
    ensures { found.new ≡ greater found.old more.now }
{
    for i in 0..found.len() {
        found[i] = found[i].or(more[i]);
    }
}
