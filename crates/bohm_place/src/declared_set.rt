//! The two sets of keys that a transaction declares.

ghost use Rattle.std.specs.Prelude.{◌≡◌};
ghost use Rattle.bohm_place.specs.Plans.{keys_in};

use bohm_log::{Keys, TxnView};

/// One of the two sets of keys that a transaction declares.
#[derive(Clone, Copy, Debug, PartialEq, Eq)]
pub enum DeclaredSet {
    Reads,
    Writes,
}

impl DeclaredSet {
    /// The keys of the set, in the order in which they are declared.
    pub fn keys<'a>(self, txn: &TxnView<'a>) -> Keys<'a>
        ensures { result ≡ keys_in self txn.now }
    {
        match self {
            DeclaredSet::Reads => txn.reads(),
            DeclaredSet::Writes => txn.writes(),
        }
    }
}
