//! Compiled bodies.

use bohm_types::{Cmp, Edition, Key};

/// A term of a sum.
#[derive(Clone, Copy, Debug)]
pub enum Term {
    /// A literal with its sign.
    Number(i64),
    /// What a key holds, added or subtracted, by the key's index.
    Slot { minus: bool, place: usize },
    /// A local, added or subtracted, by its index in the order of binding.
    Local { minus: bool, place: usize },
}

/// A statement, whose keys and locals are indices.
#[derive(Debug, Drop)]
pub enum Step {
    Let {
        place: usize,
        sum: Vec<Term>,
    },
    Need {
        left: Vec<Term>,
        cmp: Cmp,
        right: Vec<Term>,
    },
    Has {
        place: usize,
    },
    Lacks {
        place: usize,
    },
    Set {
        place: usize,
        sum: Vec<Term>,
    },
    SetWhen {
        place: usize,
        sum: Vec<Term>,
        left: Vec<Term>,
        cmp: Cmp,
        right: Vec<Term>,
    },
    Remove {
        place: usize,
    },
    Show {
        sum: Vec<Term>,
    },
    Fail,
}

/// What all calls of a procedure have in common.
#[derive(Debug, Drop)]
pub struct Shape {
    pub edition: Edition,
    /// The names that the procedure declares: first those that it writes, and then those that it
    /// only reads. A key's index is that of its name.
    pub names: Vec<Key>,
    /// How many names it declares to write.
    pub writes: usize,
    /// How many values it takes, which are its first locals.
    pub values: usize,
    /// The names of its locals, in the order of binding.
    pub locals: Vec<Key>,
    /// Its statements, without the bindings of the values.
    pub steps: Vec<Step>,
}
