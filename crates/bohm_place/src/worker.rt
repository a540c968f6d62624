//! One of several planning workers.

ghost use Rattle.std.specs.Prelude.{◌≡◌, ◌%◌, ◌==◌, ◌<◌};
ghost use Rattle.bohm_place.specs.Knowing.{IsKnown};

/// One of `count` planning workers. It has each part whose number is its own modulo `count`.
#[derive(Clone, Copy, Debug)]
pub struct Worker {
    pub number: usize,
    pub count: usize,
    ghost inside: { number < count },
}

impl Worker {
    /// Whether the worker has the part.
    pub fn has(self, part: u32) -> bool
        ensures { result ≡ ((part % self.count) == self.number) }
    {
        part as usize % self.count == self.number
    }
}

/// What is known of a key's part.
#[derive(Clone, Copy, Debug, PartialEq, Eq)]
pub enum Known {
    /// The part wasn't looked up yet.
    Nothing,
    /// The worker has the part.
    Own,
    /// Another worker has the part.
    Foreign,
}

impl From<bool> for Known {
    ghost from_gives = { λ own known. IsKnown own known };

    fn from(own: bool) -> Known {
        if own { Known::Own } else { Known::Foreign }
    }
}

/// The keys of a planning worker: those whose part it has.
#[derive(Drop)]
pub struct WorkerKeys<'a, P> {
    pub worker: Worker,
    pub partition: &'a P,
}
