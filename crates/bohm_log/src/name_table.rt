//! All names of a log as slices.

ghost use Rattle.std.specs.Prelude.{◌≡◌, ◌<◌, ◌≤◌, length, take, IfSome, Some, slice_get};
ghost use Rattle.bohm_log.specs.Layers.{all_names};

use bohm_types::Key;

/// All names of a log, each at its number: first those that it shares with other logs, then its
/// own.
#[derive(Clone, Copy)]
pub struct NameTable<'a> {
    pub(crate) shared: &'a [Key],
    pub(crate) own: &'a [Key],
}

impl<'a> NameTable<'a> {
    /// How many names there are.
    pub fn len(self) -> usize
        ensures { result ≡ length (all_names self.entry) }
    {
        self.shared.len() + self.own.len()
    }

    /// The name with a number.
    #[inline(always)]
    pub fn name(self, number: usize) -> &'a Key
        requires { number < length (all_names self) }
        ensures { slice_get (all_names self.entry) number ≡ Some result.now }
    {
        if number < self.shared.len() {
            &self.shared[number]
        } else {
            &self.own[number - self.shared.len()]
        }
    }

    /// The number, if it is that of this name.
    #[inline(always)]
    pub(crate) fn at_number(self, number: u32, name: &Key) -> Option<u32>
        ensures { IfSome result (λ i. slice_get (all_names self.entry) i ≡ Some name.now) }
    {
        let place = number as usize;
        if place < self.len() && *self.name(place) == *name {
            Some(number)
        } else {
            None
        }
    }

    /// The names with the numbers below a count.
    pub fn up_to(self, count: usize) -> NameTable<'a>
        requires { count ≤ length (all_names self) }
        ensures { all_names result ≡ take count (all_names self.entry) }
    {
        if count < self.shared.len() {
            NameTable {
                shared: &self.shared[..count],
                own: &[],
            }
        } else {
            NameTable {
                shared: self.shared,
                own: &self.own[..count - self.shared.len()],
            }
        }
    }

    /// The names that the log shares with others, from number 0 on.
    #[inline(always)]
    pub fn shared(self) -> &'a [Key]
        ensures { result.now ≡ self.entry.shared.now }
    {
        self.shared
    }

    /// The names that the log doesn't share. Their numbers follow those of the shared ones.
    #[inline(always)]
    pub fn own(self) -> &'a [Key]
        ensures { result.now ≡ self.entry.own.now }
    {
        self.own
    }
}
