//! The indices of a call's keys in its sets.

ghost use Rattle.std.specs.Prelude.{◌≡◌, ◌≢◌, ◌<◌, ◌≤◌, ◌+◌, [], ◌∷◌, true, false, drop, length, IfSome, IfNone};
ghost use Rattle.std.specs.Prelude.{OnOk, Some, Err, slice_get};
ghost use Rattle.bohm_log.specs.declared.fault.LogFault.TheVariants.{Full};
ghost use Rattle.std.specs.List.{range_with_len};
ghost use Rattle.bohm_types.specs.KeySets.{inserted, key_set};
ghost use Rattle.bohm_log.specs.Parts.{IsApart, name_at, names_at};
ghost use Rattle.bohm_log.specs.Columns.{AllNamed};
ghost use Rattle.bohm_log.specs.Layers.{all_names};
ghost use Rattle.bohm_log.specs.Calling.{ArePlaces};
ghost use Rattle.bohm_log.specs.CallPlaces.{AreSorted, IsFalling, IsSettled};
ghost use Rattle.bohm_log.specs.declared.call_places.KeyOrder.TheVariants.{Rising, Falling};
ghost use Rattle.bohm_types.specs.Limits.{most_keys};

use crate::fault::LogFault;
use crate::keys::Keys;
use crate::name_table::NameTable;
use crate::placed_body::PlacedBody;
use bohm_types::{Key, MOST_KEYS};
use std::alloc::Global;
use std::cmp::Ordering;

/// Inserts a name's number in order among those of ascending names, if it isn't among them.
fn insert_number(sorted: &mut Vec<u32>, names: NameTable<'_>, id: u32) -> Result<(), LogFault>
    requires id { id < length (all_names names) }
    requires named { AllNamed (all_names names) sorted.old.items }
    ensures named { OnOk result (AllNamed (all_names names.entry) sorted.new.items) }
    ensures inserted { OnOk result
        (names_at (all_names names.entry) sorted.new.items
        ≡ inserted (name_at (all_names names.entry) id)
        (names_at (all_names names.entry) sorted.old.items)) }
    ensures never_full { result ≢ Err Full }
{
    let name = names.name(id as usize);
    for i in 0..sorted.len() {
        match name.cmp(names.name(sorted[i] as usize)) {
            Ordering::Less => {
                sorted.insert(i, id)?;
                return Ok(());
            }
            Ordering::Equal => return Ok(()),
            Ordering::Greater => {}
        }
    }
    sorted.push(id)?;
    Ok(())
}

/// The numbers of the distinct names among those with these numbers, in ascending order of names.
fn sort_numbers(sorted: &mut Vec<u32>, names: NameTable<'_>, ids: &[u32]) -> Result<(), LogFault>
    requires { AllNamed (all_names names) ids.now }
    ensures ok { OnOk result (AreSorted (all_names names.entry) ids.now sorted.new.items) }
    ensures never_full { result ≢ Err Full }
{
    sorted.clear();
    for done in 0..ids.len() {
        insert_number(sorted, names, ids[ids.len() - 1 - done])?;
    }
    Ok(())
}

/// The index of a key in a set of at most 16 keys.
#[tactic(auto, using(crate::proofs::Seeking::found, crate::proofs::Seeking::not_found))]
fn place_in_set(set: &Keys<'_>, key: &Key) -> Option<u32>
    ensures found { IfSome result (λ i. slice_get set.now i ≡ Some key.now) }
    ensures none { IfNone result (IsApart set.now key.now) }
{
    if set.len() > MOST_KEYS {
        return None;
    }
    let place = set.place_of(key)?;
    Some(place as u32)
}

/// Finds the index of each key in the keys' set.
fn find_places(places: &mut Vec<u32>, set: &Keys<'_>, keys: &Keys<'_>) -> Result<(), LogFault>
    requires few { length keys.now ≤ most_keys }
    requires set { set.now ≡ key_set keys.now }
    ensures ok { OnOk result (ArePlaces keys.now set.now places.new.items) }
    ensures never_full { result ≢ Err Full }
{
    places.clear();
    for i in 0..keys.len() {
        let place = match place_in_set(set, keys.key(i)) {
            Some(place) => place,
            None => 0,
        };
        places.push(place)?;
    }
    Ok(())
}

/// Whether the key at an index is below the next key, if there is one.
#[tactic(auto, using(crate::proofs::Placing::own_further_at, crate::proofs::Placing::own_last))]
fn is_below_next(keys: &Keys<'_>, i: usize) -> bool
    requires { i < length keys.now }
    ensures { result ≡ true → key_set (drop (i + 1) keys.now) ≡ drop (i + 1) keys.now
        → key_set (drop i keys.now) ≡ drop i keys.now }
{
    if keys.len() - i == 1 {
        return true;
    }
    match keys.key(i).cmp(keys.key(i + 1)) {
        Ordering::Less => true,
        Ordering::Equal | Ordering::Greater => false,
    }
}

/// Whether each key is below the next.
fn are_rising(keys: &Keys<'_>) -> bool
    ensures { result ≡ true → key_set keys.now ≡ keys.now }
{
    for done in 0..keys.len() {
        if !is_below_next(keys, keys.len() - 1 - done) {
            return false;
        }
    }
    true
}

/// The indices 0, 1, .. of `count` keys.
#[tactic(auto, using(crate::proofs::Placing::range_more))]
pub(crate) fn count_places(places: &mut Vec<u32>, count: usize) -> Result<(), LogFault>
    requires { count ≤ most_keys }
    ensures ok { OnOk result (places.new.items ≡ range_with_len 0 count) }
    ensures never_full { result ≢ Err Full }
{
    places.clear();
    for i in 0..count {
        places.push(i as u32)?;
    }
    Ok(())
}

/// The order of the keys that a procedure's names represent.
#[derive(Clone, Copy)]
pub enum KeyOrder {
    /// Each key is below the next one, so each is at its name's own index in the set.
    Rising,
    /// There are two keys, and the second one is the lower one.
    Falling,
    /// Any other order, or keys that are equal.
    Mixed,
}

/// The order of keys.
#[tactic(auto, using(crate::proofs::Placing::two_rising, crate::proofs::Placing::two_falling))]
fn order_of(keys: &Keys<'_>) -> KeyOrder
    ensures rising { result ≡ Rising → key_set keys.now ≡ keys.now }
    ensures falling { result ≡ Falling → IsFalling keys.now }
{
    if keys.len() == 2 {
        return match keys.key(0).cmp(keys.key(1)) {
            Ordering::Less => KeyOrder::Rising,
            Ordering::Equal => KeyOrder::Mixed,
            Ordering::Greater => KeyOrder::Falling,
        };
    }
    if are_rising(keys) {
        KeyOrder::Rising
    } else {
        KeyOrder::Mixed
    }
}

/// The indices, in their set, of the keys that a procedure's names represent.
#[derive(Drop)]
pub struct SetPlaces {
    /// At the index of each name in the procedure, the index of its key in the set.
    pub places: Vec<u32>,
    pub order: KeyOrder,
    /// The numbers of the set's keys, if the keys don't ascend.
    pub numbers: Vec<u32>,
}

impl SetPlaces {
    fn new(alloc: Global) -> SetPlaces {
        SetPlaces {
            places: Vec::new(alloc),
            order: KeyOrder::Rising,
            numbers: Vec::new(alloc),
        }
    }

    /// Whether the keys ascend.
    pub fn is_rising(&self) -> bool
        ensures rising { result ≡ true → self.now.order ≡ Rising }
        ensures others { result ≡ false → self.now.order ≢ Rising }
    {
        matches!(self.order, KeyOrder::Rising)
    }

    /// Whether there are two keys in descending order.
    pub fn is_falling(&self) -> bool
        ensures { result ≡ true → self.now.order ≡ Falling }
    {
        matches!(self.order, KeyOrder::Falling)
    }

    /// Stores the set of two names, the second of which is the lower one.
    fn turn(&mut self, first: u32, second: u32) -> Result<(), LogFault>
        ensures numbers { OnOk result (self.new.numbers.items ≡ second ∷ first ∷ []) }
        ensures places { OnOk result (self.new.places.items ≡ 1 ∷ 0 ∷ []) }
        ensures order { self.new.order ≡ self.old.order }
        ensures never_full { result ≢ Err Full }
    {
        self.places.clear();
        self.places.push(1)?;
        self.places.push(0)?;
        self.numbers.clear();
        self.numbers.push(second)?;
        self.numbers.push(first)?;
        Ok(())
    }

    /// Stores the set of the names with these numbers, which are in any order.
    fn sort(&mut self, names: NameTable<'_>, ids: &[u32]) -> Result<(), LogFault>
        requires few { length ids.now ≤ most_keys }
        requires named { AllNamed (all_names names) ids.now }
        ensures numbers { OnOk result
            (AreSorted (all_names names.entry) ids.now self.new.numbers.items) }
        ensures places { OnOk result (ArePlaces (names_at (all_names names.entry) ids.now)
            (key_set (names_at (all_names names.entry) ids.now)) self.new.places.items) }
        ensures order { self.new.order ≡ self.old.order }
        ensures never_full { result ≢ Err Full }
    {
        let keys = Keys { names, ids };
        sort_numbers(&mut self.numbers, names, ids)?;
        let set = Keys {
            names,
            ids: self.numbers.as_slice(),
        };
        find_places(&mut self.places, &set, &keys)
    }

    /// Stores the set of the names with these numbers, and the index of each of them in it.
    pub fn settle(&mut self, names: NameTable<'_>, ids: &[u32]) -> Result<(), LogFault>
        requires few { length ids.now ≤ most_keys }
        requires named { AllNamed (all_names names) ids.now }
        ensures ok { OnOk result (IsSettled (all_names names.entry) ids.now self.new) }
        ensures never_full { result ≢ Err Full }
    {
        let keys = Keys { names, ids };
        self.order = order_of(&keys);
        match self.order {
            KeyOrder::Rising => count_places(&mut self.places, ids.len()),
            KeyOrder::Falling => self.turn(ids[0], ids[1]),
            KeyOrder::Mixed => self.sort(names, ids),
        }
    }
}

/// The offsets in the columns of what earlier calls added. The entries there are compared with what
/// the next call needs, so wrong offsets cost only memory.
#[derive(Clone, Copy)]
pub struct EarlierCalls {
    /// The offset of the last call's names of locals.
    pub others: u32,
    /// The offset of the statements of the last call whose keys descended.
    pub falling: u32,
    /// The offset of the statements of the last other call.
    pub rising: u32,
}

impl EarlierCalls {
    /// The offset at which the statements of a call may already be. `falls` says whether its keys
    /// descend.
    pub fn rows(&self, falls: bool) -> u32
        ensures falling { falls ≡ true → result ≡ self.now.falling }
        ensures others { falls ≡ false → result ≡ self.now.rising }
    {
        if falls { self.falling } else { self.rising }
    }

    /// Notes the offsets of the names and the statements of a call. `falls` says whether its keys
    /// descend.
    pub fn note(&mut self, falls: bool, others: u32, rows: u32)
        ensures names { self.new.others ≡ others }
        ensures falling { falls ≡ true → self.new.falling ≡ rows }
        ensures rising { falls ≡ false → self.new.rising ≡ rows }
    {
        self.others = others;
        if falls {
            self.falling = rows;
        } else {
            self.rising = rows;
        }
    }
}

/// The indices of a call's keys in its sets, in vectors that are reused for the next call.
pub struct CallPlaces {
    pub(crate) reads: SetPlaces,
    pub(crate) writes: SetPlaces,
    pub(crate) earlier: EarlierCalls,
}

// Written out: a derived drop is proved anew in each function that drops such a value.
impl Drop for CallPlaces {
    fn drop(self) {
        let Self {
            reads,
            writes,
            earlier: _,
        } = self;
        drop(reads);
        drop(writes);
    }
}

impl CallPlaces {
    /// Empty vectors. It allocates nothing.
    pub fn new(alloc: Global) -> CallPlaces {
        CallPlaces {
            reads: SetPlaces::new(alloc),
            writes: SetPlaces::new(alloc),
            earlier: EarlierCalls {
                others: 0,
                falling: 0,
                rising: 0,
            },
        }
    }
}

/// The indices to which a body's keys move, and the body with these indices, if it is prepared for
/// them.
#[derive(Clone, Copy)]
pub struct Moves<'a, 'b> {
    pub reads: &'a [u32],
    pub writes: &'a [u32],
    pub placed: Option<&'b PlacedBody>,
}
