//! Lists of calls.

ghost use Rattle.std.specs.Prelude.{◌≡◌, ◌↔◌, true, IfOk, OnOk, OnErr, length, nat_lt};
ghost use Rattle.bohm_types.specs.Appending.{empty_document, with_txn};
ghost use Rattle.bohm_types.specs.Limits.{most_txns};
ghost use Rattle.bohm_types.specs.Procedure.{instance};
ghost use Rattle.bohm_log.specs.Handles.{keys_named};
ghost use Rattle.bohm_text.specs.Print.{print_doc};
ghost use Rattle.bohm_procedures.specs.Accepting.{Takes, TakesCounts};

use crate::procedure::Procedure;
use bohm_log::{CallPlaces, DrawnSeed, FixedSeed, HashSeed, KeyHandle, SharedNames};
use bohm_text::print_doc;
use bohm_txn::Checked;
use bohm_types::{Edition, Key, MOST_TXNS, NoMemory, Value};
use std::alloc::Global;
use std::marker::Model;
use std::mem;

/// Instances of procedures, one after another. Contracts see them as a document over the empty
/// store.
#[derive(Drop)]
pub struct Calls {
    segment: Checked,
    /// Buffers that a call fills, which are reused for the next call.
    handles: Vec<KeyHandle>,
    places: CallPlaces,
}

impl Model for Calls {
    ghost use Rattle.bohm_types.specs.Document.{Document};

    ghost Value = { Document };

    ghost view = { λ c. c.segment };
}

/// Stores the handles of keys, with the keys' likely numbers.
fn fill_handles(
    handles: &mut Vec<KeyHandle>,
    segment: &Checked,
    keys: &[Key],
) -> Result<(), NoMemory>
    ensures { OnOk result (keys_named handles.new.items ≡ keys.now) }
{
    handles.clear();
    for key in keys {
        handles.push(segment.noted_handle(key))?;
    }
    Ok(())
}

impl Calls {
    /// An empty list of calls, whose keys are hashed with the seed. It allocates nothing.
    pub fn new(alloc: Global, seed: DrawnSeed, edition: Edition) -> Calls
        ensures { result ≡ empty_document edition }
    {
        Calls::sharing(alloc, seed, edition, SharedNames::none())
    }

    /// An empty list of calls, which shares these names with a machine and with its other lists: a
    /// key among these names has the same number in all of them, and takes no memory in this list.
    /// It allocates nothing.
    pub fn sharing(
        alloc: Global,
        seed: DrawnSeed,
        edition: Edition,
        names: SharedNames<HashSeed>,
    ) -> Calls
        ensures { result ≡ empty_document edition }
    {
        Calls {
            segment: Checked::sharing(alloc, HashSeed::from(seed), edition, names),
            handles: Vec::new(alloc),
            places: CallPlaces::new(alloc),
        }
    }

    fn has_room(&self) -> bool
        ensures { result ≡ nat_lt (length self.now.log) most_txns }
    {
        self.len() < MOST_TXNS
    }

    /// Whether a call with this many arguments of each kind can be added: the procedure has as many
    /// parameters, its edition is that of the calls, and there are fewer than 1,000,000 calls.
    pub fn takes_counts(&self, procedure: &Procedure, keys: usize, values: usize) -> bool
        ensures { (result ≡ true) ↔ TakesCounts self.now procedure.now keys values }
    {
        keys == procedure.keys()
            && values == procedure.values()
            && procedure.edition() == self.segment.edition()
            && self.has_room()
    }

    /// Whether a call with these arguments can be added: `takes_counts` of their numbers.
    pub fn takes(&self, procedure: &Procedure, keys: &[Key], values: &[Value]) -> bool
        ensures { (result ≡ true) ↔ Takes self.now procedure.now keys.now values.now }
    {
        self.takes_counts(procedure, keys.len(), values.len())
    }

    /// Appends the instance of a procedure. It fails with `NoMemory` if an allocation fails or the
    /// 32-bit numbers of a column are used up, which takes at least 2^26 calls, declared keys,
    /// terms and statements together. An error leaves the calls unchanged.
    ///
    /// Its time grows with the size of the instance, and with the square of the number of declared
    /// keys, of which there are at most 32. No text is printed or parsed.
    pub fn push(
        &mut self,
        procedure: &Procedure,
        keys: &[Key],
        values: &[Value],
    ) -> Result<(), NoMemory>
        requires { Takes self.old procedure.now keys.now values.now }
        ensures ok { OnOk result
            (self.new ≡ with_txn self.old (instance procedure.now keys.now values.now)) }
        ensures err { OnErr result (self.new ≡ self.old) }
    {
        fill_handles(&mut self.handles, &self.segment, keys)?;
        let template = procedure.template();
        let handles = self.handles.as_slice();
        self.segment
            .push_call(template, &mut self.places, handles, values)
            .map_err(|_| NoMemory)
    }

    /// The handle of a key, by which `push_named` finds the key's number. A key that no call named
    /// is numbered, as long as fewer than 2^30 keys have a number. It fails with `NoMemory` if an
    /// allocation fails. The calls are unchanged. The time doesn't grow with the list, except when
    /// its table of keys grows.
    ///
    /// A handle stays valid when calls are added and removed, and for other lists of calls: if its
    /// number isn't the key's, the key is looked up again. Each numbered key takes memory in the
    /// list's table, until `clear` removes the table or the list is dropped.
    pub fn handle(&mut self, key: &Key) -> Result<KeyHandle, NoMemory>
        ensures key { IfOk result (λ h. h.key ≡ key.now) }
        ensures same { self.new ≡ self.old }
    {
        self.segment.handle(key).map_err(|_| NoMemory)
    }

    /// The handle of a key with its likely number: the one that was noted last for its hash. No key
    /// is numbered, and no search is made.
    #[inline(always)]
    pub fn noted_handle(&self, key: &Key) -> KeyHandle
        ensures { result.key ≡ key.now }
    {
        self.segment.noted_handle(key)
    }

    /// Whether a call by handles can be added: `takes`, for the handles' keys.
    #[tactic(auto, using(crate::proofs::Calling::named_length))]
    pub fn takes_named(&self, procedure: &Procedure, keys: &[KeyHandle], values: &[Value]) -> bool
        ensures { (result ≡ true)
            ↔ Takes self.now procedure.now (keys_named keys.now) values.now }
    {
        self.takes_counts(procedure, keys.len(), values.len())
    }

    /// Appends the instance of a procedure for the keys of these handles. It is like `push`, but
    /// hashes none of the keys whose handles this list made, as long as the list keeps their
    /// numbers.
    pub fn push_named(
        &mut self,
        procedure: &Procedure,
        keys: &[KeyHandle],
        values: &[Value],
    ) -> Result<(), NoMemory>
        requires { Takes self.old procedure.now (keys_named keys.now) values.now }
        ensures ok { OnOk result
            (self.new ≡ with_txn self.old
            (instance procedure.now (keys_named keys.now) values.now)) }
        ensures err { OnErr result (self.new ≡ self.old) }
    {
        let template = procedure.template();
        self.segment
            .push_call(template, &mut self.places, keys, values)
            .map_err(|_| NoMemory)
    }

    /// Removes all calls. Their capacity is kept if it is for at most four times as many, or for at
    /// most a few thousand. The table of keys is kept if it has at most 16,384 keys, or at most
    /// four for each key that a call declared and each handle that was made, of which at most
    /// 65,536 count, and at most 2^30 together with the shared ones. Otherwise it is removed.
    pub fn clear(&mut self)
        ensures { self.new ≡ empty_document self.old.edition }
    {
        self.segment.clear();
    }

    /// How many calls there are.
    pub fn len(&self) -> usize
        ensures { result ≡ length self.now.log }
    {
        self.segment.log().len()
    }

    /// Whether there are no calls.
    pub fn is_empty(&self) -> bool
        ensures { (result ≡ true) ↔ (length self.now.log ≡ 0) }
    {
        self.len() == 0
    }

    /// The text of the log of the instances, without a store. Its time and memory grow with the
    /// length of the text.
    pub fn print(&self, alloc: Global) -> Result<Vec<u8>, NoMemory>
        ensures { IfOk result (λ text. text.items ≡ print_doc self.now) }
    {
        print_doc(alloc, self.segment.doc())
    }

    /// Takes the segment out of the list, which is empty until `put_segment` puts it back. It
    /// allocates nothing.
    pub fn take_segment(&mut self, alloc: Global) -> Checked
        ensures taken { result ≡ self.old }
        ensures left { self.new ≡ empty_document self.old.edition }
    {
        let (seed, edition) = (HashSeed::from(FixedSeed), self.segment.edition());
        let empty = Checked::sharing(alloc, seed, edition, SharedNames::none());
        mem::replace(&mut self.segment, empty)
    }

    /// Puts a segment that `take_segment` returned back in the place of the list's calls.
    pub fn put_segment(&mut self, segment: Checked)
        ensures { self.new ≡ segment }
    {
        self.segment = segment;
    }

    /// The log of the instances, which a machine can run.
    pub fn segment(&self) -> &Checked
        ensures { result.now ≡ self.now }
    {
        &self.segment
    }
}
