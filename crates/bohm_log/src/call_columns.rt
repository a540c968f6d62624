//! Appends calls to the columns.

ghost use Rattle.std.specs.Prelude.{◌≡◌, ◌≢◌, ◌≤◌, ◌+◌, ◌*◌, ◌^◌, [], ◌∷◌, IfOk, OnOk, OnErr};
ghost use Rattle.std.specs.Prelude.{Err, IfSome, true, length, map, max};
ghost use Rattle.bohm_log.specs.declared.fault.LogFault.TheVariants.{Full};
ghost use Rattle.bohm_log.specs.Columns.{entries_in, held_with};
ghost use Rattle.bohm_types.specs.KeySets.{key_set};
ghost use Rattle.bohm_log.specs.Calling.{argument_of, IsReady};
ghost use Rattle.bohm_log.specs.CallPlaces.{HasPlaces, HasSets, IsChosen, IsOrdered, parts_called, written};
ghost use Rattle.bohm_log.specs.Columns.{shared_of, Appends, Interns, NumbersCome};
ghost use Rattle.bohm_log.specs.Columns.{NumbersEnd, SetsCome};
ghost use Rattle.bohm_log.specs.Handles.{keys_named};
ghost use Rattle.bohm_types.specs.Limits.{most_keys};

use crate::call_places::{CallPlaces, KeyOrder, Moves, SetPlaces};
use crate::calling::{add_large, add_rows, add_terms, handle_of};
use crate::columns::{Columns, MOST_NAMED, number_of, offset, repeat_end};
use crate::earlier::{add_once, names_at};
use crate::fault::LogFault;
use crate::key_handle::KeyHandle;
use crate::name_hints::NO_NUMBER;
use crate::table::Head;
use crate::template::{BodyColumns, DeclaredName};
use bohm_types::{Edition, Key, Value};
use std::hash::BuildHasher;

/// Where a body's keys move, given their indices in the sets of a call.
fn moves_by<'a, 'b>(body: &'b BodyColumns, places: &'a CallPlaces) -> Moves<'a, 'b>
    requires reads { IsOrdered (length body.now.reads.items) places.now.reads }
    requires writes { IsOrdered (length body.now.writes.items) (written body.now places.now) }
    ensures reads { result.reads.now ≡ places.now.reads.places.items }
    ensures writes { result.writes.now ≡ (written body.now places.now).places.items }
    ensures placed { IfSome result.placed
        (λ b. IsChosen body.now result.reads.now result.writes.now b.now) }
{
    let writes = if body.same_sets {
        &places.reads
    } else {
        &places.writes
    };
    let placed = match (places.reads.order, writes.order) {
        (KeyOrder::Rising, KeyOrder::Rising) => Some(&body.rising),
        (KeyOrder::Falling, KeyOrder::Falling) => Some(&body.falling),
        _ => None,
    };
    Moves {
        reads: places.reads.places.as_slice(),
        writes: writes.places.as_slice(),
        placed,
    }
}

impl<S: BuildHasher> Columns<S> {
    /// The handle of a key, with the number that was noted last for its hash.
    #[inline(always)]
    pub fn noted_handle(&self, key: &Key) -> KeyHandle
        ensures { result.key ≡ key.now }
    {
        KeyHandle {
            key: *key,
            number: self.noted_number(key),
        }
    }
}

impl<S: BuildHasher + Drop> Columns<S> {
    /// The handle of a key, which is numbered if it is new. If there are 2^30 names it isn't
    /// numbered: then the handle has the number that was noted last for its hash.
    pub fn handle(&mut self, key: &Key) -> Result<KeyHandle, LogFault>
        ensures key { IfOk result (λ h. h.key ≡ key.now) }
        ensures interns { Interns (shared_of self.old) (shared_of self.new) }
        ensures never_full { result ≢ Err Full }
        ensures few { length self.new.names ≤ max (length self.old.names) (2 ^ 30) }
        ensures entries { entries_in (shared_of self.new) ≡ entries_in (shared_of self.old) }
    {
        if self.names.len() >= MOST_NAMED {
            return Ok(self.noted_handle(key));
        }
        let hint = self.noted_number(key);
        let number = number_of(&mut self.names, &mut self.hints, key, hint)?;
        self.handles = self.handles.saturating_add(1);
        Ok(KeyHandle { key: *key, number })
    }

    /// Appends the number of the key that a declared name represents.
    #[inline(always)]
    fn add_argument(&mut self, name: &DeclaredName, args: &[KeyHandle]) -> Result<(), LogFault>
        ensures ok { OnOk result
            (NumbersCome (shared_of self.old) (shared_of self.new)
            (argument_of (keys_named args.now) name.now ∷ [])) }
        ensures few { OnOk result (length self.new.names ≤ length self.old.names + 1) }
        ensures full { result ≡ Err Full → length self.old.names ≡ 2 ^ 32 }
        ensures err { OnErr result (Interns (shared_of self.old) (shared_of self.new)) }
    {
        match handle_of(name, args) {
            Some(handle) => self.add_name(&handle.key, handle.number),
            None => self.add_name(&name.name, NO_NUMBER),
        }
    }

    /// Appends the numbers of the keys that declared names represent, in the names' order.
    #[tactic(auto, using(crate::proofs::Widening::numbered_each))]
    fn add_arguments(&mut self, names: &[DeclaredName], args: &[KeyHandle]) -> Result<(), LogFault>
        ensures ok { OnOk result
            (NumbersCome (shared_of self.old) (shared_of self.new)
            (map (argument_of (keys_named args.now)) names.now)) }
        ensures few { OnOk result
            (length self.new.names ≤ length self.old.names + length names.now) }
        ensures full { result ≡ Err Full → 2 ^ 32 ≤ length self.old.names + length names.now }
        ensures err { OnErr result (Interns (shared_of self.old) (shared_of self.new)) }
    {
        for name in names {
            self.add_argument(name, args)?;
        }
        Ok(())
    }

    /// Appends the numbers of the set of keys that declared names represent, and finds the keys'
    /// indices in it. The numbers of ascending keys are appended in their final order.
    #[tactic(auto, using(crate::proofs::Widening::come_longer))]
    fn add_set(
        &mut self,
        places: &mut SetPlaces,
        names: &[DeclaredName],
        args: &[KeyHandle],
    ) -> Result<(), LogFault>
        requires { length names.now ≤ most_keys }
        ensures ok { OnOk result
            (NumbersCome (shared_of self.old) (shared_of self.new)
            (key_set (map (argument_of (keys_named args.now)) names.now))) }
        ensures places { OnOk result
            (HasPlaces (map (argument_of (keys_named args.now)) names.now) places.new) }
        ensures few { OnOk result
            (length self.new.names ≤ length self.old.names + length names.now) }
        ensures full { result ≡ Err Full → 2 ^ 32 ≤ length self.old.names + length names.now }
        ensures err { OnErr result (Interns (shared_of self.old) (shared_of self.new)) }
    {
        let start = self.ids.len();
        self.add_arguments(names, args)?;
        places.settle(self.names.table(), &self.ids.as_slice()[start..])?;
        if places.is_rising() {
            return Ok(());
        }
        self.ids.truncate(start);
        self.ids.extend_from_slice(places.numbers.as_slice())?;
        Ok(())
    }

    /// Appends the numbers of the set of keys that are written, and finds the keys' indices in it.
    /// If the same keys are read, whose numbers are the entries from `start` to the end, those
    /// entries are repeated.
    fn add_written_set(
        &mut self,
        start: usize,
        places: &mut CallPlaces,
        body: &BodyColumns,
        args: &[KeyHandle],
    ) -> Result<(), LogFault>
        requires writes { length body.now.writes.items ≤ most_keys }
        requires alike { body.now.same_sets ≡ true → body.now.reads.items ≡ body.now.writes.items }
        requires end { NumbersEnd (shared_of self.old) start
            (key_set (map (argument_of (keys_named args.now)) body.now.reads.items)) }
        requires reads { HasPlaces
            (map (argument_of (keys_named args.now)) body.now.reads.items) places.old.reads }
        ensures ok { OnOk result
            (NumbersCome (shared_of self.old) (shared_of self.new)
            (key_set (map (argument_of (keys_named args.now)) body.now.writes.items))) }
        ensures writes { OnOk result
            (HasPlaces (map (argument_of (keys_named args.now)) body.now.writes.items)
            (written body.now places.new)) }
        ensures reads { places.new.reads ≡ places.old.reads }
        ensures few { OnOk result
            (length self.new.names ≤ length self.old.names + length body.now.writes.items) }
        ensures err { OnErr result (Interns (shared_of self.old) (shared_of self.new)) }
        ensures full { result ≡ Err Full
            → 2 ^ 32 ≤ length self.old.names + length body.now.writes.items }
    {
        if body.same_sets {
            repeat_end(&mut self.ids, start)?;
            return Ok(());
        }
        self.add_set(&mut places.writes, body.writes.as_slice(), args)
    }

    /// Appends the numbers of a call's sets, and finds its keys' indices in them. Keys that a
    /// procedure reads and writes in the same order are looked up once. The three offsets are where
    /// the reads begin, where the writes begin and where the writes end.
    fn add_call_sets(
        &mut self,
        places: &mut CallPlaces,
        body: &BodyColumns,
        args: &[KeyHandle],
    ) -> Result<(u32, u32, u32), LogFault>
        requires reads { length body.now.reads.items ≤ most_keys }
        requires writes { length body.now.writes.items ≤ most_keys }
        requires alike { body.now.same_sets ≡ true → body.now.reads.items ≡ body.now.writes.items }
        ensures ok { IfOk result
            (λ r. SetsCome (shared_of self.old) (shared_of self.new) r.0 r.1 r.2
            (key_set (map (argument_of (keys_named args.now)) body.now.reads.items))
            (key_set (map (argument_of (keys_named args.now)) body.now.writes.items))) }
        ensures places { OnOk result (HasSets (keys_named args.now) body.now places.new) }
        ensures err { OnErr result (Interns (shared_of self.old) (shared_of self.new)) }
        ensures full { result ≡ Err Full → 2 ^ 32 ≤ length self.old.names
            + entries_in (shared_of self.old) + 2 * most_keys
            + length (key_set (map (argument_of (keys_named args.now)) body.now.reads.items))
            + length (key_set (map (argument_of (keys_named args.now)) body.now.writes.items)) }
    {
        let start = offset(self.ids.len())?;
        self.add_set(&mut places.reads, body.reads.as_slice(), args)?;
        let middle = offset(self.ids.len())?;
        self.add_written_set(start as usize, places, body, args)?;
        let end = offset(self.ids.len())?;
        Ok((start, middle, end))
    }

    /// Appends the parts of a call's instance, given the body and the indices of its values' names.
    /// Its parts are copied only into the columns, and names and statements that an earlier call
    /// appended aren't appended again.
    #[tactic(auto, using(crate::proofs::Measuring::called_terms, crate::proofs::Measuring::called_rows))]
    pub fn append_call(
        &mut self,
        edition: Edition,
        body: &BodyColumns,
        locals: &[u32],
        places: &mut CallPlaces,
        args: &[KeyHandle],
        values: &[Value],
    ) -> Result<Head, LogFault>
        requires reads { length body.now.reads.items ≤ most_keys }
        requires writes { length body.now.writes.items ≤ most_keys }
        requires alike { body.now.same_sets ≡ true → body.now.reads.items ≡ body.now.writes.items }
        requires ready { IsReady body.now locals.now }
        requires lets { length locals.now ≤ length body.now.rows.items }
        requires values { length values.now ≡ length locals.now }
        ensures ok { IfOk result
            (λ h. Appends (shared_of self.old) (shared_of self.new) h edition
            (parts_called (keys_named args.now) body.now locals.now values.now places.new)) }
        ensures places { OnOk result (HasSets (keys_named args.now) body.now places.new) }
        ensures err { OnErr result (Interns (shared_of self.old) (shared_of self.new)) }
        ensures full { result ≡ Err Full → 2 ^ 32 ≤ held_with (shared_of self.old)
            (parts_called (keys_named args.now) body.now locals.now values.now places.old) }
    {
        let (ids, reads_end, writes_end) = self.add_call_sets(places, body, args)?;
        let earlier = places.earlier;
        let falls = places.reads.is_falling();
        let moves = &moves_by(body, places);
        let others = body.others.as_slice();
        let found = names_at(&self.others, earlier.others, others);
        let (others_from, others_end) = add_once(&mut self.others, others, found)?;
        let (large_from, large_end) = add_large(&mut self.large, body.large.as_slice(), values)?;
        let (terms_from, terms_end) = add_terms(&mut self.terms, body, moves, values)?;
        let (rows_from, rows_end) = add_rows(
            &mut self.rows,
            body,
            moves,
            locals,
            values,
            earlier.rows(falls),
        )?;
        places.earlier.note(falls, others_from, rows_from);
        Ok(Head {
            edition,
            ids,
            reads: reads_end,
            writes: writes_end,
            others: others_from,
            others_end,
            large: large_from,
            large_end,
            terms: terms_from,
            terms_end,
            rows: rows_from,
            rows_end,
        })
    }
}
