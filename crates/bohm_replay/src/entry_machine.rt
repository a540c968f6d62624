//! The machine of a ledger's entries.

ghost use Rattle.std.specs.Prelude.{◌≡◌, ◌≢◌, ◌⊎◌, ◌∷◌, ◌++◌, ◌+◌, ◌-◌, ◌<◌, ◌≤◌, ◌^◌, [], Err, Ok, IfOk, IsSome, OnOk, length, option_map};
ghost use Rattle.bohm_types.specs.Txn.{Txn};
ghost use Rattle.bohm_txn.specs.Serial.{after};
ghost use Rattle.bohm_text.specs.Cut.{whole_lines};
ghost use Rattle.bohm_entries.specs.Batches.{called_of, define_of, definitions_with, entries_of, entry_by_kind, entry_in, id_in, named, transaction_of, txns_in, txns_with, weight, weight_of};
ghost use Rattle.bohm_entries.specs.Refusals.{Calls as IsCalling, HasForm, IsDefinition, IsEntry, IsTransaction, Refuses, Says};
ghost use Rattle.bohm_entries.specs.declared.refusal.EntryFault.TheVariants as fault_is;
ghost use Rattle.bohm_entries.specs.declared.refusal.Refusal.{Refusal as TheRefusal};
ghost use Rattle.bohm_ledger.specs.declared.error.MachineFault.TheVariants as machine_is;
ghost use Rattle.bohm_replay.specs.declared.past.NumberFault.TheVariants as number_is;
ghost use Rattle.bohm_replay.specs.Entries.{ArePrinted, IsLogOf, IsPrinted, IsRun, reply_line, request_with, state_of};

use crate::admitting::admit;
use crate::answer_text::AnswerText;
use crate::past::{NumberFault, Past};
use crate::reading::{read_call, read_define};
use crate::texts::{defined_text, note_request, reply_text};
use bohm_entries::{
    Definitions, EntryFault, FirstLine, Kind, count_transactions, has_no_definition, is_definition,
    read_first_line, read_transaction, split_entry,
};
use bohm_ledger::{Answer, Machine, MachineFault, Ran};
use bohm_log::DrawnSeed;
use bohm_procedures::Calls;
use bohm_text::{Words, print_doc, split_line};
use bohm_txn::{Checked, Replies};
use bohm_types::{Cell, Edition, Key, Value};
use std::alloc::Global;

/// A ledger's machine, whose batches are texts of entries.
#[derive(Drop)]
pub struct EntryMachine<P: Past + Drop> {
    alloc: Global,
    seed: DrawnSeed,
    edition: Edition,
    definitions: Definitions,
    past: P,
    /// The number of the last transaction.
    top: u64,
    /// The reply to the last call.
    replies: Replies,
}

fn fault_of(fault: EntryFault) -> MachineFault
    ensures refused { result ≡ machine_is.Unreadable → (r : TheRefusal) × (fault ≡ fault_is.Refused r) }
    ensures not_full { result ≢ machine_is.Full }
{
    match fault {
        EntryFault::Refused(_) => MachineFault::Unreadable,
        EntryFault::NoMemory => MachineFault::OutOfMemory,
    }
}

impl<P: Past + Drop> EntryMachine<P> {
    /// A machine that has run no entry. Keys are hashed with the seed.
    pub fn new(alloc: Global, seed: DrawnSeed, past: P) -> EntryMachine<P>
        ensures { result.past ≡ past }
    {
        EntryMachine {
            alloc,
            seed,
            edition: Edition::Two,
            definitions: Definitions::new(alloc),
            past,
            top: 0,
            replies: Replies::new(alloc),
        }
    }

    /// What runs its transactions.
    pub fn past(&self) -> &P
        ensures { result.now ≡ self.now.past }
    {
        &self.past
    }

    /// The text of a log of the transaction that an entry is, a call's written out. Nothing for a
    /// definition. The time is that of reading the entry.
    pub fn print_entry(&self, entry: &[u8]) -> Result<Option<Vec<u8>>, MachineFault>
        ensures log { IfOk result (λ it. ArePrinted (option_map (λ t. t.items) it)
            (txns_in (record { edition = self.now.edition; procedures = self.now.definitions }) (whole_lines entry.now))) }
    {
        let Some((line, lines)) = split_line(entry) else {
            return Err(MachineFault::Unreadable);
        };
        let Some(first) = read_first_line(line) else {
            return Err(MachineFault::Unreadable);
        };
        match first.kind {
            Kind::Define => Ok(None),
            Kind::Call => Ok(Some(self.print_call(first.rest)?)),
            Kind::Transaction => Ok(Some(self.print_transaction(lines)?)),
        }
    }

    /// The text of a log of the call of these words behind the kind and the id.
    fn print_call(&self, words: Words<'_>) -> Result<Vec<u8>, MachineFault>
        ensures log { IfOk result (λ text. IsPrinted text.items
            (txns_with self.now.definitions (called_of self.now.definitions words.entry))) }
    {
        let calls = self.call_log(words)?;
        match calls.print(self.alloc) {
            Ok(text) => Ok(text),
            Err(_) => Err(MachineFault::OutOfMemory),
        }
    }

    /// The text of a log of the transaction of which these are the lines behind the first one.
    fn print_transaction(&self, lines: &[u8]) -> Result<Vec<u8>, MachineFault>
        ensures log { IfOk result (λ text. IsPrinted text.items
            (txns_with self.now.definitions (transaction_of self.now.edition (whole_lines lines.now)))) }
    {
        let log = match read_transaction(self.alloc, self.seed, self.edition, lines) {
            Ok(log) => log,
            Err(fault) => return Err(fault_of(fault)),
        };
        match print_doc(self.alloc, log.doc()) {
            Ok(text) => Ok(text),
            Err(_) => Err(MachineFault::OutOfMemory),
        }
    }

    /// Whether the text is one entry that is to be run next. Else the first refusal that applies is
    /// answered. The time is that of reading it.
    pub fn admit(&self, entry: &[u8]) -> Result<(), EntryFault>
        ensures one { OnOk result (entries_of entry.now ≡ whole_lines entry.now ∷ []) }
        ensures spelled { OnOk result (IsSome (entry_in (record { edition = self.now.edition; procedures = self.now.definitions })
            (whole_lines entry.now))) }
        ensures taken { OnOk result (IsEntry (record { edition = self.now.edition; procedures = self.now.definitions }) entry.now) }
        ensures refused { (r : TheRefusal) → result ≡ Err (fault_is.Refused r)
            → Refuses (record { edition = self.now.edition; procedures = self.now.definitions }) entry.now r }
        ensures no_entry { (r : TheRefusal) → result ≡ Err (fault_is.Refused r)
            → ¬ IsEntry (record { edition = self.now.edition; procedures = self.now.definitions }) entry.now }
    {
        admit(
            self.alloc,
            self.seed,
            self.edition,
            &self.definitions,
            entry,
        )
    }

    /// What a key held after the transaction with this number, from the last checkpoint on. The
    /// time is that of one look-up.
    pub fn value_at(&self, key: &Key, number: u64) -> Result<Cell, NumberFault>
        ensures future { result ≡ Err number_is.Future → self.now.top < number }
        ensures trimmed { result ≡ Err number_is.Trimmed → number + P.since self.now.past < self.now.top }
        ensures within { number ≤ self.now.top → self.now.top ≤ number + P.since self.now.past
            → result ≡ Ok (P.past self.now.past ((number + P.since self.now.past) - self.now.top) key.now) }
        ensures last { number ≡ self.now.top → result ≡ Ok (P.look self.now.past key.now) }
        ensures first { number + P.since self.now.past ≡ self.now.top → result ≡ Ok (P.saved self.now.past key.now) }
    {
        if number > self.top {
            return Err(NumberFault::Future);
        }
        let back = self.top - number;
        let since = self.past.ran_since();
        if back > since {
            return Err(NumberFault::Trimmed);
        }
        match self.past.value_after(since - back, key) {
            Some(cell) => Ok(cell),
            None => Err(NumberFault::Trimmed),
        }
    }

    /// Runs the only transaction of a log. Returns its reply.
    fn transact(&mut self, log: &Checked) -> Result<Vec<u8>, MachineFault>
        requires { length log.now.log ≡ 1 }
        ensures text { IfOk result (λ text. (t : Txn) → log.now.log ≡ t ∷ []
            → text.items ≡ reply_line (self.old.top + 1) (P.look self.old.past) t) }
        ensures look { OnOk result ((t : Txn) → log.now.log ≡ t ∷ []
            → P.look self.new.past ≡ after (P.look self.old.past) t) }
        ensures saved { OnOk result (P.saved self.new.past ≡ P.saved self.old.past) }
        ensures top { OnOk result (self.new.top ≡ self.old.top + 1) }
        ensures definitions { self.new.definitions ≡ self.old.definitions }
        ensures edition { self.new.edition ≡ self.old.edition }
        ensures room { OnOk result (P.room self.old.past ≤ P.room self.new.past + 1) }
        ensures unreadable { result ≡ Err machine_is.Unreadable → 0 < length log.now.store }
        ensures full { result ≡ Err machine_is.Full → (P.room self.old.past ≡ 0) ⊎ (2 ^ 64 ≤ self.old.top + 1) }
    {
        if self.top == u64::MAX {
            return Err(MachineFault::Full);
        }
        let number = self.top + 1;
        let replies = self.past.run_one(log)?;
        let Ok(text) = reply_text(self.alloc, number, &replies) else {
            return Err(MachineFault::OutOfMemory);
        };
        self.top = number;
        Ok(text)
    }

    /// Takes a definition in, of which these are the words behind the kind and the id, and the
    /// lines behind the first one.
    fn define(&mut self, words: Words<'_>, lines: &[u8]) -> Result<Vec<u8>, MachineFault>
        ensures ran { IfOk result (λ text. IsRun
            (state_of self.old.edition self.old.definitions (P.look self.old.past) self.old.top)
            (define_of words.entry (whole_lines lines.now)) 0
            (state_of self.new.edition self.new.definitions (P.look self.new.past) self.new.top) text.items) }
        ensures past { self.new.past ≡ self.old.past }
        ensures edition { self.new.edition ≡ self.old.edition }
        ensures top { self.new.top ≡ self.old.top }
        ensures definitions { OnOk result (self.new.definitions
            ≡ definitions_with self.old.definitions (define_of words.entry (whole_lines lines.now))) }
        ensures unreadable { result ≡ Err machine_is.Unreadable → IsSome (named words.entry)
            → ¬ IsDefinition self.old.edition lines.now }
        ensures not_full { result ≢ Err machine_is.Full }
    {
        let (name, procedure) = match read_define(
            self.alloc,
            self.seed,
            self.edition,
            words,
            lines,
        ) {
            Ok(definition) => definition,
            Err(fault) => return Err(fault_of(fault)),
        };
        let Ok(text) = defined_text(self.alloc, &name) else {
            return Err(MachineFault::OutOfMemory);
        };
        let Ok(()) = self.definitions.define(name, procedure) else {
            return Err(MachineFault::OutOfMemory);
        };
        Ok(text)
    }

    /// The log of the call of these words behind the kind and the id.
    fn call_log(&self, words: Words<'_>) -> Result<Calls, MachineFault>
        ensures log { IfOk result (λ calls. IsLogOf self.now.definitions words.entry calls.log) }
        ensures store { IfOk result (λ calls. calls.store ≡ []) }
        ensures unreadable { result ≡ Err machine_is.Unreadable → ¬ IsCalling self.now.definitions words.entry }
        ensures not_full { result ≢ Err machine_is.Full }
    {
        let call = match read_call(self.alloc, &self.definitions, words) {
            Ok(call) => call,
            Err(fault) => return Err(fault_of(fault)),
        };
        // All procedures of a ledger have its edition. The list takes the procedure whatever it is.
        let Ok(mut calls) = self.past.calls(call.procedure.edition()) else {
            return Err(MachineFault::OutOfMemory);
        };
        let keys = call.arguments.keys.as_slice();
        let values = call.arguments.values.as_slice();
        let Ok(()) = calls.push(call.procedure, keys, values) else {
            return Err(MachineFault::OutOfMemory);
        };
        Ok(calls)
    }

    /// Runs a call, of which these are the words behind the kind and the id.
    fn call(&mut self, words: Words<'_>) -> Result<Vec<u8>, MachineFault>
        ensures ran { IfOk result (λ text. IsRun
            (state_of self.old.edition self.old.definitions (P.look self.old.past) self.old.top)
            (called_of self.old.definitions words.entry) 1
            (state_of self.new.edition self.new.definitions (P.look self.new.past) self.new.top) text.items) }
        ensures saved { OnOk result (P.saved self.new.past ≡ P.saved self.old.past) }
        ensures unreadable { result ≡ Err machine_is.Unreadable → ¬ IsCalling self.old.definitions words.entry }
        ensures room { OnOk result (P.room self.old.past ≤ P.room self.new.past + 1) }
        ensures full { result ≡ Err machine_is.Full → (P.room self.old.past ≡ 0) ⊎ (2 ^ 64 ≤ self.old.top + 1) }
    {
        if self.top == u64::MAX {
            return Err(MachineFault::Full);
        }
        let number = self.top + 1;
        let call = match read_call(self.alloc, &self.definitions, words) {
            Ok(call) => call,
            Err(fault) => return Err(fault_of(fault)),
        };
        let keys = call.arguments.keys.as_slice();
        let values = call.arguments.values.as_slice();
        self.past
            .run_call(call.procedure, keys, values, &mut self.replies)?;
        let Ok(text) = reply_text(self.alloc, number, &self.replies) else {
            return Err(MachineFault::OutOfMemory);
        };
        self.top = number;
        Ok(text)
    }

    /// Runs a transaction, of which these are the lines behind the first one.
    fn transaction(&mut self, lines: &[u8]) -> Result<Vec<u8>, MachineFault>
        ensures ran { IfOk result (λ text. IsRun
            (state_of self.old.edition self.old.definitions (P.look self.old.past) self.old.top)
            (transaction_of self.old.edition (whole_lines lines.now)) 1
            (state_of self.new.edition self.new.definitions (P.look self.new.past) self.new.top) text.items) }
        ensures saved { OnOk result (P.saved self.new.past ≡ P.saved self.old.past) }
        ensures unreadable { result ≡ Err machine_is.Unreadable → ¬ IsTransaction self.old.edition lines.now }
        ensures room { OnOk result (P.room self.old.past ≤ P.room self.new.past + 1) }
        ensures full { result ≡ Err machine_is.Full → (P.room self.old.past ≡ 0) ⊎ (2 ^ 64 ≤ self.old.top + 1) }
    {
        match read_transaction(self.alloc, self.seed, self.edition, lines) {
            Ok(log) => self.transact(&log),
            Err(fault) => Err(fault_of(fault)),
        }
    }

    /// Runs the entry of these lines, of which the first is read, as its kind asks.
    fn run_by_kind(&mut self, first: FirstLine<'_>, lines: &[u8]) -> Result<Vec<u8>, MachineFault>
        ensures ran { IfOk result (λ text. IsRun
            (state_of self.old.edition self.old.definitions (P.look self.old.past) self.old.top)
            (entry_by_kind (record { edition = self.old.edition; procedures = self.old.definitions }) first.entry.kind first.entry.rest (whole_lines lines.now))
            (weight_of first.entry.kind)
            (state_of self.new.edition self.new.definitions (P.look self.new.past) self.new.top) text.items) }
        ensures saved { OnOk result (P.saved self.new.past ≡ P.saved self.old.past) }
        ensures unreadable { result ≡ Err machine_is.Unreadable → HasForm first.entry.kind first.entry.rest lines.now
            → ¬ Says (record { edition = self.old.edition; procedures = self.old.definitions }) first.entry.kind first.entry.rest lines.now }
        ensures room { OnOk result (P.room self.old.past ≤ P.room self.new.past + weight_of first.entry.kind) }
        ensures full { result ≡ Err machine_is.Full → (weight_of first.entry.kind ≡ 1)
            × ((P.room self.old.past ≡ 0) ⊎ (2 ^ 64 ≤ self.old.top + 1)) }
    {
        match first.kind {
            Kind::Define => self.define(first.rest, lines),
            Kind::Call => self.call(first.rest),
            Kind::Transaction => self.transaction(lines),
        }
    }

    /// Runs an entry, and adds its answer to those of the ids.
    fn run_entry(
        &mut self,
        entry: &[u8],
        answers: &mut Vec<Answer>,
    ) -> Result<AnswerText, MachineFault>
        ensures ran { IfOk result (λ text. IsRun
            (state_of self.old.edition self.old.definitions (P.look self.old.past) self.old.top)
            (entry_in (record { edition = self.old.edition; procedures = self.old.definitions }) (whole_lines entry.now))
            (weight (whole_lines entry.now))
            (state_of self.new.edition self.new.definitions (P.look self.new.past) self.new.top) text) }
        ensures answers { IfOk result (λ text. answers.new.items
            ≡ answers.old.items ++ request_with (id_in (whole_lines entry.now)) text) }
        ensures saved { OnOk result (P.saved self.new.past ≡ P.saved self.old.past) }
        ensures unreadable { result ≡ Err machine_is.Unreadable
            → ¬ IsEntry (record { edition = self.old.edition; procedures = self.old.definitions }) entry.now }
        ensures room { OnOk result (P.room self.old.past ≤ P.room self.new.past + weight (whole_lines entry.now)) }
        ensures full { result ≡ Err machine_is.Full → (weight (whole_lines entry.now) ≡ 1)
            × ((P.room self.old.past ≡ 0) ⊎ (2 ^ 64 ≤ self.old.top + 1)) }
    {
        let Some((line, lines)) = split_line(entry) else {
            return Err(MachineFault::Unreadable);
        };
        let Some(first) = read_first_line(line) else {
            return Err(MachineFault::Unreadable);
        };
        let id = first.id;
        let text = self.run_by_kind(first, lines)?;
        let Ok(()) = note_request(self.alloc, answers, id, text.as_slice()) else {
            return Err(MachineFault::OutOfMemory);
        };
        Ok(AnswerText::new(text))
    }

    /// Takes an entry in, if it is a definition.
    fn pass_entry(&mut self, entry: &[u8]) -> Result<(), MachineFault>
        ensures definitions { OnOk result (self.new.definitions ≡ definitions_with self.old.definitions
            (entry_in (record { edition = self.old.edition; procedures = self.old.definitions }) (whole_lines entry.now))) }
        ensures past { self.new.past ≡ self.old.past }
        ensures edition { self.new.edition ≡ self.old.edition }
        ensures top { self.new.top ≡ self.old.top }
        ensures unreadable { result ≡ Err machine_is.Unreadable
            → ¬ IsEntry (record { edition = self.old.edition; procedures = self.old.definitions }) entry.now }
        ensures not_full { result ≢ Err machine_is.Full }
    {
        if !is_definition(entry) {
            return Ok(());
        }
        let Some((line, lines)) = split_line(entry) else {
            return Err(MachineFault::Unreadable);
        };
        let Some(first) = read_first_line(line) else {
            return Err(MachineFault::Unreadable);
        };
        let Kind::Define = first.kind else {
            return Err(MachineFault::Unreadable);
        };
        let _ = self.define(first.rest, lines)?;
        Ok(())
    }
}

impl<P: Past + Drop> Machine for EntryMachine<P> {
    ghost use Rattle.std.specs.Prelude.{List, ℕ};
    ghost use Rattle.bohm_entries.specs.Batches.{Defined, entries_of};
    ghost use Rattle.bohm_replay.specs.Entries.{IsBatch, answers_by, entry_rules, room_after, state_of};
    ghost use Rattle.bohm_replay.specs.Ruling.{are_rules};

    type Reply = AnswerText;

    ghost Defs = { Defined };

    ghost rules = { entry_rules };

    ghost replies = { λ s text. answers_by s (entries_of text) };

    ghost state = { λ m. state_of m.edition m.definitions (P.look m.past) m.top };

    ghost saved = { λ m. P.saved m.past };

    ghost reads = { λ d text. IsBatch d text };

    ghost room = { λ m. room_after (P.since m.past) (P.room m.past) };

    fn top(&self) -> u64 {
        self.top
    }

    fn size(&self, batch: &[u8]) -> usize {
        count_transactions(batch)
    }

    fn is_plain(&self, batch: &[u8]) -> bool {
        has_no_definition(batch)
    }

    fn start(
        &mut self,
        edition: Edition,
        store: &[(Key, Value)],
        top: u64,
    ) -> Result<(), MachineFault> {
        self.past.start(store)?;
        self.edition = edition;
        self.definitions = Definitions::new(self.alloc);
        self.top = top;
        Ok(())
    }

    fn pass(&mut self, batch: &[u8]) -> Result<(), MachineFault> {
        let mut rest = batch;
        'entries: while let Some((entry, others)) = split_entry(rest) {
            self.pass_entry(entry)?;
            rest = others;
        }
        if rest.is_empty() {
            Ok(())
        } else {
            Err(MachineFault::Unreadable)
        }
    }

    fn run(&mut self, alloc: Global, batch: &[u8]) -> Result<Ran<AnswerText>, MachineFault> {
        self.past.renew()?;
        let mut replies = Vec::new(alloc);
        let mut answers = Vec::new(alloc);
        let mut rest = batch;
        'entries: while let Some((entry, others)) = split_entry(rest) {
            let reply = self.run_entry(entry, &mut answers)?;
            replies.push(reply)?;
            rest = others;
        }
        if rest.is_empty() {
            Ok(Ran { replies, answers })
        } else {
            Err(MachineFault::Unreadable)
        }
    }

    fn sort_changed(&mut self) {
        self.past.sort_changed();
    }

    fn changed(&self) -> &[Key] {
        self.past.changed()
    }

    fn value(&self, key: &Key) -> Cell {
        self.past.value(key)
    }

    fn saved_value(&self, key: &Key) -> Cell {
        self.past.saved_value(key)
    }

    fn note_checkpoint(&mut self) {
        self.past.note_checkpoint();
    }

    ghost keeps_rules = { are_rules };
}
