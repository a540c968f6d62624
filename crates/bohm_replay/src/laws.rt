//! Laws over the definitions alone. No call uses them.

ghost use Rattle.std.specs.Prelude.{◌≡◌, ◌+◌, List, ℕ, length};
ghost use Rattle.bohm_txn.specs.Serial.{replies, state};
ghost use Rattle.bohm_entries.specs.Batches.{Defined, log_of};
ghost use Rattle.bohm_ledger.specs.Rules.{State, run};
ghost use Rattle.bohm_replay.specs.Entries.{AreSpelled, entry_rules, log_of_batches, numbered, replies_by};

/// What each key holds after a ledger's batches is what it holds after the serial run of the log of
/// instances of their entries.
pub fn ledger_is_serial_run()
    ensures { (s : State Defined) (bs : List (List ℕ))
        → (run entry_rules s bs).look
        ≡ state s.look (log_of_batches s.defs bs) (length (log_of_batches s.defs bs)) }
{}

/// The answers to a batch's transactions and calls are the lines of the replies of the serial run of
/// the log of their instances, numbered from the next number on.
pub fn answers_are_serial_replies()
    ensures { (s : State Defined) (es : List (List (List ℕ))) → AreSpelled s.defs es
        → replies_by s es ≡ numbered (s.top + 1) (replies s.look (log_of s.defs es)) }
{}
