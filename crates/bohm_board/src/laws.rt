//! Laws that tie the steps on a board's words to the core. No call uses them.

ghost use Rattle.std.specs.Prelude.{◌≡◌, ◌≢◌, ℕ, Contains, ◌∷◌, [], ◌++◌, length};
ghost use Rattle.std.specs.Prelude.{slice_index};
ghost use Rattle.std.specs.List.{slice_set};
ghost use mathlib.Core.Option.{some};
ghost use lib.ListN.{get_elem?};
ghost use prog.Atomic.{either};
ghost use Rattle.std.specs.Prelude.{◌==◌};
ghost use Rattle.atomic_table.specs.Table.{State as Table};
ghost use Rattle.bohm_types.specs.declared.cell.Cell.{Cell};
ghost use Rattle.bohm_txn.specs.declared.outcome.Outcome.{Outcome};
ghost use Rattle.bohm_board.specs.declared.batch.Batch.{Batch};
ghost use Rattle.bohm_board.specs.declared.slot.Slot.{Slot};
ghost use Rattle.bohm_board.specs.declared.knowledge.View.{View};
ghost use Rattle.bohm_board.specs.Batches.{position, IsIn, IsSlot, IsRightCell, IsRightOutcome};
ghost use Rattle.bohm_board.specs.Core.{State};
ghost use Rattle.bohm_board.specs.Events.{LookPresence, LookValue, Status, Claim, FillValue};
ghost use Rattle.bohm_board.specs.Events.{FillPresence, Finish, Split, Join};
ghost use Rattle.bohm_board.specs.Law.{IsLawful};
ghost use Rattle.bohm_board.specs.Shown.{IsBefore, IsRuled, IsStep, Shows, table_after_step};
ghost use Rattle.bohm_board.specs.Shown.{presence_place, value_place};
ghost use Rattle.bohm_board.specs.Steps.{IsFillable};
ghost use Rattle.bohm_board.specs.Views.{Holds, HoldsNothing, HasFilledAll, HasStored, KnowsWanted};
ghost use Rattle.bohm_board.specs.Views.{after_status, after_claim, after_presence_look};
ghost use Rattle.bohm_board.specs.Views.{after_value_store, after_presence_store, after_finish};
ghost use Rattle.bohm_board.specs.Views.{after_split, after_join, spent_view};
ghost use Rattle.bohm_board.specs.Encoding.{status_of, claim_of_word, word_of, presence_at};
ghost use Rattle.bohm_board.specs.Encoding.{filled_word, value_at, present_at};

/// A table that meets the rule shows a state that meets the board law, so that no two passes hold
/// the same position.
pub fn ruled_is_lawful()
    ensures alone { (b : Batch) (s : State) (p q u : ℕ) → IsLawful b s → Holds b (s.views p) u
        → Holds b (s.views q) u → p ≡ q }
    ensures lawful { (b : Batch) (t : Table (Unit {0}) View) (rule : IsRuled b t)
        → Shows b t rule.state × IsLawful b rule.state }
{}

/// Each step on a word is the event of its name. On a status word a load is a `Status`, an exchange
/// of 0 for 1 a `Claim`, and the store of an outcome a `Finish`; on a slot's words loads are a
/// `LookPresence` and a `LookValue`, and stores a `FillValue` and a `FillPresence`.
pub fn steps_are_events()
    ensures status { (b : Batch) (t : Table (Unit {0}) View) (s : State) (p : ℕ) (v : View)
        (u n : ℕ) → IsBefore b t s p v → IsIn b u → n ≡ slice_index t.words (position b u)
        → ¬ Holds b v u
        → IsStep b s (Status p u (status_of n))
        (table_after_step t (position b u) n p (after_status v u (status_of n))) }
    ensures claim { (b : Batch) (t : Table (Unit {0}) View) (s : State) (p : ℕ) (v : View) (u n : ℕ)
        → IsBefore b t s p v → IsIn b u → n ≡ slice_index t.words (position b u) → HoldsNothing v
        → IsStep b s (Claim p u (claim_of_word n))
        (table_after_step t (position b u) (either (n == 0) 1 n) p
        (after_claim v u (status_of n))) }
    ensures finish { (b : Batch) (t : Table (Unit {0}) View) (s : State) (p : ℕ) (v : View) (u : ℕ)
        (o : Outcome) → IsBefore b t s p v → IsIn b u → Holds b v u → HasFilledAll b v u
        → KnowsWanted b v u → IsRightOutcome b u o
        → IsStep b s (Finish p u o)
        (table_after_step t (position b u) (word_of o) p (after_finish v u)) }
    ensures look_presence { (b : Batch) (t : Table (Unit {0}) View) (s : State) (p : ℕ) (v : View)
        (x : Slot) (n : ℕ) → IsBefore b t s p v → IsSlot b x
        → n ≡ slice_index t.words (presence_place b x)
        → IsStep b s (LookPresence p x (presence_at n))
        (table_after_step t (presence_place b x) n p (after_presence_look v x (presence_at n))) }
    ensures look_value { (b : Batch) (t : Table (Unit {0}) View) (s : State) (p : ℕ) (v : View)
        (x : Slot) (n : ℕ) → IsBefore b t s p v → IsSlot b x
        → n ≡ slice_index t.words (value_place b x) → Contains v.present x
        → IsStep b s (LookValue p x (value_at n)) (table_after_step t (value_place b x) n p v) }
    ensures fill_value { (b : Batch) (t : Table (Unit {0}) View) (s : State) (p : ℕ) (v : View)
        (x : Slot) (n : ℕ) → IsBefore b t s p v → IsSlot b x → IsFillable b v x
        → ¬ Contains v.stored x → IsRightCell b x (present_at n)
        → IsStep b s (FillValue p x (value_at n))
        (table_after_step t (value_place b x) n p (after_value_store v x)) }
    ensures fill_presence { (b : Batch) (t : Table (Unit {0}) View) (s : State) (p : ℕ) (v : View)
        (x : Slot) (c : Cell) → IsBefore b t s p v → IsSlot b x → IsFillable b v x → HasStored v x c
        → IsRightCell b x c
        → IsStep b s (FillPresence p x c)
        (table_after_step t (presence_place b x) (filled_word c) p (after_presence_store v x)) }
{}

/// A split adds a pass, and a join consumes one. Neither changes a word.
pub fn splits_and_joins_are_events()
    ensures split { (b : Batch) (t : Table (Unit {0}) View) (s : State) (p : ℕ) (v : View)
        → IsBefore b t s p v → HoldsNothing v
        → IsStep b s (Split p (length t.views))
        (record {
          words = t.words;
          homes = t.homes;
          views = slice_set t.views p v ++ after_split v ∷ [];
        }) }
    ensures join { (b : Batch) (t : Table (Unit {0}) View) (s : State) (p q : ℕ) (v w : View)
        → IsBefore b t s p v → get_elem? t.views q ≡ some w → q ≢ p → HoldsNothing v
        → HoldsNothing w
        → IsStep b s (Join p q)
        (record {
          words = t.words;
          homes = t.homes;
          views = slice_set
              (slice_set t.views p (after_join v w)) q spent_view;
        }) }
{}
