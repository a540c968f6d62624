//! Laws of the core, over the definitions alone. No call uses them.

ghost use Rattle.std.specs.Prelude.{◌≡◌, ℕ, ◌+◌, ◌-◌, ◌%◌, ◌<◌, ◌≤◌, List, All, Contains, count_by};
ghost use Rattle.std.specs.Prelude.{Some, ◌↔◌, slice_get};
ghost use Rattle.bohm_types.specs.declared.cell.Cell.{Cell};
ghost use Rattle.bohm_types.specs.Txn.{Txn};
ghost use Rattle.bohm_txn.specs.declared.outcome.Outcome.{Outcome};
ghost use Rattle.bohm_txn.specs.Sure.{IsSure};
ghost use Rattle.bohm_place.specs.declared.access.Access.{Access};
ghost use Rattle.bohm_board.specs.declared.batch.Batch.{Batch};
ghost use Rattle.bohm_board.specs.declared.slot.Slot.{Slot};
ghost use Rattle.bohm_board.specs.Batches.{txn_at, reads_at, writes_at, wanted_at, IsIn, IsSlot};
ghost use Rattle.bohm_board.specs.Batches.{IsRightCell, IsRightOutcome};
ghost use Rattle.bohm_board.specs.Core.{State, empty_state, HasWanted, input};
ghost use Rattle.bohm_board.specs.Core.{cell_at, cell_over, outcome_over};
ghost use Rattle.bohm_board.specs.Events.{Event, IsRun, final_state, MayFill, MayFinish};
ghost use Rattle.bohm_board.specs.Events.{IsReached, is_win, is_finish};
ghost use Rattle.bohm_board.specs.Law.{IsLawful, Stays};
ghost use Rattle.bohm_board.specs.Views.{Holds, HasFilledAll, KnowsWanted};
ghost use Rattle.bohm_exec.specs.Asides.{IsPickedFrom};
ghost use Rattle.bohm_exec.specs.Shares.{share};

// ---- lists of events

/// Every list of events meets the board law.
pub fn reached_is_lawful()
    ensures { (b : Batch) (s : State) → IsReached b s → IsLawful b s }
{}

/// In a list of events each position has at most one claim that returns Mine, and at most one
/// finish.
pub fn claimed_and_finished_once()
    ensures claim { (b : Batch) (es : List Event) (t : ℕ) →
        IsRun b (empty_state b) es → count_by (is_win t) es ≤ 1 }
    ensures finish { (b : Batch) (es : List Event) (t : ℕ) →
        IsRun b (empty_state b) es → count_by (is_finish t) es ≤ 1 }
{}

/// Whatever events follow, presences, outcomes, and the values of slots that are `Present` don't
/// change.
pub fn filled_and_done_stay()
    ensures { (b : Batch) (s : State) (es : List Event) →
        IsReached b s → IsRun b s es → Stays s (final_state s es) }
{}

// ---- inputs

/// The input of a transaction has, for each key that the transaction declares, the cell that the
/// key's access takes.
pub fn input_is_by_access()
    ensures reads { (b : Batch) (s : State) (t j : ℕ) (txn : Txn) (k : List ℕ) (a : Access) →
        txn_at b t ≡ Some txn → slice_get txn.reads j ≡ Some k →
        slice_get (reads_at b t) j ≡ Some a → input b s t txn k ≡ cell_at b s k a }
    ensures writes { (b : Batch) (s : State) (t j : ℕ) (txn : Txn) (k : List ℕ) (a : Access) →
        txn_at b t ≡ Some txn → slice_get txn.writes j ≡ Some k →
        slice_get (writes_at b t) j ≡ Some a → input b s t txn k ≡ cell_at b s k a }
{}

/// In a state that meets the board law, a position whose wanted slots are filled has, over its
/// input, the right outcome and the right cells, and no others.
pub fn input_gives_what_is_right()
    ensures outcome { (b : Batch) (s : State) (t : ℕ) (o : Outcome) →
        IsLawful b s → IsIn b t → HasWanted b s t →
        (outcome_over b s t ≡ Some o) ↔ IsRightOutcome b t o }
    ensures cell { (b : Batch) (s : State) (x : Slot) (c : Cell) →
        IsLawful b s → IsSlot b x → HasWanted b s x.txn →
        (cell_over b s x ≡ Some c) ↔ IsRightCell b x c }
{}

/// The wanted sources of a sure transaction are those of its reads alone.
pub fn sure_wants_its_reads()
    ensures { (b : Batch) (t : ℕ) (txn : Txn) →
        txn_at b t ≡ Some txn → IsSure txn → wanted_at b t ≡ reads_at b t }
{}

/// If a pass knows the wanted slots of the position that it holds, the core allows it to fill one
/// of the position's slots with the right cell, and to finish the position with the right outcome.
pub fn right_steps_are_the_cores()
    ensures fill { (b : Batch) (s : State) (p : ℕ) (x : Slot) (c : Cell) →
        IsLawful b s → IsSlot b x → Holds b (s.views p) x.txn → ¬ Contains (s.views p).filled x →
        KnowsWanted b (s.views p) x.txn → IsRightCell b x c → MayFill b s p x c }
    ensures finish { (b : Batch) (s : State) (p t : ℕ) (o : Outcome) →
        IsLawful b s → IsIn b t → Holds b (s.views p) t → HasFilledAll b (s.views p) t →
        KnowsWanted b (s.views p) t → IsRightOutcome b t o → MayFinish b s p t o }
{}

// ---- shares

/// Each position of a batch is in the share of the worker whose number is its distance from the
/// first, modulo the number of workers; and a share has only positions of the batch.
pub fn shares_cover_the_batch()
    ensures covers { (first len workers t : ℕ) →
        first ≤ t → t < first + len → Contains (share first len ((t - first) % workers) workers) t }
    ensures inside { (first len worker workers : ℕ) →
        All (λ t. (first ≤ t) × (t < first + len)) (share first len worker workers) }
{}

/// Deferred positions of a share belong to the share.
pub fn set_aside_is_of_the_share()
    ensures { (xs ys : List ℕ) (t : ℕ) → IsPickedFrom xs ys → Contains xs t → Contains ys t }
{}
