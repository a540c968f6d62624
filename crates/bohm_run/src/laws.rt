//! Laws over the definitions alone, for the proofs of callers.

ghost use Rattle.std.specs.Prelude.{◌≡◌, ℕ, List, Option, Some};
ghost use Rattle.bohm_answer.specs.declared.fault.RunFault.{RunFault};
ghost use Rattle.bohm_run.specs.Agreeing.{AskTheSame, IsOfTheLog, WriteTheSame};
ghost use Rattle.bohm_run.specs.Headline.{Answers, Refuses};
ghost use Rattle.bohm_settings.specs.Given.{Given};

/// Two runs on the same bytes that keep as many timestamps readable and request the same one,
/// whatever their workers, partitions and batches: two answers are the same bytes, two refusals
/// that are no failed read, write or allocation are the same, and none occurs beside an answer.
pub fn one_answer()
    ensures answer { (one other : Given) (text : List ℕ) (u v w w' x x' : Option (List ℕ))
        → AskTheSame one other → Answers one (Some text) u w w'
        → Answers other (Some text) v x x' → WriteTheSame w w' x x' }
    ensures refusal { (one other : Given) (text : List ℕ) (u v w w' x x' : Option (List ℕ))
        (e f : RunFault) → AskTheSame one other → IsOfTheLog e → IsOfTheLog f
        → Refuses one (Some text) u w w' e → Refuses other (Some text) v x x' f → e ≡ f }
    ensures either { (one other : Given) (text : List ℕ) (u v w w' x x' : Option (List ℕ))
        (f : RunFault) → AskTheSame one other → IsOfTheLog f → Answers one (Some text) u w w'
        → ¬ Refuses other (Some text) v x x' f }
{}
