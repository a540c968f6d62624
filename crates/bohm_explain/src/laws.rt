//! Laws over the definitions alone. No call uses them.

ghost use Rattle.std.specs.Prelude.{◌≡◌, ◌+◌, ◌<◌, ◌≤◌, ◌↔◌, ℕ, List, [], ◌∷◌, All, Contains, length, map};
ghost use Rattle.std.specs.Prelude.{slice_index};
ghost use Rattle.std.specs.List.{AllByRecursion, sum};
ghost use Rattle.bohm_types.specs.Procedure.{Procedure};
ghost use Rattle.bohm_types.specs.Txn.{Txn};
ghost use Rattle.bohm_explain.specs.declared.arrow.Arrow.{Arrow};
ghost use Rattle.bohm_explain.specs.declared.heat.Heat.{Heat};
ghost use Rattle.bohm_place.specs.Chains.{greatest};
ghost use Rattle.bohm_place.specs.Cuttings.{Cutting};
ghost use Rattle.bohm_place.specs.Plans.{IsRightPlan};
ghost use Rattle.bohm_procedures.specs.Accepting.{own};
ghost use Rattle.bohm_settings.specs.Given.{Given};
ghost use Rattle.bohm_read_ahead.specs.Sharing.{sharing_of};
ghost use Rattle.bohm_read_ahead.specs.declared.checked_chunk.Sharing.{Sharing};
ghost use Rattle.bohm_board.specs.declared.batch.Batch.{Batch};
ghost use Rattle.bohm_board.specs.Batches.{IsIn, Wants, plan_of, position, txns_of};
ghost use Rattle.bohm_explain.specs.Chains.{EndsAt, IsChainOf, IsGreatest};
ghost use Rattle.bohm_explain.specs.Chains.{IsWantedBy, LeadsOn, weight_of};
ghost use Rattle.bohm_explain.specs.Costs.{IsCallOf};
ghost use Rattle.bohm_explain.specs.Figures.{depths};
ghost use Rattle.bohm_explain.specs.Heaviest.{AreRising, greatest_wanted, greatest_wanting};
ghost use Rattle.bohm_explain.specs.Heaviest.{heaviest_from, heaviest_to};
ghost use Rattle.bohm_explain.specs.Parts.{parts_in};
ghost use Rattle.bohm_explain.specs.Printed.{IsLongestChain, heights};
ghost use Rattle.bohm_explain.specs.Ranking.{IsRanking};
ghost use Rattle.bohm_explain.specs.Wanted.{arrows};
ghost use Rattle.bohm_explain.specs.Weighing.{weights};

/// Each transaction wants only versions of earlier ones, and the wanted versions are in log order.
pub fn arrows_rise()
    ensures { (txns : List Txn) → AreRising 0 (arrows txns) }
{}

/// The longest chain that ends at a transaction has one more transaction than the longest that ends
/// at a transaction whose version it wants, or just one if it wants none.
pub fn depth_of_each()
    ensures { (txns : List Txn) (p : ℕ) → p < length txns → slice_index (depths txns) p
        ≡ 1 + greatest_wanted (slice_index (depths txns)) (arrows txns) p }
{}

/// The weight of the heaviest chain that ends at a position is the position's weight, plus that of
/// the heaviest chain that ends at a position whose version it wants, if it wants any.
pub fn chain_to_each()
    ensures { (weights : List ℕ) (wanted : List Arrow) (p : ℕ) → AreRising 0 wanted
        → p < length weights → slice_index (heaviest_to weights wanted) p
        ≡ slice_index weights p + greatest_wanted (slice_index (heaviest_to weights wanted)) wanted p }
{}

/// The weight of the heaviest chain that begins at a position is the position's weight, plus that
/// of the heaviest chain that begins at a position that wants its version, if any does.
pub fn chain_from_each()
    ensures { (weights : List ℕ) (wanted : List Arrow) (p : ℕ) → AreRising 0 wanted
        → p < length weights → slice_index (heaviest_from weights wanted) p
        ≡ slice_index weights p + greatest_wanting (slice_index (heaviest_from weights wanted)) wanted p }
{}

/// What the figures say about a part's chains. A chain is a list of its transactions, each of
/// which but the first wants a version of the one before. A depth is the length of a longest chain,
/// of all or of those that end at a transaction; an arrow's chain is a longest one through the
/// arrow; and the heaviest weight is that of a heaviest chain.
pub fn chains_of_a_part()
    ensures depth { (txns : List Txn) → 0 < length txns
        → IsGreatest length (IsChainOf txns) (greatest (depths txns)) }
    ensures depth_at { (txns : List Txn) (p : ℕ) → p < length txns
        → IsGreatest length (λ c. IsChainOf txns c × EndsAt p c) (slice_index (depths txns) p) }
    ensures through { (txns : List Txn) (a : Arrow) → Contains (arrows txns) a
        → IsGreatest length (λ c. IsChainOf txns c × LeadsOn a.from a.to c)
        (slice_index (depths txns) a.from + slice_index (heights txns) a.to) }
    ensures heaviest { (txns : List Txn) → 0 < length txns
        → IsGreatest (weight_of (weights txns)) (IsChainOf txns)
        (greatest (heaviest_to (weights txns) (arrows txns))) }
{}

/// The length of the listed chain of a log is the depth of the deepest part.
pub fn longest_is_deepest()
    ensures { (c : Cutting) (ways : List Sharing) (places : List ℕ) → All (λ n. 1 ≤ n) c.sizes
        → sum c.sizes ≡ length c.log → IsLongestChain c places
        → length places ≡ greatest (map (λ p. p.figures.depth) (parts_in c ways)) }
{}

/// There is an arrow from one transaction to another exactly if, on the board of a run, the second
/// wants a version that the first produces.
pub fn arrows_are_wanted()
    ensures { (b : Batch) (t u : ℕ) → IsRightPlan (txns_of b) (plan_of b) → IsIn b t → IsIn b u
        → Wants b t u ↔ IsWantedBy (arrows (txns_of b)) (position b u) (position b t) }
{}

/// Heats have only one ranking, in whatever order they are given.
pub fn one_ranking()
    ensures { (heats ranked other : List Heat)
        → IsRanking heats ranked → IsRanking heats other → ranked ≡ other }
{}

/// A call of a procedure has as many statements as the procedure's own instance, whose cost is
/// printed, and declares no more keys: fewer where two of its arguments are one key. A list of calls
/// is shared if the own instance is.
pub fn costs_of_calls()
    ensures statements { (p : Procedure) (t : Txn) → IsCallOf p t
        → length t.body ≡ length (own p).body }
    ensures reads { (p : Procedure) (t : Txn) → IsCallOf p t → length t.reads ≤ length (own p).reads }
    ensures writes { (p : Procedure) (t : Txn) → IsCallOf p t
        → length t.writes ≤ length (own p).writes }
    ensures sharing { (given : Given) (p : Procedure) (calls : List Txn) → 0 < length calls
        → AllByRecursion (IsCallOf p) calls
        → sharing_of given calls ≡ sharing_of given (own p ∷ []) }
{}
