//! Laws over the definitions alone, for the proofs of callers.

ghost use Rattle.std.specs.Prelude.{◌≡◌, ◌≤◌, ◌++◌, ◌⊎◌, ℕ, ℤ, List, [], drop, take};
ghost use Rattle.std.specs.FinMap.{entries};
ghost use Rattle.bohm_types.specs.Document.{Document};
ghost use Rattle.bohm_types.specs.Txn.{Txn};
ghost use Rattle.bohm_txn.specs.declared.outcome.Reply.{Reply};
ghost use Rattle.bohm_txn.specs.Meaning.{Look};
ghost use Rattle.bohm_txn.specs.Serial.{replies};
ghost use Rattle.bohm_txn.specs.Stores.{cell_in, store_after, store_of};
ghost use Rattle.bohm_text.specs.Print.{print_answer, print_store};
ghost use Rattle.bohm_machine.specs.Digests.{Collide, IsDigest};
ghost use Rattle.bohm_machine.specs.Segments.{IsRefused, IsTaken};
ghost use Rattle.bohm_machine.specs.declared.fault.SegmentFault.{SegmentFault};
ghost use Rattle.bohm_store.specs.Versions.{Timeline};
ghost use Rattle.bohm_machine.specs.Machines.{GoesOn, HasRun, floor_of, now_of, past_of, top_of};
ghost use Rattle.bohm_machine.specs.Texts.{Run, GoesThrough, log_of, texts_of};

use bohm_text::laws::one_text;

/// The joined answers of a log's segments, followed by the text of the store at the top, are the
/// answer of the whole log.
pub fn answers_joined()
    ensures { (store : List (List ℕ × ℤ)) (opened now : Timeline) (runs : List Run)
        (listed : List (List ℕ × ℤ)) → HasRun (cell_in (store_of store)) 0 [] opened
        → GoesThrough opened runs now → cell_in (store_of listed) ≡ now_of now
        → listed ≡ entries (store_of listed) → texts_of 1 runs ++ print_store listed
        ≡ print_answer (replies (cell_in (store_of store)) (log_of runs))
        (entries (store_after (store_of store) (log_of runs))) }
{}

/// Two machines that have the same top and the same store there continue alike: on the same
/// transactions they return the same replies, and have the same past from that timestamp on. So a
/// machine that is restored from the store at another one's top continues as the other one does.
pub fn restored_goes_on()
    ensures replies { (one other after1 after2 : Timeline) (txns : List Txn) (a b : List Reply)
        → top_of one ≡ top_of other → now_of one ≡ now_of other → GoesOn one after1 txns a
        → GoesOn other after2 txns b → a ≡ b }
    ensures past { (one other after1 after2 : Timeline) (txns : List Txn) (a b : List Reply)
        → top_of one ≡ top_of other → now_of one ≡ now_of other → GoesOn one after1 txns a
        → GoesOn other after2 txns b → (ts : ℕ) → top_of one ≤ ts → ts ≤ top_of after1
        → past_of after1 ts ≡ past_of after2 ts }
{}

/// A segment that stopped after `n` transactions is done once the rest of it is done: the replies,
/// joined, and the machine are those of the whole segment.
pub fn rest_completes()
    ensures { (was mid now : Timeline) (n : ℕ) (log : List Txn) (a b : List Reply)
        → floor_of was ≤ top_of was → GoesOn was mid (take n log) a
        → GoesOn mid now (drop n log) b → GoesOn was now log (a ++ b) }
{}

/// Two machines with the same top refuse a segment for the same reason.
pub fn one_refusal()
    ensures refusal { (one other : Timeline) (segment : Document) (e f : SegmentFault)
        → top_of one ≡ top_of other → IsRefused one segment e → IsRefused other segment f
        → e ≡ f }
    ensures either { (one other : Timeline) (segment : Document) (f : SegmentFault)
        → top_of one ≡ top_of other → IsTaken one segment → ¬ IsRefused other segment f }
{}

/// Stores with the same digest are equal, or their texts collide under SHA-256.
pub fn same_digest()
    ensures { (look other : Look) (d : List ℕ) → (first : IsDigest look d)
        → (second : IsDigest other d)
        → (look ≡ other) ⊎ Collide (print_store first.listed) (print_store second.listed) }
{
    one_text();
}

/// A store has one digest.
pub fn one_digest()
    ensures { (look : Look) (d e : List ℕ) → IsDigest look d → IsDigest look e → d ≡ e }
{}
