//! Laws of the text. No call uses them.

ghost use Rattle.std.specs.Prelude.{◌≡◌};
ghost use Rattle.bohm_types.specs.Document.{Document};
ghost use Rattle.bohm_types.specs.Sound.{IsDocument};
ghost use Rattle.bohm_text.specs.Print.{print_doc};
ghost use Rattle.bohm_text.specs.Tidy.{IsTidy};
ghost use Rattle.bohm_types.specs.Procedure.{Procedure};
ghost use Rattle.std.specs.Prelude.{ℕ, List, Some};
ghost use Rattle.bohm_text.specs.Print.{text_of};
ghost use Rattle.bohm_text.specs.Cut.{whole_lines};
ghost use Rattle.bohm_text.specs.Faults.{IsFirstBadLine, IsShort};
ghost use Rattle.bohm_text.specs.ProcedureText.{IsProcedure, print_procedure};
ghost use Rattle.bohm_text.specs.ProcedureText.{Nothing, Done, stages};

/// Two documents with one text are equal.
pub fn one_text()
    ensures { (d e : Document) → IsDocument d → IsDocument e
        → print_doc d ≡ print_doc e → d ≡ e }
{}

/// A text has one verdict: it is a document's, or a line is its first bad one, or it is short.
pub fn one_verdict()
    ensures line { (text : List ℕ) (n m : ℕ) → IsFirstBadLine (whole_lines text) n
        → IsFirstBadLine (whole_lines text) m → n ≡ m }
    ensures short { (text : List ℕ) (n : ℕ) → IsFirstBadLine (whole_lines text) n
        → ¬ IsShort text }
    ensures document { (d : Document) (n : ℕ) → IsDocument d
        → ¬ IsFirstBadLine (whole_lines (print_doc d)) n }
{}

/// A document's text ends with a newline. Spaces occur only between two words of a line: no two are
/// adjacent, and none begins or ends a line. The only bytes are newlines, spaces, lower-case
/// letters, digits and `_ $ + - < = >`.
pub fn tidy_text()
    ensures { (d : Document) → IsDocument d → IsTidy (print_doc d) }
{}

/// Two procedures with one text are equal.
pub fn one_procedure_text()
    ensures { (p q : Procedure) → IsProcedure p → IsProcedure q
        → print_procedure p ≡ print_procedure q → p ≡ q }
{}

/// A text whose lines form a procedure is the procedure's text.
pub fn procedure_is_read()
    ensures { (text : List ℕ) (p : Procedure)
        → stages Nothing (whole_lines text) ≡ Some (Done p)
        → text_of (whole_lines text) ≡ text → IsProcedure p × (print_procedure p ≡ text) }
{}
