//! The statements of a procedure's text, by the numbers that replies have.

ghost use Rattle.std.specs.Prelude.{◌≡◌, ◌+◌, ◌<◌, ◌≤◌, ◌^◌, IfNone, IfSome, None, Some};
ghost use Rattle.std.specs.Prelude.{length, slice_get};
ghost use Rattle.bohm_text.specs.Cut.{whole_lines};
ghost use Rattle.bohm_procedures.specs.Statements.{IsStatement, statement_line, statement_text};

use crate::procedure::Procedure;
use bohm_text::split_line;

/// A statement of a procedure, as its text has it.
#[derive(Clone, Copy, Debug, PartialEq, Eq)]
pub struct StatementLine<'a> {
    /// The number of its line, counted from 1.
    pub line: usize,
    /// That line, without its newline.
    pub text: &'a [u8],
}

/// The whole line with this index, if another one follows it.
#[tactic(auto, using(crate::proofs::StatementLaws::line_at, crate::proofs::StatementLaws::lines_after, crate::proofs::StatementLaws::none_left, crate::proofs::StatementLaws::some_left))]
fn inner_line(text: &[u8], index: usize) -> Option<&[u8]>
    ensures some { IfSome result
        (λ line. slice_get (whole_lines text.now) index ≡ Some line.now) }
    ensures inner { IfSome result (λ line. index + 1 < length (whole_lines text.now)) }
    ensures none { IfNone result (length (whole_lines text.now) ≤ index + 1) }
{
    let mut rest = text;
    for _ in 0..index {
        let (_, others) = split_line(rest)?;
        rest = others;
    }
    let (line, others) = split_line(rest)?;
    match split_line(others) {
        Some(_) => Some(line),
        None => None,
    }
}

impl Procedure {
    /// The number of the text's lines before the statement with a number that isn't 0.
    #[tactic(auto, using(crate::proofs::StatementLaws::few_keys))]
    fn lines_before(&self, number: u32) -> usize
        ensures line { result + 1 ≡ statement_line self.now number }
        ensures small { result + 1 < 2 ^ 64 }
    {
        // For the proof alone: there are fewer keys than bytes, so no sum wraps.
        let _bytes = self.text().len();
        let number = number as usize;
        let before = self.keys() + number;
        if number <= self.values() {
            before
        } else {
            before + 2
        }
    }

    /// The statement with a number, as replies count them: from 1, with the binding of each value
    /// first, for which the value's line stands. Nothing if the procedure has no such statement.
    /// The time grows with the length of the text.
    pub fn statement(&self, number: u32) -> Option<StatementLine<'_>>
        ensures some { IfSome result (λ s. IsStatement self.now number s.line s.text.now) }
        ensures none { IfNone result (statement_text self.now number ≡ None) }
    {
        if number == 0 {
            return None;
        }
        let before = self.lines_before(number);
        match inner_line(self.text(), before) {
            Some(text) => Some(StatementLine {
                line: before + 1,
                text,
            }),
            None => None,
        }
    }
}
