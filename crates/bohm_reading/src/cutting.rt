//! Where a text is cut into windows.

ghost use Rattle.std.specs.Prelude.{◌≤◌, ◌∷◌, ◌++◌, [], codes, IfSome};
ghost use Rattle.memchr.specs.Find.{OccursAt};
ghost use Rattle.bohm_reading.specs.Cuts.{IsCut};

use memchr::memmem;

/// How many bytes at the beginning aren't searched, since a window has at least the line `txn`.
pub(crate) const OPENING: usize = 3;

/// The line `txn` before which a text is cut.
#[derive(Clone, Copy)]
pub(crate) enum CutLine {
    First,
    Last,
}

/// The offset of the first or the last newline that the line `txn` follows.
fn find_line(text: &[u8], line: CutLine) -> Option<usize>
    ensures { IfSome result (OccursAt text.now (10 ∷ codes "txn" ++ 10 ∷ [])) }
{
    match line {
        CutLine::First => memmem::find(text, b"\ntxn\n"),
        CutLine::Last => memmem::rfind(text, b"\ntxn\n"),
    }
}

/// The offset of the first or the last line `txn` that follows the first `from` bytes and a
/// newline.
pub(crate) fn cut_at(text: &[u8], from: usize, line: CutLine) -> Option<usize>
    requires { 3 ≤ from }
    ensures { IfSome result (IsCut text.now) }
{
    if text.len() < from {
        return None;
    }
    let at = find_line(&text[from..], line)?;
    Some(from + at + 1)
}
