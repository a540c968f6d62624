//! Lines that answer requests.

ghost use Rattle.std.specs.Prelude.{◌≡◌, ◌∷◌, ◌++◌, [], IfOk, OnOk, option_map};
ghost use Rattle.bohm_request_text.specs.Lines.{answer_line, refusal_words};

use bohm_answer::{RunFault, print_fault};
use bohm_entries::Refusal;
use bohm_text::TextFault;
use bohm_types::NoMemory;
use std::alloc::Global;

fn line_of(alloc: Global, words: &[u8]) -> Result<Vec<u8>, NoMemory>
    ensures { IfOk result (λ line. line.items ≡ words.now ++ 10 ∷ []) }
{
    let mut line = Vec::from_slice(alloc, words)?;
    line.push(b'\n')?;
    Ok(line)
}

/// The line that says why an entry is refused, with its newline.
pub fn refusal_line(alloc: Global, refusal: Refusal) -> Result<Vec<u8>, NoMemory>
    ensures { IfOk result (λ line. line.items ≡ refusal_words refusal ++ 10 ∷ []) }
{
    match refusal {
        Refusal::Line(line) => print_fault(alloc, &RunFault::Text(TextFault::Line(line))),
        Refusal::Short => print_fault(alloc, &RunFault::Text(TextFault::Short)),
        Refusal::Check(fault) => print_fault(alloc, &RunFault::Check(fault)),
        Refusal::Shape => line_of(alloc, b"refused: shape"),
        Refusal::Procedure => line_of(alloc, b"refused: procedure"),
        Refusal::Arguments => line_of(alloc, b"refused: arguments"),
        Refusal::Value => line_of(alloc, b"refused: value"),
        Refusal::Key => line_of(alloc, b"refused: key"),
        Refusal::Id => line_of(alloc, b"refused: id"),
        Refusal::Large => line_of(alloc, b"refused: large"),
    }
}

/// Appends the line that answers an entry, behind the id that the entry carried. After an `Err` a
/// part of it may be there.
pub fn put_answer(out: &mut Vec<u8>, id: Option<&[u8]>, text: &[u8]) -> Result<(), NoMemory>
    ensures { OnOk result (out.new.items ≡ out.old.items ++ answer_line (option_map (λ i. i.now) id.entry) text.now) }
{
    if let Some(id) = id {
        out.extend_from_slice(b"#")?;
        out.extend_from_slice(id)?;
        out.extend_from_slice(b" ")?;
    }
    out.extend_from_slice(text)?;
    out.push(b'\n')?;
    Ok(())
}
