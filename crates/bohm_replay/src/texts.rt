//! The texts of answers.

ghost use Rattle.std.specs.Prelude.{◌≡◌, ◌∷◌, ◌++◌, ◌+◌, ◌≤◌, ◌^◌, [], IfOk, OnOk, codes, length, option_map};
ghost use Rattle.bohm_txn.specs.declared.outcome.Reply.{Reply as TheReply};
ghost use Rattle.bohm_text.specs.Print.{line_text, reply_words};
ghost use Rattle.bohm_replay.specs.Entries.{request_with};

use bohm_ledger::Answer;
use bohm_text::put_replies;
use bohm_txn::Replies;
use bohm_types::{Key, NoMemory};
use std::alloc::Global;

/// The answer to a definition of a name.
pub(crate) fn defined_text(alloc: Global, name: &Key) -> Result<Vec<u8>, NoMemory>
    ensures { IfOk result (λ text. text.items ≡ codes "defined " ++ name.now) }
{
    let mut text = Vec::new(alloc);
    text.extend_from_slice(b"defined ")?;
    text.extend_from_slice(name.text().as_slice())?;
    Ok(text)
}

/// The line of the only reply, to the transaction with this number, without its newline.
pub(crate) fn reply_text(alloc: Global, number: u64, replies: &Replies) -> Result<Vec<u8>, NoMemory>
    requires { number + length replies.now ≤ 2 ^ 64 }
    ensures { IfOk result (λ text. (r : TheReply) → replies.now ≡ r ∷ []
        → text.items ≡ line_text (reply_words number r)) }
{
    let mut text = Vec::new(alloc);
    put_replies(&mut text, number, replies)?;
    text.pop();
    Ok(text)
}

/// Adds the answer to an entry, if the entry carries an id.
pub(crate) fn note_request(
    alloc: Global,
    answers: &mut Vec<Answer>,
    id: Option<&[u8]>,
    text: &[u8],
) -> Result<(), NoMemory>
    ensures { OnOk result (answers.new.items
        ≡ answers.old.items ++ request_with (option_map (λ i. i.now) id.entry) text.now) }
{
    if let Some(id) = id {
        let id = Vec::from_slice(alloc, id)?;
        let text = Vec::from_slice(alloc, text)?;
        answers.push(Answer::new(id, text))?;
    }
    Ok(())
}
