//! Conditions, as two sums with a comparison between them.

ghost use Rattle.std.specs.Prelude.{◌<◌, length};
ghost use Rattle.bohm_text.specs.Reading.{cond_of};
ghost use Rattle.bohm_text.specs.Taking.{TakesCond};

use crate::fault::ReadFault;
use crate::stops::Stop;
use crate::sums::{read_last_sum, read_sum};
use crate::words::Words;
use bohm_log::{Draft, HashSeed};
use bohm_types::Cmp;

/// Adds both sums of the condition that the words spell, and returns its comparison.
#[tactic(auto, unfolding(crate::specs::Reading::cond_of))]
pub fn read_cond(draft: &mut Draft<HashSeed>, words: &mut Words) -> Result<Cmp, ReadFault>
    requires { length draft.old.done < 2 }
    ensures { TakesCond result (cond_of words.old) draft.old draft.new }
{
    let Stop::Compared(cmp) = read_sum(draft, words)? else {
        return Err(ReadFault::Bad);
    };
    draft.next_sum()?;
    read_last_sum(draft, words)?;
    Ok(cmp)
}
