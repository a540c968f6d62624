//! Keys that statements write.

ghost use Rattle.std.specs.Prelude.{◌≡◌, [], Some, None, IfErr, IfNone, IfSome, OnOk, length};
ghost use Rattle.bohm_types.specs.Name.{key_of};
ghost use Rattle.bohm_log.specs.declared.fault.SumFault.TheVariants.{Empty};
ghost use Rattle.bohm_log.specs.Drafting.{put_of, with_stmt};
ghost use Rattle.bohm_text.specs.Targets.{StandsIn, name_in};

use bohm_log::{Draft, HashSeed, SumFault};
use bohm_types::{Cmp, Key, PackedWord};

/// The key that a statement writes.
#[derive(Drop)]
pub enum Target<'a> {
    /// The declared key at this index, which this word names. No `Key` is built from the word.
    Declared(u32, &'a [u8]),
    /// Another key, or a declared key that isn't where the cache last found it.
    Named(Key),
}

/// The key that a word names.
#[inline(always)]
pub fn read_target<'a>(draft: &Draft<HashSeed>, word: &PackedWord<'a>) -> Option<Target<'a>>
    ensures none { IfNone result (key_of word.now ≡ None) }
    ensures name { IfSome result (λ target. key_of word.now ≡ Some (name_in target)) }
    ensures stands { IfSome result (λ target. StandsIn target draft.now.txn.writes) }
{
    if let Some(place) = draft.write_place(word) {
        return Some(Target::Declared(place, word.bytes()));
    }
    Some(Target::Named(Key::of_word(word)?))
}

impl Target<'_> {
    /// `set KEY = SUM`
    #[inline(always)]
    pub fn put(&self, draft: &mut Draft<HashSeed>) -> Result<(), SumFault>
        requires stands { StandsIn self.now draft.old.txn.writes }
        requires done { draft.old.done ≡ [] }
        ensures ok { OnOk result
            (draft.new ≡ with_stmt draft.old (put_of draft.old (name_in self.now) None)) }
        ensures empty { IfErr result (λ e. e ≡ Empty → draft.old.latest ≡ []) }
    {
        match self {
            Target::Declared(place, name) => draft.put_at(*place, name),
            Target::Named(key) => draft.put(*key),
        }
    }

    /// `set KEY = SUM when SUM CMP SUM`
    pub fn put_when(&self, draft: &mut Draft<HashSeed>, cmp: Cmp) -> Result<(), SumFault>
        requires stands { StandsIn self.now draft.old.txn.writes }
        requires done { length draft.old.done ≡ 2 }
        ensures ok { OnOk result
            (draft.new ≡ with_stmt draft.old (put_of draft.old (name_in self.now) (Some cmp))) }
        ensures empty { IfErr result (λ e. e ≡ Empty → draft.old.latest ≡ []) }
    {
        match self {
            Target::Declared(place, name) => draft.put_when_at(*place, name, cmp),
            Target::Named(key) => draft.put_when(*key, cmp),
        }
    }
}
