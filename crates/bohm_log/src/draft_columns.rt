//! The columns of the transaction being read.

pub(crate) mod places;

ghost use Rattle.std.specs.Prelude.{◌≡◌, ◌≢◌, ◌<◌, ◌≤◌, ◌+◌, ◌^◌, [], Some, Err, true, IsSome};
ghost use Rattle.std.specs.Prelude.{IfOk, OnOk, OnErr, IfSome, length, slice_get};
ghost use Rattle.bohm_types.specs.Term.{Lit, Read, Local};
ghost use Rattle.bohm_log.specs.declared.fault.LogFault.TheVariants.{Full};
ghost use Rattle.bohm_log.specs.Parts.{Begins, Parts};
ghost use Rattle.bohm_log.specs.Sizes.{IsCompact, GrowsByOne};
ghost use Rattle.bohm_log.specs.Drafting.{parts_of, NamesGrow, Stands, AddsTerm};
ghost use Rattle.bohm_log.specs.Drafting.{AddsRow, IsNamed, IsNameless, IsWriting, no_parts};
ghost use Rattle.bohm_log.specs.Drafting.{with_one_read, with_one_write};
ghost use Rattle.bohm_log.specs.Seeing.{atom_shown};
ghost use Rattle.bohm_types.specs.Name.{is_name};

use crate::fault::LogFault;
use crate::names::Names;
use crate::row::{Action, AtomKind, StmtRow, TermRow};
use crate::sum::AtomParts;
use bohm_types::{Key, NameCache, PackedWord};
use places::{keys_of, place_again, place_name, place_other};
use std::alloc::Global;
use std::hash::BuildHasher;

#[derive(Drop)]
pub struct DraftColumns<S: BuildHasher> {
    pub reads: Vec<Key>,
    pub writes: Vec<Key>,
    pub others: Names<S>,
    pub large: Vec<u64>,
    pub terms: Vec<TermRow>,
    pub rows: Vec<StmtRow>,
    /// Where terms last found the keys that they read.
    pub read_places: NameCache,
    /// Where statements last found the keys that they test or write.
    pub named_places: NameCache,
    /// Where the other names were last found.
    pub other_places: NameCache,
}

/// The index of a literal, which is appended.
fn add_large(large: &mut Vec<u64>, number: u64) -> Result<u32, LogFault>
    requires few { length large.old.items < 2 ^ 32 }
    ensures grows { Begins large.old.items large.new.items }
    ensures longer { length large.new.items ≤ length large.old.items + 1 }
    ensures ok { IfOk result (λ i. slice_get large.new.items i ≡ Some number) }
    ensures err { OnErr result (large.new.items ≡ large.old.items) }
    ensures never_full { result ≢ Err Full }
{
    let place = large.len() as u32;
    large.push(number)?;
    Ok(place)
}

impl<S: BuildHasher> DraftColumns<S> {
    pub fn new(alloc: Global, hasher: S) -> DraftColumns<S>
        ensures { parts_of result ≡ no_parts }
    {
        DraftColumns {
            reads: Vec::new(alloc),
            writes: Vec::new(alloc),
            others: Names::new(alloc, hasher),
            large: Vec::new(alloc),
            terms: Vec::new(alloc),
            rows: Vec::new(alloc),
            read_places: NameCache::new(),
            named_places: NameCache::new(),
            other_places: NameCache::new(),
        }
    }

    pub fn clear(&mut self)
        ensures { parts_of self.new ≡ no_parts }
    {
        self.reads.clear();
        self.writes.clear();
        self.others.clear();
        self.large.clear();
        self.terms.clear();
        self.rows.clear();
    }

    pub fn add_read(&mut self, key: Key) -> Result<(), LogFault>
        ensures ok { OnOk result (parts_of self.new ≡ with_one_read (parts_of self.old) key) }
        ensures err { OnErr result (parts_of self.new ≡ parts_of self.old) }
        ensures never_full { result ≢ Err Full }
    {
        let place = self.reads.len();
        self.reads.push(key)?;
        if let Ok(place) = u32::try_from(place) {
            self.read_places.note(&key, place);
        }
        Ok(())
    }

    /// The declared read at the index of the next declared write, if a word spells it.
    #[inline(always)]
    pub fn same_read(&self, word: &PackedWord<'_>) -> Option<Key>
        ensures { IfSome result (λ key. key ≡ word.now) }
    {
        let key = self.reads.get(self.writes.len())?;
        if key.is_word(word) { Some(*key) } else { None }
    }

    pub fn add_write(&mut self, key: Key) -> Result<(), LogFault>
        ensures ok { OnOk result (parts_of self.new ≡ with_one_write (parts_of self.old) key) }
        ensures err { OnErr result (parts_of self.new ≡ parts_of self.old) }
        ensures never_full { result ≢ Err Full }
    {
        let place = self.writes.len();
        self.writes.push(key)?;
        if let Ok(place) = u32::try_from(place) {
            self.named_places.note(&key, place);
        }
        Ok(())
    }
}

impl<S: BuildHasher + Drop> DraftColumns<S> {
    /// Truncates names and literals to as many as the terms and statements can have. Otherwise
    /// failing calls could fill these lists, and a draft with few terms and statements would be
    /// `Full`.
    fn cut_back(&mut self)
        ensures grows { (before : Parts) → NamesGrow before (parts_of self.old) → IsCompact before
            → NamesGrow before (parts_of self.new) }
        ensures compact { IsCompact (parts_of self.new) }
    {
        let terms = self.terms.len();
        self.others.truncate(terms.saturating_add(self.rows.len()));
        self.large.truncate(terms);
    }
}

/// Terms.
impl<S: BuildHasher + Drop> DraftColumns<S> {
    /// The term of a literal.
    #[inline(always)]
    fn literal(&mut self, minus: bool, number: u64) -> Result<TermRow, LogFault>
        requires few { length (parts_of self.old).large < 2 ^ 32 }
        ensures grows { NamesGrow (parts_of self.old) (parts_of self.new) }
        ensures one { GrowsByOne (parts_of self.old) (parts_of self.new) }
        ensures ok { IfOk result (λ t. Stands (parts_of self.new) t minus (Lit number)) }
        ensures err { OnErr result (parts_of self.new ≡ parts_of self.old) }
        ensures never_full { result ≢ Err Full }
    {
        Ok(match u32::try_from(number) {
            Ok(place) => TermRow {
                kind: AtomKind::Small,
                minus,
                place,
            },
            Err(_) => TermRow {
                kind: AtomKind::Large,
                minus,
                place: add_large(&mut self.large, number)?,
            },
        })
    }

    /// The term of a key that is read.
    fn key(&mut self, minus: bool, name: Key) -> Result<TermRow, LogFault>
        ensures grows { NamesGrow (parts_of self.old) (parts_of self.new) }
        ensures one { GrowsByOne (parts_of self.old) (parts_of self.new) }
        ensures ok { IfOk result (λ t. Stands (parts_of self.new) t minus (Read name)) }
        ensures err { OnErr result (parts_of self.new ≡ parts_of self.old) }
        ensures full { result ≡ Err Full → length (parts_of self.old).others ≡ 2 ^ 32 }
    {
        Ok(
            match place_again(self.reads.as_slice(), &mut self.read_places, &name) {
                Some(place) => TermRow {
                    kind: AtomKind::Read,
                    minus,
                    place,
                },
                None => TermRow {
                    kind: AtomKind::Unread,
                    minus,
                    place: place_other(&mut self.others, &mut self.other_places, name)?,
                },
            },
        )
    }

    /// The term of a local.
    fn local(&mut self, minus: bool, name: Key) -> Result<TermRow, LogFault>
        ensures grows { NamesGrow (parts_of self.old) (parts_of self.new) }
        ensures one { GrowsByOne (parts_of self.old) (parts_of self.new) }
        ensures ok { IfOk result (λ t. Stands (parts_of self.new) t minus (Local name)) }
        ensures err { OnErr result (parts_of self.new ≡ parts_of self.old) }
        ensures full { result ≡ Err Full → length (parts_of self.old).others ≡ 2 ^ 32 }
    {
        Ok(TermRow {
            kind: AtomKind::Local,
            minus,
            place: place_other(&mut self.others, &mut self.other_places, name)?,
        })
    }

    /// The term of an atom.
    #[inline(always)]
    fn term(&mut self, minus: bool, atom: AtomParts) -> Result<TermRow, LogFault>
        requires few { length (parts_of self.old).large < 2 ^ 32 }
        ensures grows { NamesGrow (parts_of self.old) (parts_of self.new) }
        ensures one { GrowsByOne (parts_of self.old) (parts_of self.new) }
        ensures ok { IfOk result (λ t. Stands (parts_of self.new) t minus (atom_shown atom)) }
        ensures err { OnErr result (parts_of self.new ≡ parts_of self.old) }
        ensures full { result ≡ Err Full → length (parts_of self.old).others ≡ 2 ^ 32 }
    {
        match atom {
            AtomParts::Lit(number) => self.literal(minus, number),
            AtomParts::Read(name) => self.key(minus, name),
            AtomParts::Local(name) => self.local(minus, name),
        }
    }

    /// The index of the declared read that a word spells, if it is where the cache last found such
    /// a name.
    #[inline(always)]
    pub fn read_place(&self, word: &PackedWord<'_>) -> Option<u32>
        ensures place { IfSome result
            (λ i. slice_get (parts_of self.now).reads i ≡ Some word.now) }
        ensures name { IsSome result → is_name word.now ≡ true }
    {
        self.read_places.place_of_word(self.reads.as_slice(), word)
    }

    /// The index of the declared write that a word spells, if it is where the cache last found such
    /// a name.
    #[inline(always)]
    pub fn write_place(&self, word: &PackedWord<'_>) -> Option<u32>
        ensures place { IfSome result
            (λ i. slice_get (parts_of self.now).writes i ≡ Some word.now) }
        ensures name { IsSome result → is_name word.now ≡ true }
    {
        self.named_places
            .place_of_word(self.writes.as_slice(), word)
    }

    /// Adds a term for the declared read at an index, which the word spells.
    pub fn add_read_at(
        &mut self,
        minus: bool,
        place: u32,
        name: &PackedWord<'_>,
    ) -> Result<(), LogFault>
        requires place { slice_get (parts_of self.old).reads place ≡ Some name.now }
        requires compact { IsCompact (parts_of self.old) }
        ensures ok { OnOk result
            (AddsTerm (parts_of self.old) (parts_of self.new) minus (Read name.now)) }
        ensures err { OnErr result (NamesGrow (parts_of self.old) (parts_of self.new)) }
        ensures compact { IsCompact (parts_of self.new) }
        ensures never_full { result ≢ Err Full }
    {
        self.terms.push(TermRow {
            kind: AtomKind::Read,
            minus,
            place,
        })?;
        Ok(())
    }

    /// Adds a literal below 2^32.
    #[inline(always)]
    pub fn add_small(&mut self, minus: bool, small: u32) -> Result<(), LogFault>
        requires compact { IsCompact (parts_of self.old) }
        ensures ok { OnOk result
            (AddsTerm (parts_of self.old) (parts_of self.new) minus (Lit small)) }
        ensures err { OnErr result (NamesGrow (parts_of self.old) (parts_of self.new)) }
        ensures compact { IsCompact (parts_of self.new) }
        ensures never_full { result ≢ Err Full }
    {
        self.terms.push(TermRow {
            kind: AtomKind::Small,
            minus,
            place: small,
        })?;
        Ok(())
    }

    #[inline(always)]
    pub fn add_term(&mut self, minus: bool, atom: AtomParts) -> Result<(), LogFault>
        requires compact { IsCompact (parts_of self.old) }
        requires few { length (parts_of self.old).terms < 2 ^ 32 }
        ensures ok { OnOk result
            (AddsTerm (parts_of self.old) (parts_of self.new) minus (atom_shown atom)) }
        ensures err { OnErr result (NamesGrow (parts_of self.old) (parts_of self.new)) }
        ensures compact { IsCompact (parts_of self.new) }
        ensures full { result ≡ Err Full → length (parts_of self.old).others ≡ 2 ^ 32 }
    {
        let term = self.term(minus, atom)?;
        if let Err(failed) = self.terms.push(term) {
            self.cut_back();
            return Err(failed.into());
        }
        Ok(())
    }
}

/// Statements.
impl<S: BuildHasher + Drop> DraftColumns<S> {
    /// Adds a statement without a name, whose sums end at these offsets.
    #[tactic(auto, using(crate::proofs::Standing::nameless_came))]
    pub fn add_nameless(
        &mut self,
        action: Action,
        start: u32,
        ends: (u32, u32, u32),
    ) -> Result<(), LogFault>
        requires nameless { IsNameless action }
        requires compact { IsCompact (parts_of self.old) }
        ensures ok { OnOk result
            (AddsRow (parts_of self.old) (parts_of self.new) action [] start ends.0 ends.1 ends.2) }
        ensures err { OnErr result (NamesGrow (parts_of self.old) (parts_of self.new)) }
        ensures never_full { result ≢ Err Full }
        ensures compact { IsCompact (parts_of self.new) }
    {
        self.rows.push(StmtRow {
            action,
            declared: false,
            name: 0,
            start,
            first: ends.0,
            second: ends.1,
            third: ends.2,
        })?;
        Ok(())
    }

    /// Adds a statement that writes the declared key at an index, whose sums end at these offsets.
    pub fn add_written(
        &mut self,
        action: Action,
        place: u32,
        name: &[u8],
        start: u32,
        ends: (u32, u32, u32),
    ) -> Result<(), LogFault>
        requires writes { IsWriting action }
        requires place { slice_get (parts_of self.old).writes place ≡ Some name.now }
        requires compact { IsCompact (parts_of self.old) }
        ensures ok { OnOk result
            (AddsRow (parts_of self.old) (parts_of self.new) action name.now start
            ends.0 ends.1 ends.2) }
        ensures err { OnErr result (NamesGrow (parts_of self.old) (parts_of self.new)) }
        ensures never_full { result ≢ Err Full }
        ensures compact { IsCompact (parts_of self.new) }
    {
        self.rows.push(StmtRow {
            action,
            declared: true,
            name: place,
            start,
            first: ends.0,
            second: ends.1,
            third: ends.2,
        })?;
        Ok(())
    }

    /// Adds a statement that binds a local, or tests or writes a key, whose sums end at these
    /// offsets.
    pub fn add_named(
        &mut self,
        action: Action,
        name: Key,
        start: u32,
        ends: (u32, u32, u32),
    ) -> Result<(), LogFault>
        requires named { IsNamed action }
        requires compact { IsCompact (parts_of self.old) }
        ensures ok { OnOk result
            (AddsRow (parts_of self.old) (parts_of self.new) action name start
            ends.0 ends.1 ends.2) }
        ensures err { OnErr result (NamesGrow (parts_of self.old) (parts_of self.new)) }
        ensures compact { IsCompact (parts_of self.new) }
        ensures full { result ≡ Err Full → length (parts_of self.old).others ≡ 2 ^ 32 }
    {
        let keys = keys_of(action, self.reads.as_slice(), self.writes.as_slice());
        let (declared, place) = place_name(
            keys,
            &mut self.named_places,
            &mut self.others,
            &mut self.other_places,
            name,
        )?;
        let row = StmtRow {
            action,
            declared,
            name: place,
            start,
            first: ends.0,
            second: ends.1,
            third: ends.2,
        };
        if let Err(failed) = self.rows.push(row) {
            self.cut_back();
            return Err(failed.into());
        }
        Ok(())
    }
}
