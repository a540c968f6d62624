//! The transaction being read.

ghost use Rattle.std.specs.Prelude.{◌≡◌, ◌≢◌, ◌<◌, ◌≤◌, ◌-◌, ◌^◌, []};
ghost use Rattle.std.specs.Prelude.{true, false, IfOk, OnOk, OnErr};
ghost use Rattle.std.specs.Prelude.{Some, None, Err, ◌||◌, IfErr};
ghost use Rattle.std.specs.Prelude.{IfSome, IsSome, slice_get, length};
ghost use Rattle.std.specs.List.{AllByRecursion};
ghost use Rattle.bohm_types.specs.Keys.{is_among};
ghost use Rattle.bohm_types.specs.Name.{is_name};
ghost use Rattle.bohm_types.specs.Term.{Lit, Read, Local};
ghost use Rattle.bohm_types.specs.Sound.{IsTerm, IsSum, IsStmt, IsTxn};
ghost use Rattle.bohm_types.specs.Stmt as stmts;
ghost use Rattle.bohm_log.specs.declared.fault.LogFault.TheVariants.{Full};
ghost use Rattle.bohm_log.specs.declared.fault.SumFault.TheVariants as faults;
ghost use Rattle.bohm_log.specs.Drafting.{fresh, with_read, with_write, with_term, with_sum};
ghost use Rattle.bohm_log.specs.Drafting.{with_stmt, made_of, put_of, need_of, parts_of, IsBare};
ghost use Rattle.bohm_log.specs.Drafting.{IsBetween, IsNamed, IsNameless, IsWriting};
ghost use Rattle.bohm_log.specs.Parts.{txn_of, IsWithin};
ghost use Rattle.bohm_log.specs.Seeing.{atom_shown};
ghost use Rattle.bohm_log.specs.Sizes.{size_of, stmt_terms, open_terms, IsCounted};

use crate::draft_columns::DraftColumns;
use crate::fault::{LogFault, SumFault};
use crate::literal::Literal;
use crate::row::{Action, Pending, Step};
use crate::sum::AtomParts;
use bohm_types::{Cmp, Edition, Key, PackedWord};
use std::alloc::Global;
use std::hash::{BuildHasher, BuildHasherDefault, FoldHasher};
use std::marker::Model;

/// The transaction as far as it was read. Its memory is reused for the next one. The declared keys
/// are read before the body, and the sums of a statement are read term by term before the statement
/// itself, in the statement's order. An `Err` leaves the contract view unchanged; no more of the
/// names and literals that were read stay in memory than there are terms and statements. An
/// operation fails with `Full` only if the terms and statements together are 2^32 - 1 or more.
pub struct Draft<S: BuildHasher = BuildHasherDefault<FoldHasher>> {
    edition: Edition,
    columns: DraftColumns<S>,
    pending: Pending,
}

// Written out: a derived drop is proved anew in each function that drops such a value.
impl<S: BuildHasher + Drop> Drop for Draft<S> {
    fn drop(self) {
        let Self {
            edition: _,
            columns,
            pending: _,
        } = self;
        drop(columns);
    }
}

impl<S: BuildHasher> Model for Draft<S> {
    ghost use Rattle.bohm_log.specs.Drafting.{Drafted, drafted_of, parts_of, IsDrafted};

    ghost Value = { Drafted };

    ghost view = { λ d. drafted_of d.edition (parts_of d.columns) d.pending };

    ghost use Rattle.bohm_log.specs.SoundLogs.{IsSoundDraft};
    ghost use Rattle.bohm_log.specs.Sizes.{IsCounted};

    ghost invariant = { λ d. IsDrafted (parts_of d.columns) d.pending
        × IsSoundDraft (drafted_of d.edition (parts_of d.columns) d.pending)
        × IsCounted (parts_of d.columns) (drafted_of d.edition (parts_of d.columns) d.pending) };
}

impl<S: BuildHasher> Draft<S> {
    /// An empty transaction. It allocates nothing.
    pub fn new(alloc: Global, hasher: S, edition: Edition) -> Draft<S>
        ensures { result ≡ fresh edition }
    {
        Draft {
            edition,
            columns: DraftColumns::new(alloc, hasher),
            pending: Pending::at(0),
        }
    }

    /// Begins another transaction.
    pub fn begin(&mut self, edition: Edition)
        ensures { self.new ≡ fresh edition }
    {
        self.edition = edition;
        self.columns.clear();
        self.pending = Pending::at(0);
    }

    /// Declares one more key to be read.
    pub fn read(&mut self, key: Key) -> Result<(), LogFault>
        requires { IsBare self.old }
        ensures ok { OnOk result (self.new ≡ with_read self.old key) }
        ensures err { OnErr result (self.new ≡ self.old) }
        ensures never_full { result ≢ Err Full }
    {
        key.has_name();
        self.columns.add_read(key)?;
        Ok(())
    }

    /// Declares one more key to be written.
    pub fn write(&mut self, key: Key) -> Result<(), LogFault>
        requires { IsBare self.old }
        ensures ok { OnOk result (self.new ≡ with_write self.old key) }
        ensures err { OnErr result (self.new ≡ self.old) }
        ensures never_full { result ≢ Err Full }
    {
        key.has_name();
        self.columns.add_write(key)?;
        Ok(())
    }

    /// Declares as written the key that a word spells, if it is the declared read at the same
    /// index. The word is compared in place, and no `Key` is built from it. Returns whether the key
    /// was declared.
    #[inline(always)]
    pub fn write_again(&mut self, word: &PackedWord<'_>) -> Result<bool, LogFault>
        requires { IsBare self.old }
        ensures added { IfOk result (λ done. done ≡ true
            → self.new ≡ with_write self.old word.now) }
        ensures name { IfOk result (λ done. done ≡ true → is_name word.now ≡ true) }
        ensures none { IfOk result (λ done. done ≡ false → self.new ≡ self.old) }
        ensures err { OnErr result (self.new ≡ self.old) }
        ensures never_full { result ≢ Err Full }
    {
        let Some(key) = self.columns.same_read(word) else {
            return Ok(false);
        };
        key.has_name();
        self.write(key)?;
        Ok(true)
    }

    /// Fails with `Empty` if the sum being read has no terms. The draft is unchanged.
    fn require_terms(&self) -> Result<(), SumFault>
        ensures sum { OnOk result (IsSum self.now.latest) }
        ensures done { AllByRecursion IsSum self.now.done }
        ensures none { OnErr result (self.now.latest ≡ []) }
        ensures empty { IfErr result (λ e. e ≡ faults.Empty) }
    {
        if (self.pending.latest() as usize) < self.columns.terms.len() {
            Ok(())
        } else {
            Err(SumFault::Empty)
        }
    }

    /// Whether a statement is open: sums of it were read, but not yet the statement itself.
    #[tactic(auto, using(crate::proofs::Counting::open_counted))]
    pub(crate) fn is_open(&self) -> bool
        ensures open { result ≡ true → 0 < open_terms self.now }
        ensures whole { result ≡ false → open_terms self.now ≡ 0 }
    {
        (self.pending.start as usize) < self.columns.terms.len()
    }

    /// Ends a sum that isn't the last one of its statement. It fails with `Empty` if the sum has no
    /// terms.
    pub fn next_sum(&mut self) -> Result<(), SumFault>
        requires { length self.old.done < 2 }
        ensures ok { OnOk result (self.new ≡ with_sum self.old) }
        ensures terms { OnOk result (0 < length self.old.latest) }
        ensures empty { IfErr result (λ e. self.old.latest ≡ []) }
        ensures err { OnErr result (self.new ≡ self.old) }
        ensures never_full { result ≢ Err (faults.Log Full) }
    {
        self.require_terms()?;
        self.pending = self.pending.next(self.columns.terms.len() as u32);
        Ok(())
    }

    /// Whether the transaction declares to read or to write a key. The time grows with the number
    /// of keys that it declares.
    pub fn declares(&self, key: &Key) -> bool
        ensures { result
            ≡ (is_among self.now.txn.reads key.now || is_among self.now.txn.writes key.now) }
    {
        self.columns.reads.contains(key) || self.columns.writes.contains(key)
    }

    /// How many statements were read. What was read is sound.
    pub fn body_len(&self) -> usize
        ensures length { result ≡ length self.now.txn.body }
        ensures sound { IsTxn self.now.txn.edition self.now.txn }
    {
        self.columns.rows.len()
    }

    /// Its edition and its columns.
    pub(crate) fn parts(&self) -> (Edition, &DraftColumns<S>)
        ensures same { txn_of result.0 (parts_of result.1.now) ≡ self.now.txn }
        ensures within { IsWithin (parts_of result.1.now) }
        ensures sound { IsTxn self.now.txn.edition self.now.txn }
        ensures counted { IsCounted (parts_of result.1.now) self.now }
    {
        (self.edition, &self.columns)
    }

    /// The edition and the columns of the draft, which is consumed.
    pub(crate) fn into_parts(self) -> (Edition, DraftColumns<S>)
    where
        S: Drop,
        ensures same { txn_of result.0 (parts_of result.1) ≡ self.txn }
        ensures within { IsWithin (parts_of result.1) }
        ensures sound { IsTxn self.txn.edition self.txn }
        ensures counted { IsCounted (parts_of result.1) self }
    {
        let Draft {
            edition,
            columns,
            pending: _,
        } = self;
        (edition, columns)
    }
}

/// Terms of the sum being read.
impl<S: BuildHasher + Drop> Draft<S> {
    #[inline(always)]
    fn add_term(&mut self, minus: bool, atom: AtomParts) -> Result<(), LogFault>
        requires { IsTerm (minus, atom_shown atom) }
        ensures ok { OnOk result (self.new ≡ with_term self.old minus (atom_shown atom)) }
        ensures err { OnErr result (self.new ≡ self.old) }
        ensures full { result ≡ Err Full → 2 ^ 32 - 1 ≤ size_of self.old }
    {
        if self.columns.terms.len() >= u32::MAX as usize {
            return Err(LogFault::Full);
        }
        self.columns.add_term(minus, atom)?;
        Ok(())
    }

    /// Adds a term for the declared read that a word spells, if it is at the index where such a
    /// name was last found. The word is compared in place, and no `Key` is built from it. Returns
    /// whether the term was added.
    #[inline(always)]
    pub fn read_again(&mut self, minus: bool, word: &PackedWord<'_>) -> Result<bool, LogFault>
        ensures added { IfOk result (λ done. done ≡ true
            → self.new ≡ with_term self.old minus (Read word.now)) }
        ensures name { IfOk result (λ done. done ≡ true → is_name word.now ≡ true) }
        ensures none { IfOk result (λ done. done ≡ false → self.new ≡ self.old) }
        ensures err { OnErr result (self.new ≡ self.old) }
        ensures full { result ≡ Err Full → 2 ^ 32 - 1 ≤ size_of self.old }
    {
        if self.columns.terms.len() >= u32::MAX as usize {
            return Err(LogFault::Full);
        }
        let Some(place) = self.columns.read_place(word) else {
            return Ok(false);
        };
        self.columns.add_read_at(minus, place, word)?;
        Ok(true)
    }

    /// The index of the declared write that a word spells, if it is where such a name was last
    /// found. The word is compared in place, and no `Key` is built from it.
    #[inline(always)]
    pub fn write_place(&self, word: &PackedWord<'_>) -> Option<u32>
        ensures place { IfSome result (λ i. slice_get self.now.txn.writes i ≡ Some word.now) }
        ensures name { IsSome result → is_name word.now ≡ true }
    {
        self.columns.write_place(word)
    }

    /// Adds a literal by the path for atoms of all kinds. Out of line: if one function had two
    /// calls of `push`, neither would be inlined.
    #[inline(never)]
    fn add_large(&mut self, minus: bool, number: u64) -> Result<(), LogFault>
        requires { IsTerm (minus, Lit number) }
        ensures ok { OnOk result (self.new ≡ with_term self.old minus (Lit number)) }
        ensures err { OnErr result (self.new ≡ self.old) }
        ensures full { result ≡ Err Full → 2 ^ 32 - 1 ≤ size_of self.old }
    {
        self.add_term(minus, AtomParts::Lit(number))
    }

    /// Adds a literal.
    #[inline(always)]
    pub fn literal(&mut self, literal: Literal) -> Result<(), LogFault>
        ensures ok { OnOk result (self.new ≡ with_term self.old literal.0 literal.1) }
        ensures err { OnErr result (self.new ≡ self.old) }
        ensures full { result ≡ Err Full → 2 ^ 32 - 1 ≤ size_of self.old }
    {
        let (minus, number) = literal.parts();
        let Ok(small) = u32::try_from(number) else {
            return self.add_large(minus, number);
        };
        if self.columns.terms.len() >= u32::MAX as usize {
            return Err(LogFault::Full);
        }
        self.columns.add_small(minus, small)?;
        Ok(())
    }

    /// Adds a term that reads a key.
    pub fn key(&mut self, minus: bool, name: Key) -> Result<(), LogFault>
        ensures ok { OnOk result (self.new ≡ with_term self.old minus (Read name)) }
        ensures err { OnErr result (self.new ≡ self.old) }
        ensures full { result ≡ Err Full → 2 ^ 32 - 1 ≤ size_of self.old }
    {
        name.has_name();
        self.add_term(minus, AtomParts::Read(name))
    }

    /// Adds a term that reads a local.
    pub fn local(&mut self, minus: bool, name: Key) -> Result<(), LogFault>
        ensures ok { OnOk result (self.new ≡ with_term self.old minus (Local name)) }
        ensures err { OnErr result (self.new ≡ self.old) }
        ensures full { result ≡ Err Full → 2 ^ 32 - 1 ≤ size_of self.old }
    {
        name.has_name();
        self.add_term(minus, AtomParts::Local(name))
    }
}

/// Statements, each after its sums. A sum without terms fails with `Empty`.
impl<S: BuildHasher + Drop> Draft<S> {
    /// Ends a statement with this name.
    fn end_named(&mut self, action: Action, name: Key) -> Result<(), LogFault>
        requires named { IsNamed action }
        requires sound { IsStmt (made_of self.old action name) }
        requires counted { stmt_terms (made_of self.old action name) ≡ open_terms self.old }
        ensures ok { OnOk result (self.new ≡ with_stmt self.old (made_of self.old action name)) }
        ensures err { OnErr result (self.new ≡ self.old) }
        ensures full { result ≡ Err Full → 2 ^ 32 - 1 ≤ size_of self.old }
    {
        let end = self.columns.terms.len() as u32;
        let (first, second) = self.pending.ends(end);
        self.columns
            .add_named(action, name, self.pending.start, (first, second, end))?;
        self.pending = Pending::at(end);
        Ok(())
    }

    /// Ends a statement that writes the declared write at an index.
    fn end_written(&mut self, action: Action, place: u32, name: &[u8]) -> Result<(), LogFault>
        requires writes { IsWriting action }
        requires place { slice_get self.old.txn.writes place ≡ Some name.now }
        requires sound { IsStmt (made_of self.old action name.now) }
        requires counted { stmt_terms (made_of self.old action name.now) ≡ open_terms self.old }
        ensures ok { OnOk result
            (self.new ≡ with_stmt self.old (made_of self.old action name.now)) }
        ensures err { OnErr result (self.new ≡ self.old) }
        ensures never_full { result ≢ Err Full }
    {
        let end = self.columns.terms.len() as u32;
        let (first, second) = self.pending.ends(end);
        self.columns.add_written(
            action,
            place,
            name,
            self.pending.start,
            (first, second, end),
        )?;
        self.pending = Pending::at(end);
        Ok(())
    }

    /// Ends a statement without a name.
    fn end_nameless(&mut self, action: Action) -> Result<(), LogFault>
        requires nameless { IsNameless action }
        requires sound { IsStmt (made_of self.old action []) }
        requires counted { stmt_terms (made_of self.old action []) ≡ open_terms self.old }
        ensures ok { OnOk result (self.new ≡ with_stmt self.old (made_of self.old action [])) }
        ensures err { OnErr result (self.new ≡ self.old) }
        ensures never_full { result ≢ Err Full }
    {
        let end = self.columns.terms.len() as u32;
        let (first, second) = self.pending.ends(end);
        self.columns
            .add_nameless(action, self.pending.start, (first, second, end))?;
        self.pending = Pending::at(end);
        Ok(())
    }

    /// `let $name = SUM`
    #[tactic(auto, using(crate::proofs::Statements::bind_made, crate::proofs::Statements::bind_sound, crate::proofs::Statements::bind_counted))]
    pub fn bind(&mut self, name: Key) -> Result<(), SumFault>
        requires { self.old.done ≡ [] }
        ensures ok { OnOk result
            (self.new ≡ with_stmt self.old (stmts.Bind name self.old.latest)) }
        ensures terms { OnOk result (0 < length self.old.latest) }
        ensures empty { IfErr result (λ e. e ≡ faults.Empty → self.old.latest ≡ []) }
        ensures err { OnErr result (self.new ≡ self.old) }
        ensures full { result ≡ Err (faults.Log Full) → 2 ^ 32 - 1 ≤ size_of self.old }
    {
        name.has_name();
        self.require_terms()?;
        self.end_named(Action::Bind, name)?;
        Ok(())
    }

    /// `need SUM CMP SUM`
    #[tactic(auto, using(crate::proofs::Statements::need_made, crate::proofs::Statements::need_sound, crate::proofs::Statements::need_counted))]
    pub fn need(&mut self, cmp: Cmp) -> Result<(), SumFault>
        requires { length self.old.done ≡ 1 }
        ensures ok { OnOk result (self.new ≡ with_stmt self.old (need_of self.old cmp)) }
        ensures terms { OnOk result (0 < length self.old.latest) }
        ensures empty { IfErr result (λ e. e ≡ faults.Empty → self.old.latest ≡ []) }
        ensures err { OnErr result (self.new ≡ self.old) }
        ensures never_full { result ≢ Err (faults.Log Full) }
    {
        self.require_terms()?;
        self.end_nameless(Action::Need(cmp))?;
        Ok(())
    }

    /// `need has KEY`
    #[tactic(auto, using(crate::proofs::Statements::none_counted))]
    pub fn has(&mut self, key: Key) -> Result<(), LogFault>
        requires { IsBetween self.old }
        ensures ok { OnOk result (self.new ≡ with_stmt self.old (stmts.Has key)) }
        ensures err { OnErr result (self.new ≡ self.old) }
        ensures full { result ≡ Err Full → 2 ^ 32 - 1 ≤ size_of self.old }
    {
        key.has_name();
        self.end_named(Action::Has, key)
    }

    /// `need no KEY`
    #[tactic(auto, using(crate::proofs::Statements::none_counted))]
    pub fn lacks(&mut self, key: Key) -> Result<(), LogFault>
        requires { IsBetween self.old }
        ensures ok { OnOk result (self.new ≡ with_stmt self.old (stmts.Lacks key)) }
        ensures err { OnErr result (self.new ≡ self.old) }
        ensures full { result ≡ Err Full → 2 ^ 32 - 1 ≤ size_of self.old }
    {
        key.has_name();
        self.end_named(Action::Lacks, key)
    }

    /// `set KEY = SUM`
    #[tactic(auto, using(crate::proofs::Statements::put_made, crate::proofs::Statements::put_sound, crate::proofs::Statements::put_counted))]
    pub fn put(&mut self, key: Key) -> Result<(), SumFault>
        requires { self.old.done ≡ [] }
        ensures ok { OnOk result (self.new ≡ with_stmt self.old (put_of self.old key None)) }
        ensures terms { OnOk result (0 < length self.old.latest) }
        ensures empty { IfErr result (λ e. e ≡ faults.Empty → self.old.latest ≡ []) }
        ensures err { OnErr result (self.new ≡ self.old) }
        ensures full { result ≡ Err (faults.Log Full) → 2 ^ 32 - 1 ≤ size_of self.old }
    {
        key.has_name();
        self.require_terms()?;
        self.end_named(Action::Put, key)?;
        Ok(())
    }

    /// `set KEY = SUM when SUM CMP SUM`
    #[tactic(auto, using(crate::proofs::Statements::put_when_made, crate::proofs::Statements::put_when_sound, crate::proofs::Statements::put_when_counted))]
    pub fn put_when(&mut self, key: Key, cmp: Cmp) -> Result<(), SumFault>
        requires { length self.old.done ≡ 2 }
        ensures ok { OnOk result
            (self.new ≡ with_stmt self.old (put_of self.old key (Some cmp))) }
        ensures terms { OnOk result (0 < length self.old.latest) }
        ensures empty { IfErr result (λ e. e ≡ faults.Empty → self.old.latest ≡ []) }
        ensures err { OnErr result (self.new ≡ self.old) }
        ensures full { result ≡ Err (faults.Log Full) → 2 ^ 32 - 1 ≤ size_of self.old }
    {
        key.has_name();
        self.require_terms()?;
        self.end_named(Action::PutWhen(cmp), key)?;
        Ok(())
    }

    /// `set KEY = SUM`, for the declared write at an index.
    #[tactic(auto, using(crate::proofs::Statements::put_made, crate::proofs::Statements::put_sound, crate::proofs::Statements::put_counted))]
    pub fn put_at(&mut self, place: u32, key: &[u8]) -> Result<(), SumFault>
        requires done { self.old.done ≡ [] }
        requires place { slice_get self.old.txn.writes place ≡ Some key.now }
        requires name { is_name key.now ≡ true }
        ensures ok { OnOk result (self.new ≡ with_stmt self.old (put_of self.old key.now None)) }
        ensures terms { OnOk result (0 < length self.old.latest) }
        ensures empty { IfErr result (λ e. e ≡ faults.Empty → self.old.latest ≡ []) }
        ensures err { OnErr result (self.new ≡ self.old) }
        ensures never_full { result ≢ Err (faults.Log Full) }
    {
        self.require_terms()?;
        self.end_written(Action::Put, place, key)?;
        Ok(())
    }

    /// `set KEY = SUM when SUM CMP SUM`, for the declared write at an index.
    #[tactic(auto, using(crate::proofs::Statements::put_when_made, crate::proofs::Statements::put_when_sound, crate::proofs::Statements::put_when_counted))]
    pub fn put_when_at(&mut self, place: u32, key: &[u8], cmp: Cmp) -> Result<(), SumFault>
        requires done { length self.old.done ≡ 2 }
        requires place { slice_get self.old.txn.writes place ≡ Some key.now }
        requires name { is_name key.now ≡ true }
        ensures ok { OnOk result
            (self.new ≡ with_stmt self.old (put_of self.old key.now (Some cmp))) }
        ensures terms { OnOk result (0 < length self.old.latest) }
        ensures empty { IfErr result (λ e. e ≡ faults.Empty → self.old.latest ≡ []) }
        ensures err { OnErr result (self.new ≡ self.old) }
        ensures never_full { result ≢ Err (faults.Log Full) }
    {
        self.require_terms()?;
        self.end_written(Action::PutWhen(cmp), place, key)?;
        Ok(())
    }

    /// `drop KEY`
    #[tactic(auto, using(crate::proofs::Statements::none_counted))]
    pub fn remove(&mut self, key: Key) -> Result<(), LogFault>
        requires { IsBetween self.old }
        ensures ok { OnOk result (self.new ≡ with_stmt self.old (stmts.Remove key)) }
        ensures err { OnErr result (self.new ≡ self.old) }
        ensures full { result ≡ Err Full → 2 ^ 32 - 1 ≤ size_of self.old }
    {
        key.has_name();
        self.end_named(Action::Remove, key)
    }

    /// `show SUM`
    #[tactic(auto, using(crate::proofs::Statements::show_made, crate::proofs::Statements::show_sound, crate::proofs::Statements::show_counted))]
    pub fn show(&mut self) -> Result<(), SumFault>
        requires { self.old.done ≡ [] }
        ensures ok { OnOk result (self.new ≡ with_stmt self.old (stmts.Show self.old.latest)) }
        ensures terms { OnOk result (0 < length self.old.latest) }
        ensures empty { IfErr result (λ e. e ≡ faults.Empty → self.old.latest ≡ []) }
        ensures err { OnErr result (self.new ≡ self.old) }
        ensures never_full { result ≢ Err (faults.Log Full) }
    {
        self.require_terms()?;
        self.end_nameless(Action::Show)?;
        Ok(())
    }

    /// `fail`
    #[tactic(auto, using(crate::proofs::Statements::none_counted))]
    pub fn fail(&mut self) -> Result<(), LogFault>
        requires { IsBetween self.old }
        ensures ok { OnOk result (self.new ≡ with_stmt self.old stmts.Fail) }
        ensures err { OnErr result (self.new ≡ self.old) }
        ensures never_full { result ≢ Err Full }
    {
        self.end_nameless(Action::Fail)
    }
}
