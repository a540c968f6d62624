//! Procedures in columns.

ghost use Rattle.std.specs.Prelude.{◌≡◌, ◌≢◌, ◌≤◌, ◌+◌, ◌^◌, ◌∷◌, []};
ghost use Rattle.std.specs.Prelude.{Err, length, map, take, IfOk, OnOk};
ghost use Rattle.std.specs.List.{AllByRecursion, range_with_len, sum_by};
ghost use Rattle.bohm_types.specs.Keys.{IsAmong};
ghost use Rattle.bohm_types.specs.Accesses.{StmtReads, StmtWrites};
ghost use Rattle.bohm_log.specs.Calling.{declared_name, IsPlaced};
ghost use Rattle.bohm_log.specs.Locals.{ArePlacesOf};
ghost use Rattle.bohm_log.specs.Parts.{Begins};
ghost use Rattle.bohm_log.specs.Sizes.{open_terms, size_of, stmt_terms};
ghost use Rattle.bohm_log.specs.declared.fault.LogFault.TheVariants.{Full};
ghost use Rattle.bohm_types.specs.Procedure.{procedure_with};
ghost use Rattle.bohm_types.specs.Limits.{most_keys};

use crate::columns::are_same;
use crate::draft::Draft;
use crate::draft_columns::DraftColumns;
use crate::fault::LogFault;
use crate::names::Names;
use crate::placed_body::{PlacedBody, placed_bodies};
use crate::row::{StmtRow, TermRow};
use crate::soundness::are_names;
use bohm_types::{Edition, Key};
use std::alloc::Global;
use std::hash::BuildHasher;
use std::marker::Model;

/// A declared name, and the index of the key parameter that it is, if it is one.
#[derive(Clone, Copy, Debug)]
pub struct DeclaredName {
    pub name: Key,
    pub param: Option<usize>,
}

/// The columns of one body, and the names that it declares.
#[derive(Drop)]
pub struct BodyColumns {
    pub reads: Vec<DeclaredName>,
    pub writes: Vec<DeclaredName>,
    /// True only if the writes are the reads, in the same order.
    pub same_sets: bool,
    pub others: Vec<Key>,
    pub large: Vec<u64>,
    pub terms: Vec<TermRow>,
    pub rows: Vec<StmtRow>,
    /// What a call adds if its keys ascend in the procedure's order.
    pub rising: PlacedBody,
    /// What a call adds if it reads and writes two keys, the second of which is the lower one.
    pub falling: PlacedBody,
}

/// A procedure, which contracts see as a `Procedure` of the definitions. Its terms and statements
/// are those of its own instance, and its values' names are among the other names.
pub struct Template {
    pub(crate) edition: Edition,
    pub(crate) keys: Vec<Key>,
    pub(crate) values: Vec<u32>,
    pub(crate) body: BodyColumns,
}

// Written out: a derived drop is proved anew in each function that drops such a value.
impl Drop for Template {
    fn drop(self) {
        let Self {
            edition: _,
            keys,
            values,
            body,
        } = self;
        drop(keys);
        drop(values);
        drop(body);
    }
}

impl Model for Template {
    ghost use Rattle.bohm_types.specs.Procedure.{Procedure};

    ghost Value = { Procedure };

    ghost use Rattle.bohm_log.specs.Calling.{parts_in, procedure_of, IsTemplate};

    ghost view = { λ t. procedure_of t.edition t.keys.items t.values.items (parts_in t.body) };

    ghost use Rattle.bohm_log.specs.SoundLogs.{IsSoundProcedure};
    ghost use Rattle.bohm_log.specs.Sizes.{IsFilled};

    ghost invariant = { λ t. IsTemplate t.keys.items t.body t.values.items
        × IsSoundProcedure
        (procedure_of t.edition t.keys.items t.values.items (parts_in t.body))
        × IsFilled (parts_in t.body)
        (procedure_of t.edition t.keys.items t.values.items (parts_in t.body)) };
}

/// The indices of names among the other names, to which they are added if they are new.
fn place_names<S: BuildHasher + Drop>(
    others: &mut Names<S>,
    places: &mut Vec<u32>,
    names: &[Key],
) -> Result<(), LogFault>
    ensures grows { OnOk result (Begins others.old others.new) }
    ensures longer { OnOk result (length others.new ≤ length others.old + length names.now) }
    ensures places { OnOk result (ArePlacesOf others.new names.now places.new.items) }
    ensures full { result ≡ Err Full → 2 ^ 32 ≤ length others.old + length names.now }
{
    places.clear();
    for name in names {
        let place = others.id(*name)?;
        places.push(place)?;
    }
    Ok(())
}

/// The names, each with the index of the parameter that it is, if it is one.
fn declared_names(
    alloc: Global,
    names: &[Key],
    params: &[Key],
) -> Result<Vec<DeclaredName>, LogFault>
    ensures ok { IfOk result (λ v. v.items ≡ map (declared_name params.now) names.now) }
    ensures never_full { result ≢ Err Full }
{
    let mut declared = Vec::new(alloc);
    for name in names {
        declared.push(DeclaredName {
            name: *name,
            param: name.place_among(params),
        })?;
    }
    Ok(declared)
}

/// The names that a body declares, and the body prepared for two orders of their keys.
#[derive(Drop)]
struct PreparedBody {
    reads: Vec<DeclaredName>,
    writes: Vec<DeclaredName>,
    rising: PlacedBody,
    falling: PlacedBody,
}

/// Prepares a body that declares these names. The keys are the parameters among them.
fn prepared(
    alloc: Global,
    keys: &[Key],
    reads: &[Key],
    writes: &[Key],
    terms: &[TermRow],
    rows: &[StmtRow],
    locals: &[u32],
) -> Result<PreparedBody, LogFault>
    requires lets { length locals.now ≤ length rows.now }
    requires few_reads { length reads.now ≤ most_keys }
    requires few_writes { length writes.now ≤ most_keys }
    ensures reads { IfOk result (λ r. r.reads.items ≡ map (declared_name keys.now) reads.now) }
    ensures writes { IfOk result (λ r. r.writes.items ≡ map (declared_name keys.now) writes.now) }
    ensures rising { IfOk result (λ r. IsPlaced terms.now rows.now locals.now
        (range_with_len 0 (length reads.now)) (range_with_len 0 (length writes.now)) r.rising) }
    ensures falling { IfOk result
        (λ r. IsPlaced terms.now rows.now locals.now (1 ∷ 0 ∷ []) (1 ∷ 0 ∷ []) r.falling) }
    ensures full { result ≡ Err Full → 2 ^ 32 ≤ length terms.now + length locals.now }
{
    let (rising, falling) = placed_bodies(alloc, terms, rows, locals, reads.len(), writes.len())?;
    let reads = declared_names(alloc, reads, keys)?;
    let writes = declared_names(alloc, writes, keys)?;
    Ok(PreparedBody {
        reads,
        writes,
        rising,
        falling,
    })
}

impl Template {
    /// How many key parameters it has.
    pub fn keys_len(&self) -> usize
        ensures { result ≡ length self.now.keys }
    {
        self.keys.len()
    }

    /// How many value parameters it has.
    #[tactic(auto, using(crate::proofs::Viewing::mapped_length))]
    pub fn values_len(&self) -> usize
        ensures { result ≡ length self.now.values }
    {
        self.values.len()
    }

    /// Its edition, which determines its meaning.
    pub fn edition(&self) -> Edition
        ensures { result ≡ self.now.edition }
    {
        self.edition
    }

    /// The procedure whose own instance was read: it begins with a statement for each value, and
    /// these statements have no more terms than there are values. It fails with `Full` only if the
    /// terms, the statements and the values are 2^32 or more.
    pub fn new<S: BuildHasher + Drop>(
        alloc: Global,
        draft: Draft<S>,
        keys: Vec<Key>,
        values: &[Key],
    ) -> Result<Template, LogFault>
        requires lets { length values.now ≤ length draft.txn.body }
        requires short { sum_by stmt_terms (take (length values.now) draft.txn.body)
            + open_terms draft ≤ length values.now }
        requires few_reads { length draft.txn.reads ≤ most_keys }
        requires few_writes { length draft.txn.writes ≤ most_keys }
        requires reads { AllByRecursion (StmtReads (IsAmong draft.txn.reads)) draft.txn.body }
        requires writes { AllByRecursion (StmtWrites (IsAmong draft.txn.writes)) draft.txn.body }
        ensures ok { IfOk result (λ t. t ≡ procedure_with draft.txn keys.items values.now) }
        ensures full { result ≡ Err Full → 2 ^ 32 ≤ size_of draft + length values.now }
    {
        let (edition, mut columns) = draft.into_parts();
        let mut places = Vec::new(alloc);
        place_names(&mut columns.others, &mut places, values)?;
        let names = Vec::from_slice(alloc, columns.others.as_slice())?;
        let PreparedBody {
            reads,
            writes,
            rising,
            falling,
        } = prepared(
            alloc,
            keys.as_slice(),
            columns.reads.as_slice(),
            columns.writes.as_slice(),
            columns.terms.as_slice(),
            columns.rows.as_slice(),
            places.as_slice(),
        )?;
        let same_sets = are_same(columns.reads.as_slice(), columns.writes.as_slice());
        let DraftColumns {
            large,
            terms,
            rows,
            ..
        } = columns;
        are_names(keys.as_slice());
        are_names(values);
        Ok(Template {
            edition,
            keys,
            values: places,
            body: BodyColumns {
                reads,
                writes,
                same_sets,
                others: names,
                large,
                terms,
                rows,
                rising,
                falling,
            },
        })
    }
}
