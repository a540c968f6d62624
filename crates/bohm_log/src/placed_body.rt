//! A procedure's terms and statements, prepared for calls whose keys are at certain indices.

ghost use Rattle.std.specs.Prelude.{◌≡◌, ◌≤◌, ◌+◌, ◌^◌, ◌∷◌, [], Err, length, IfOk};
ghost use Rattle.std.specs.List.{range_with_len};
ghost use Rattle.bohm_types.specs.Limits.{most_keys};
ghost use Rattle.bohm_log.specs.Calling.{IsPlaced};
ghost use Rattle.bohm_log.specs.declared.fault.LogFault.TheVariants.{Full};

use crate::call_places::count_places;
use crate::calling::{add_lets, relocate_rows, relocate_terms};
use crate::fault::LogFault;
use crate::row::{StmtRow, TermRow};
use bohm_types::Value;
use std::alloc::Global;

/// The terms and statements that a call adds, if its keys are at certain indices of its sets and
/// each of its values is one term.
#[derive(Drop)]
pub struct PlacedBody {
    /// All terms but those of the values.
    pub terms: Vec<TermRow>,
    /// The statements: first those that bind the values.
    pub rows: Vec<StmtRow>,
}

impl PlacedBody {
    /// The terms and statements of a body, given the indices of its values' names and the indices
    /// of the keys in the sets.
    fn new(
        alloc: Global,
        terms: &[TermRow],
        rows: &[StmtRow],
        locals: &[u32],
        reads: &[u32],
        writes: &[u32],
    ) -> Result<PlacedBody, LogFault>
        requires lets { length locals.now ≤ length rows.now }
        ensures ok { IfOk result
            (λ b. IsPlaced terms.now rows.now locals.now reads.now writes.now b) }
        ensures full { result ≡ Err Full → 2 ^ 32 ≤ length terms.now + length locals.now }
    {
        let mut placed = PlacedBody {
            terms: Vec::new(alloc),
            rows: Vec::new(alloc),
        };
        let mut zeros = Vec::new(alloc);
        zeros.resize(locals.len(), Value::from(0))?;
        relocate_terms(&mut placed.terms, terms, reads)?;
        add_lets(&mut placed.rows, terms.len(), locals, zeros.as_slice())?;
        relocate_rows(&mut placed.rows, &rows[locals.len()..], reads, writes)?;
        Ok(placed)
    }
}

/// A body prepared for calls whose keys ascend in the procedure's order, and for calls that read
/// and write two keys, the second of which is the lower one. `reads` and `writes` are the numbers
/// of keys that it declares.
pub(crate) fn placed_bodies(
    alloc: Global,
    terms: &[TermRow],
    rows: &[StmtRow],
    locals: &[u32],
    reads: usize,
    writes: usize,
) -> Result<(PlacedBody, PlacedBody), LogFault>
    requires lets { length locals.now ≤ length rows.now }
    requires reads { reads ≤ most_keys }
    requires writes { writes ≤ most_keys }
    ensures rising { IfOk result (λ r. IsPlaced terms.now rows.now locals.now
        (range_with_len 0 reads) (range_with_len 0 writes) r.0) }
    ensures falling { IfOk result
        (λ r. IsPlaced terms.now rows.now locals.now (1 ∷ 0 ∷ []) (1 ∷ 0 ∷ []) r.1) }
    ensures full { result ≡ Err Full → 2 ^ 32 ≤ length terms.now + length locals.now }
{
    let mut read_places = Vec::new(alloc);
    count_places(&mut read_places, reads)?;
    let mut write_places = Vec::new(alloc);
    count_places(&mut write_places, writes)?;
    let rising = PlacedBody::new(
        alloc,
        terms,
        rows,
        locals,
        read_places.as_slice(),
        write_places.as_slice(),
    )?;
    let falling = PlacedBody::new(alloc, terms, rows, locals, &[1, 0], &[1, 0])?;
    Ok((rising, falling))
}
