//! Compiled bodies of procedures.

ghost use Rattle.std.specs.Prelude.{◌≡◌, map, IfOk, IfSome};
ghost use Rattle.bohm_types.specs.Keys.{place};
ghost use Rattle.bohm_types.specs.Procedure.{procedure_with};
ghost use Rattle.bohm_procedures.specs.Compiling.{IsCompiled};

use bohm_log::TxnView;
use bohm_shapes::{Shape, ShapeFault, make_shape};
use bohm_types::{Key, NoMemory};
use std::alloc::Global;

/// The compiled body of a procedure, and which of its names are parameters.
pub struct Compiled {
    pub shape: Shape,
    /// For each of the shape's names, the index of the key parameter that it is, if it is one.
    pub parameters: Vec<Option<usize>>,
}

// Written out: a derived drop is proved anew in each function that drops such a value.
impl Drop for Compiled {
    fn drop(self) {
        let Self { shape, parameters } = self;
        drop(shape);
        drop(parameters);
    }
}

/// For each name, the index of the parameter that it is.
fn places_among(
    alloc: Global,
    names: &[Key],
    parameters: &[Key],
) -> Result<Vec<Option<usize>>, NoMemory>
    ensures { IfOk result (λ v. v.items ≡ map (place parameters.now) names.now) }
{
    let mut places = Vec::new(alloc);
    for name in names {
        places.push(name.place_among(parameters))?;
    }
    Ok(places)
}

/// Compiles the procedure whose own instance is this transaction. Nothing if its body has no shape.
pub(crate) fn compile(
    alloc: Global,
    own: &TxnView<'_>,
    keys: &[Key],
    values: &[Key],
) -> Result<Option<Compiled>, NoMemory>
    ensures { IfOk result (λ made. IfSome made
        (IsCompiled (procedure_with own.now keys.now values.now))) }
{
    let shape = match make_shape(alloc, own, values) {
        Ok(shape) => shape,
        Err(ShapeFault::Unsound) => return Ok(None),
        Err(ShapeFault::NoMemory) => return Err(NoMemory),
    };
    let parameters = places_among(alloc, shape.names.as_slice(), keys)?;
    Ok(Some(Compiled { shape, parameters }))
}
