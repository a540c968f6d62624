//! A call of a procedure.

use crate::shape::Shape;
use crate::slot_keys::SlotKeys;
use bohm_types::Value;

/// A call: the shape of its procedure, the key that each of the shape's names stands for, and its
/// values.
#[derive(Clone, Copy)]
pub struct Call<'a> {
    pub shape: &'a Shape,
    pub keys: &'a SlotKeys<'a>,
    pub values: &'a [Value],
}

impl<'a> Call<'a> {
    ghost use Rattle.std.specs.Prelude.{◌≡◌, IfNone, IfSome};
    ghost use Rattle.bohm_shapes.specs.Calls.{IsCall, Takes};
    ghost use Rattle.bohm_shapes.specs.Running.{IsUsable};

    /// The call with these arguments, or nothing if there aren't as many keys as the shape has
    /// names, or not as many values as it takes, or if a key occurs twice.
    pub fn new(shape: &'a Shape, keys: &'a SlotKeys<'a>, values: &'a [Value]) -> Option<Call<'a>>
        requires { IsUsable shape.now }
        ensures call { IfSome result IsCall }
        ensures shape { IfSome result (λ c. c.shape.now ≡ shape.now) }
        ensures keys { IfSome result (λ c. c.keys.now ≡ keys.now) }
        ensures values { IfSome result (λ c. c.values.now ≡ values.now) }
        ensures none { IfNone result (¬ Takes shape.now keys.now values.now) }
    {
        if keys.len() != shape.names.len() || values.len() != shape.values {
            return None;
        }
        if !keys.are_apart() {
            return None;
        }
        Some(Call {
            shape,
            keys,
            values,
        })
    }
}
