//! What a shape stands for: the first shape behind its wrappers.
ghost use Rattle.std.specs.Prelude.{◌≡◌, unwrap_or};
ghost use Rattle.std.specs.Option.{option_copied};
ghost use Rattle.fr_shape.specs.Look.{settled, settled_shape};
ghost use Rattle.fr_shape.specs.declared.shape.Def.{Def as TheDef};

use crate::{Def, Shape, ShapeId, ShapeTable};

/// The shape that a shape stands for: itself, or, where it is an `Other`, what the shape stands for
/// that it wraps. None where wrapping leads nowhere, or in a ring.
#[tactic(auto, using(crate::proofs::Settled::settled_shape_more))]
pub(crate) fn settle(table: &ShapeTable, id: ShapeId) -> Option<&Shape>
    ensures { option_copied result ≡ settled_shape table.now id.0 }
{
    let mut at = id;
    for step in 0..table.len() {
        let shape = table.get(at)?;
        let Def::Other = &shape.def else {
            return Some(shape);
        };
        at = shape.inner?;
    }
    None
}

/// The definition of that shape.
pub(crate) fn settle_def(table: &ShapeTable, id: ShapeId) -> Option<&Def>
    ensures { unwrap_or (option_copied result) TheDef.Other ≡ settled table.now id.0 }
{
    match settle(table, id) {
        Some(shape) => Some(&shape.def),
        None => None,
    }
}
