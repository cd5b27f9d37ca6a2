//! Why no array is begun at a place.
ghost use Rattle.std.specs.Prelude.{IfOk, ◌≡◌};
ghost use Rattle.std.specs.Result.{result_err};
ghost use Rattle.fr_frame.specs.Bodies.{own_tree};
ghost use Rattle.fr_frame.specs.Heap.{body_of};
ghost use Rattle.fr_model.specs.Items.{init_array_refusal};
ghost use Rattle.fr_model.specs.Well.{HasElements};
ghost use Rattle.fr_shape.specs.Look.{def_of};

use fr_frame::{MOST_ELEMENTS, PartialValue};
use fr_shape::{Def, Operation, Shape, ShapeId, ShapeTable};

/// How many elements the array of this shape has, or why it can't be begun.
pub fn array_opening(
    table: &ShapeTable,
    shape: ShapeId,
    partial: &PartialValue,
) -> Result<usize, Operation>
    ensures elements { IfOk result (λ count. HasElements (def_of table.now shape.0) count) }
    ensures refused { result_err result
        ≡ init_array_refusal (def_of table.now shape.0) (own_tree (body_of partial.now)) }
{
    match table.get(shape) {
        Some(
            Shape {
                def: Def::Array(_, count),
                ..
            },
        ) => match partial {
            _ if *count > MOST_ELEMENTS => Err(Operation::ArrayTooLarge),
            PartialValue::Whole(_) => Err(Operation::InitArrayOfBegun),
            PartialValue::Entered | PartialValue::Begun(..) => Ok(*count as usize),
        },
        _ => Err(Operation::InitArrayOfOther),
    }
}
