//! What a field is set to by its default.
ghost use Rattle.std.specs.Prelude.{Err, IfErr, IfOk, Ok, ◌≡◌};
ghost use Rattle.fr_frame.specs.Bodies.{own_tree};
ghost use Rattle.fr_frame.specs.Heap.{body_of};
ghost use Rattle.fr_model.specs.Step.{field_default};
ghost use Rattle.fr_refusals.specs.FieldDefaults.{default_in};

use fr_frame::{PartialValue, field_of, named_refusal, selected};
use fr_shape::{DefaultSource, Field, Operation, ReflectErrorKind, ShapeId, ShapeTable, Template};

/// What a field is set to by its default, or why it can't be.
fn field_default<'a>(
    table: &'a ShapeTable,
    field: &'a Field,
) -> Result<&'a Template, ReflectErrorKind>
    ensures told { IfOk result (λ template. field_default table.now field.now ≡ Ok template.now) }
    ensures refused { IfErr result (λ kind. field_default table.now field.now ≡ Err kind) }
{
    let shape = field.shape;
    match &field.default {
        Some(DefaultSource::Custom(template)) => Ok(template),
        Some(DefaultSource::FromTrait) => match table.preset(shape) {
            Some(template) => Ok(template),
            None => {
                let operation = Operation::NoDefault;
                Err(ReflectErrorKind::OperationFailed { shape, operation })
            }
        },
        None => match table.preset(shape) {
            Some(template) => Ok(template),
            None => Err(ReflectErrorKind::DefaultAttrButNoDefaultImpl { shape }),
        },
    }
}

/// The default of field `i` of a place of this shape, or why the field can't be set to one.
pub fn default_in<'a>(
    table: &'a ShapeTable,
    shape: ShapeId,
    partial: &PartialValue,
    i: usize,
) -> Result<&'a Template, ReflectErrorKind>
    ensures told { IfOk result (λ template.
        default_in table.now shape.0 (own_tree (body_of partial.now)) i ≡ Ok template.now) }
    ensures refused { IfErr result (λ kind.
        default_in table.now shape.0 (own_tree (body_of partial.now)) i ≡ Err kind) }
{
    if let Some(operation) = named_refusal(table, shape, partial) {
        return Err(ReflectErrorKind::OperationFailed { shape, operation });
    }
    match field_of(table, shape, selected(partial), i) {
        Some(field) => field_default(table, field),
        None => {
            let operation = Operation::FieldIndexOutOfBounds;
            Err(ReflectErrorKind::OperationFailed { shape, operation })
        }
    }
}
