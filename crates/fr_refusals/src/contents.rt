//! Which places have a content: options and results.
ghost use Rattle.std.specs.Prelude.{IfNone, IfSome, false, true, ◌≡◌};
ghost use Rattle.fr_model.specs.Contents.{is_result};
ghost use Rattle.fr_model.specs.Places.{content_shape};
ghost use Rattle.fr_shape.specs.Fills.{is_option};
ghost use Rattle.fr_shape.specs.Look.{def_of};

use fr_shape::{Def, Shape, ShapeId, ShapeTable};

/// What an option of this shape holds, if it is one.
pub fn content_of(table: &ShapeTable, shape: ShapeId) -> Option<ShapeId>
    ensures content { IfSome result (λ content.
        content.0 ≡ content_shape (def_of table.now shape.0)) }
    ensures some { IfSome result (λ content. is_option (def_of table.now shape.0) ≡ true) }
    ensures none { IfNone result (is_option (def_of table.now shape.0) ≡ false) }
{
    match &table.get(shape)?.def {
        Def::Option(content) => Some(*content),
        _ => None,
    }
}

/// Whether the shape is a result.
pub fn is_result(table: &ShapeTable, shape: ShapeId) -> bool
    ensures sides { result ≡ is_result (def_of table.now shape.0) }
{
    matches!(
        table.get(shape),
        Some(Shape {
            def: Def::Result(_, _),
            ..
        })
    )
}
