//! Which values a place can be set to as they are, and which it converts.
ghost use Rattle.std.specs.Prelude.{◌≡◌};
ghost use Rattle.fr_model.specs.Step.{is_owned_string, is_str, takes_shape};
ghost use Rattle.fr_refusals.specs.SettingDynamic.{converts_at};
ghost use Rattle.fr_shape.specs.Look.{def_of};

use crate::dynamic_places::is_dynamic;
use fr_shape::{Def, ScalarKind, Shape, ShapeId, ShapeTable};

/// Whether the shape is a `str`.
fn is_str(table: &ShapeTable, shape: ShapeId) -> bool
    ensures { result ≡ is_str (def_of table.now shape.0) }
{
    matches!(table.get(shape), Some(Shape { def: Def::Str, .. }))
}

/// Whether the shape is an owned text.
fn is_owned_string(table: &ShapeTable, shape: ShapeId) -> bool
    ensures { result ≡ is_owned_string (def_of table.now shape.0) }
{
    matches!(
        table.get(shape),
        Some(Shape {
            def: Def::Scalar(ScalarKind::String),
            ..
        })
    )
}

/// Whether a place of one shape takes a value of the other.
pub fn takes_shape(table: &ShapeTable, place: ShapeId, given: ShapeId) -> bool
    ensures taken { result ≡ takes_shape table.now place.0 given.0 }
{
    given.0 == place.0 || (is_str(table, place) && is_owned_string(table, given))
}

/// Whether a place of one shape converts a value of the other.
pub fn converts(table: &ShapeTable, place: ShapeId, given: ShapeId) -> bool
    ensures converted { result ≡ converts_at table.now place.0 given.0 }
{
    is_dynamic(table, place) && place.0 != given.0
}
