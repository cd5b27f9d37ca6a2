//! Looking for a type's own definition in a table.
ghost use Rattle.std.specs.Prelude.{◌≡◌, ◌||◌, nat_eq, option_map, option_and_then, position, IfSome, Some, false};
ghost use Rattle.fr_shape.specs.declared.shape.Shape.{Shape as OneShape};
ghost use Rattle.fr_shape.specs.declared.shape.ShapeId.{ShapeId as Id};
ghost use Rattle.fr_shape.specs.Look.{IsIn};
ghost use Rattle.fr_facet.specs.Facets.{first_own};
ghost use Rattle.fr_facet.specs.Nameable.{named_by};
ghost use Rattle.fr_facet.specs.Own.{is_box, is_box_of, is_list_of, is_opaque, is_option_of, is_result_of, is_scalar_of, is_wanted, kind_number};

use fr_shape::{Def, KnownPointer, ScalarKind, Shape, ShapeId, ShapeTable};

/// A definition that is looked for, the shapes of its parts being known.
#[derive(Clone, Copy)]
pub(crate) enum Wanted {
    Scalar(ScalarKind),
    Opaque,
    Option(ShapeId),
    Result(ShapeId, ShapeId),
    List(ShapeId),
    Box(ShapeId),
}

/// The first shape of this definition.
pub(crate) fn find_first(table: &ShapeTable, wanted: Wanted) -> Option<ShapeId>
    ensures first { option_map (λ (id : Id). id.0) result
        ≡ first_own (λ _ def. is_wanted wanted def) table.now }
    ensures inside { IfSome result (λ (id : Id). IsIn table.now id.0) }
{
    id_of(first_wanted(table.as_slice(), wanted))
}

/// The number of the first shape of this definition. What is looked for is told once, and not at
/// each shape anew.
fn first_wanted(shapes: &[Shape], wanted: Wanted) -> Option<usize>
    ensures { result ≡ position (λ (shape : OneShape). is_wanted wanted shape.def) shapes.now }
{
    let mut each = shapes.iter();
    match wanted {
        Wanted::Scalar(kind) => first_scalar(shapes, kind),
        Wanted::Opaque => each.position(|shape| is_opaque(&shape.def)),
        Wanted::Option(content) => each.position(|shape| is_option_of(&shape.def, content)),
        Wanted::Result(content, error) => {
            each.position(|shape| is_result_of(&shape.def, content, error))
        }
        Wanted::List(item) => each.position(|shape| is_list_of(&shape.def, item)),
        Wanted::Box(pointee) => each.position(|shape| is_box_of(&shape.def, pointee)),
    }
}

/// The number of the first shape that is the scalar. Shapes are passed over by fours.
fn first_scalar(shapes: &[Shape], kind: ScalarKind) -> Option<usize>
    ensures { result ≡ position (λ (shape : OneShape). is_scalar_of kind shape.def) shapes.now }
{
    let mut rest = shapes;
    let mut passed = 0;
    while let [a, b, c, d, after @ ..] = rest {
        if is_among(&a.def, &b.def, &c.def, &d.def, kind) {
            break;
        }
        rest = after;
        passed += 4;
    }
    Some(passed + first_scalar_of_rest(rest, kind)?)
}

/// The number of the first shape that is the scalar. Each shape is looked at by itself.
fn first_scalar_of_rest(rest: &[Shape], kind: ScalarKind) -> Option<usize>
    ensures { result ≡ position (λ (shape : OneShape). is_scalar_of kind shape.def) rest.now }
{
    rest.iter().position(|shape| is_scalar_of(&shape.def, kind))
}

/// Whether one of the four is the scalar. In a loop the compiler would make a branch of the choice
/// in `is_scalar_of`, so this is never inlined.
#[inline(never)]
fn is_among(a: &Def, b: &Def, c: &Def, d: &Def, kind: ScalarKind) -> bool
    ensures { result ≡ (is_scalar_of kind a.now || is_scalar_of kind b.now
        || is_scalar_of kind c.now || is_scalar_of kind d.now) }
{
    is_scalar_of(a, kind) | is_scalar_of(b, kind) | is_scalar_of(c, kind) | is_scalar_of(d, kind)
}

/// The id of this number, if there is one and an id can name it.
pub(crate) fn id_of(number: Option<usize>) -> Option<ShapeId>
    ensures { option_map (λ (id : Id). id.0) result ≡ option_and_then named_by number }
{
    let Ok(named) = u32::try_from(number?) else {
        return None;
    };
    Some(ShapeId(named))
}

/// Whether it is the scalar. A kind is chosen and then compared, since a branch on the definition is
/// often mispredicted where scalars stand among other shapes.
fn is_scalar_of(def: &Def, kind: ScalarKind) -> bool
    ensures { result ≡ is_scalar_of kind def.now }
{
    let own = if let Def::Scalar(own) = def {
        own
    } else {
        other_kind(kind)
    };
    is_same_kind(*own, kind)
}

/// Whether it is a type that the library can't see into.
fn is_opaque(def: &Def) -> bool
    ensures { result ≡ is_opaque def.now }
{
    matches!(def, Def::Opaque)
}

/// Whether it is an option of the shape, told as `is_scalar_of` tells it.
fn is_option_of(def: &Def, content: ShapeId) -> bool
    ensures { result ≡ is_option_of (Some content.0) def.now }
{
    let own = if let Def::Option(own) = def {
        own
    } else {
        other_shape(content)
    };
    is_same(*own, content)
}

/// Whether it is a result of the two shapes.
fn is_result_of(def: &Def, content: ShapeId, error: ShapeId) -> bool
    ensures { result ≡ is_result_of (Some content.0) (Some error.0) def.now }
{
    matches!(def, Def::Result(t, e) if is_same(*t, content) && is_same(*e, error))
}

/// Whether it is a list of the shape, told as `is_scalar_of` tells it.
fn is_list_of(def: &Def, item: ShapeId) -> bool
    ensures { result ≡ is_list_of (Some item.0) def.now }
{
    let own = if let Def::List(own) = def {
        own
    } else {
        other_shape(item)
    };
    is_same(*own, item)
}

/// Whether it is a pointer known as Box that points to the shape.
fn is_box_of(def: &Def, pointee: ShapeId) -> bool
    ensures { result ≡ is_box_of (Some pointee.0) def.now }
{
    let Def::Pointer(pointer) = def else {
        return false;
    };
    match (pointer.known, pointer.pointee) {
        (Some(KnownPointer::Box), Some(t)) => is_same(t, pointee),
        (Some(KnownPointer::Box), None)
        | (Some(KnownPointer::Arc | KnownPointer::Rc | KnownPointer::SharedReference) | None, _) =>
            { false }
    }
}

fn is_same(a: ShapeId, b: ShapeId) -> bool
    ensures { result ≡ nat_eq a.0 b.0 }
{
    a.0 == b.0
}

fn is_same_kind(a: ScalarKind, b: ScalarKind) -> bool
    ensures { result ≡ nat_eq (kind_number a) (kind_number b) }
{
    a == b
}

/// A kind that isn't this one.
fn other_kind(kind: ScalarKind) -> &'static ScalarKind
    ensures { nat_eq (kind_number result.now) (kind_number kind) ≡ false }
{
    if is_same_kind(kind, ScalarKind::Bool) {
        &ScalarKind::Char
    } else {
        &ScalarKind::Bool
    }
}

/// A shape that isn't this one.
fn other_shape(id: ShapeId) -> &'static ShapeId
    ensures { nat_eq result.now.0 id.0 ≡ false }
{
    if id.0 == 0 { &ShapeId(1) } else { &ShapeId(0) }
}
