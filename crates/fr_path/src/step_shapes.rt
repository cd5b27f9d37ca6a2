//! Which shape a step leads to.
ghost use Rattle.std.specs.Prelude.{◌≡◌};
ghost use Rattle.fr_path.specs.StepShapes.{owns, inside_of, item_behind, pointee_behind, element_of, no_parts, parts_of, source_of, shape_after};

use crate::PathStep;
use fr_shape::{Def, FieldRef, KnownPointer, PointerDef, Shape, ShapeId, ShapeTable};

/// The largest array whose elements can be entered.
pub(crate) const MOST_ELEMENTS: u32 = 4096;

/// How what is behind a pointer is entered.
#[derive(Drop)]
pub(crate) enum Inside {
    Whole,
    Text,
    Items(ShapeId),
}

/// The shapes of a place's parts, by the steps that lead to them, where they are known.
#[derive(Drop)]
pub(crate) struct PartShapes {
    index: Option<ShapeId>,
    deref: Option<ShapeId>,
    option_some: Option<ShapeId>,
    map_key: Option<ShapeId>,
    map_value: Option<ShapeId>,
    result_ok: Option<ShapeId>,
    result_err: Option<ShapeId>,
    set_item: Option<ShapeId>,
    entry: Option<ShapeId>,
}

// Whether the pointer is known to be one that owns what it points to.
fn owns(pointer: &PointerDef) -> bool
    ensures { result ≡ owns pointer.now.known }
{
    match pointer.known {
        Some(KnownPointer::Box | KnownPointer::Arc | KnownPointer::Rc) => true,
        Some(KnownPointer::SharedReference) | None => false,
    }
}

fn inside_of(def: &Def) -> Inside
    ensures { result ≡ inside_of def.now }
{
    match def {
        Def::Slice(item) => Inside::Items(*item),
        Def::Str => Inside::Text,
        Def::Scalar(_) | Def::Opaque | Def::Dynamic | Def::Undefined | Def::Other => Inside::Whole,
        Def::Struct(_) | Def::Enum(_) | Def::Option(_) | Def::Result(..) => Inside::Whole,
        Def::List(_) | Def::Map(..) | Def::Set(_) | Def::Array(..) => Inside::Whole,
        Def::Pointer(_) => Inside::Whole,
    }
}

// What an item of a slice is, which is entered at the pointer to the slice.
fn item_behind(table: &ShapeTable, pointer: &PointerDef) -> Option<ShapeId>
    ensures { result ≡ item_behind table.now pointer.now }
{
    let pointee = table.get(pointer.pointee?)?;
    match inside_of(&pointee.def) {
        Inside::Items(item) if pointer.constructible && owns(pointer) => Some(item),
        Inside::Items(_) | Inside::Text | Inside::Whole => None,
    }
}

// What is entered behind the pointer as a whole.
fn pointee_behind(table: &ShapeTable, pointer: &PointerDef) -> Option<ShapeId>
    ensures { result ≡ pointee_behind table.now pointer.now }
{
    let id = pointer.pointee?;
    if !pointer.constructible {
        return None;
    }
    let inside = match table.get(id) {
        Some(pointee) => inside_of(&pointee.def),
        None => Inside::Whole,
    };
    match inside {
        Inside::Items(_) => None,
        Inside::Text if !owns(pointer) => None,
        Inside::Text | Inside::Whole => Some(id),
    }
}

// What an element of an array of `count` is, where the array can be entered.
fn element_of(item: ShapeId, count: u32) -> Option<ShapeId>
    ensures { result ≡ element_of item count }
{
    if 1 <= count && count <= MOST_ELEMENTS {
        Some(item)
    } else {
        None
    }
}

fn no_parts() -> PartShapes
    ensures { result ≡ no_parts }
{
    PartShapes {
        index: None,
        deref: None,
        option_some: None,
        map_key: None,
        map_value: None,
        result_ok: None,
        result_err: None,
        set_item: None,
        entry: None,
    }
}

// The parts of a place that is made so.
fn parts_of(table: &ShapeTable, place: ShapeId, def: &Def) -> PartShapes
    ensures { result ≡ parts_of table.now place def.now }
{
    let mut parts = no_parts();
    match def {
        Def::Array(item, count) => parts.index = element_of(*item, *count),
        Def::List(item) => parts.index = Some(*item),
        Def::Pointer(pointer) => {
            parts.index = item_behind(table, pointer);
            parts.deref = pointee_behind(table, pointer);
        }
        Def::Option(content) => parts.option_some = Some(*content),
        Def::Result(good, bad) => {
            parts.result_ok = Some(*good);
            parts.result_err = Some(*bad);
        }
        Def::Map(key, value) => {
            parts.map_key = Some(*key);
            parts.map_value = Some(*value);
        }
        Def::Set(item) => parts.set_item = Some(*item),
        Def::Dynamic => {
            parts.index = Some(place);
            parts.entry = Some(place);
        }
        Def::Scalar(_) | Def::Str | Def::Opaque | Def::Struct(_) | Def::Enum(_) => {}
        Def::Slice(_) | Def::Undefined | Def::Other => {}
    }
    parts
}

// What a value of this shape is converted from.
fn source_of(shape: &Shape) -> Option<ShapeId>
    ensures { result ≡ source_of shape.now }
{
    if shape.convert.is_none() || matches!(&shape.def, Def::Option(_)) {
        return None;
    }
    shape.builder.or(shape.inner)
}

// What is known of the shape after a step from a place of a known shape.
pub(crate) fn shape_after(table: &ShapeTable, place: ShapeId, step: &PathStep) -> Option<ShapeId>
    ensures { result ≡ shape_after table.now place step.now }
{
    let shape = table.get(place)?;
    let parts = parts_of(table, place, &shape.def);
    match step {
        PathStep::Field(i) => {
            let meant = FieldRef {
                shape: place,
                variant: None,
                index: *i,
            };
            Some(table.field(meant)?.shape)
        }
        PathStep::Index(_) => parts.index,
        PathStep::Deref => parts.deref,
        PathStep::Inner => source_of(shape),
        PathStep::OptionSome => parts.option_some,
        PathStep::Proxy => None,
        PathStep::MapKey(_) => parts.map_key,
        PathStep::MapValue(_) => parts.map_value,
        PathStep::ResultOk => parts.result_ok,
        PathStep::ResultErr => parts.result_err,
        PathStep::SetItem => parts.set_item,
        PathStep::Entry(_) => parts.entry,
    }
}
