//! Why what a pointer points to isn't begun; and pointers to slices, open for items or closed.
ghost use Rattle.std.specs.Prelude.{None, is_some, ◌≡◌};
ghost use Rattle.fr_frame.specs.Bodies.{own_tree};
ghost use Rattle.fr_frame.specs.Heap.{body_of};
ghost use Rattle.fr_model.specs.Contents.{inside_refusal, is_slice, kept_slice, pointer_refusal, points_to_slice};
ghost use Rattle.fr_model.specs.Items.{is_open_slice, shared_slice_by, shared_slice_refusal};
ghost use Rattle.fr_path.specs.StepShapes.{owns};
ghost use Rattle.fr_refusals.specs.Modes.{mode_of};
ghost use Rattle.fr_shape.specs.Look.{def_of};

use crate::mode::Mode;
use fr_frame::{ItemsKind, PartialValue, Tracker};
use fr_shape::{Def, KnownPointer, Operation, PointerDef, Shape, ShapeId, ShapeTable};

/// Whether the pointer is known to own what it points to.
fn owns(pointer: &PointerDef) -> bool
    ensures { result ≡ owns pointer.now.known }
{
    matches!(
        pointer.known,
        Some(KnownPointer::Box | KnownPointer::Arc | KnownPointer::Rc)
    )
}

/// Why what such a pointer points to can't be entered as a whole, if it can't.
fn inside_refusal(table: &ShapeTable, owned: bool, pointee: ShapeId) -> Option<Operation>
    ensures { result ≡ inside_refusal owned (def_of table.now pointee.0) }
{
    match &table.get(pointee)?.def {
        Def::Slice(_) if !owned => Some(Operation::SlicePointerNotBuildable),
        Def::Str if !owned => Some(Operation::PointeeNotBuildable),
        _ => None,
    }
}

/// Why what a place of this shape points to can't be begun, if it can't.
pub fn pointer_refusal(table: &ShapeTable, shape: ShapeId) -> Option<Operation>
    ensures refused { result ≡ pointer_refusal table.now (def_of table.now shape.0) }
{
    match table.get(shape) {
        Some(
            Shape {
                def: Def::Pointer(pointer),
                ..
            },
        ) if pointer.constructible => {
            match pointer.pointee {
                Some(pointee) => inside_refusal(table, owns(pointer), pointee),
                None => Some(Operation::PointerWithoutPointee),
            }
        }
        _ => Some(Operation::PointerNotConstructible),
    }
}

/// Whether the shape is a slice.
fn is_slice(table: &ShapeTable, shape: ShapeId) -> bool
    ensures { result ≡ is_slice (def_of table.now shape.0) }
{
    matches!(
        table.get(shape),
        Some(Shape {
            def: Def::Slice(_),
            ..
        })
    )
}

/// Whether a place of this shape, which can be begun as a pointer, points to a slice.
pub fn points_to_slice(table: &ShapeTable, shape: ShapeId) -> bool
    requires admitted { pointer_refusal table.now (def_of table.now shape.0) ≡ None }
    ensures slice { result ≡ points_to_slice table.now (def_of table.now shape.0) }
{
    match table.get(shape) {
        Some(
            Shape {
                def: Def::Pointer(pointer),
                ..
            },
        ) => match pointer.pointee {
            Some(pointee) => is_slice(table, pointee),
            None => false,
        },
        _ => false,
    }
}

/// Why a pointer isn't one to a borrowed slice, if it isn't.
fn shared_slice_by(table: &ShapeTable, pointer: &PointerDef) -> Option<Operation>
    ensures { result ≡ shared_slice_by table.now pointer.now.known pointer.now.pointee }
{
    match (pointer.known, pointer.pointee) {
        (Some(KnownPointer::SharedReference), Some(pointee)) if is_slice(table, pointee) => None,
        (Some(KnownPointer::SharedReference), Some(_)) => Some(Operation::PointeeNotSlice),
        (Some(KnownPointer::SharedReference), None) => {
            Some(Operation::SharedReferenceWithoutPointee)
        }
        _ => Some(Operation::NotSharedReference),
    }
}

/// Why a place of this shape can't be set to an empty borrowed slice, if it can't.
pub fn shared_slice_refusal(table: &ShapeTable, shape: ShapeId) -> Option<Operation>
    ensures refused { result ≡ shared_slice_refusal table.now (def_of table.now shape.0) }
{
    match table.get(shape) {
        Some(
            Shape {
                def: Def::Pointer(pointer),
                ..
            },
        ) => shared_slice_by(table, pointer),
        _ => Some(Operation::NotSharedReference),
    }
}

/// Whether the place is a pointer to a slice that is open for items.
#[inline]
pub fn is_open_slice(partial: &PartialValue) -> bool
    ensures open_slice { result ≡ is_open_slice (own_tree (body_of partial.now)) }
{
    matches!(
        partial,
        PartialValue::Begun(Tracker::Items(ItemsKind::Slice), _)
    )
}

/// Whether a pointer to a slice keeps its items where it is opened: in deferred mode one that is
/// begun, open or closed.
pub fn keeps_items(mode: Mode, partial: &PartialValue) -> bool
    ensures kept { result ≡ is_some (kept_slice (mode_of mode) (own_tree (body_of partial.now))) }
{
    match mode {
        Mode::Strict => false,
        Mode::Deferred(_) => matches!(
            partial,
            PartialValue::Begun(Tracker::Items(ItemsKind::Slice | ItemsKind::ClosedSlice), _)
        ),
    }
}
