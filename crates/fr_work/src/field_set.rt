//! Whether a field of the place at which a builder works is set.
ghost use Rattle.std.specs.Prelude.{is_some, not, ◌≡◌};
ghost use Rattle.fr_frame.specs.Heap.{body_of};
ghost use Rattle.fr_model.specs.Collections.{is_hole};
ghost use Rattle.fr_model.specs.Tree.{tree_nth};
ghost use Rattle.fr_work.specs.Common.{def_of, field_in};
ghost use Rattle.fr_shape.specs.Fills.{is_empty_struct};
ghost use Rattle.fr_work.specs.PlaceTold.{seen_children, seen_tree};
ghost use Rattle.fr_work.specs.Readings.{field_set, is_set_at};
ghost use Rattle.fr_moves.specs.Sites.{shape_at, tree_at_site};

use crate::told_place::told_here;
use crate::work::Work;
use fr_frame::{Children, ContentKind, PartialValue, Tracker, field_of};
use fr_shape::{Reason, ReflectErrorKind, ShapeId, ShapeTable};

/// Whether a child is there.
fn is_child_there(children: &Children, i: usize) -> bool
    ensures { result ≡ not (is_hole (tree_nth i (seen_children children.now))) }
{
    if i >= children.len() {
        return false;
    }
    match children.value(i) {
        Some(_) => true,
        None => children.slot(i).is_some(),
    }
}

/// Whether a shape is a struct without fields.
fn is_empty_struct(table: &ShapeTable, shape: ShapeId) -> bool
    ensures { result ≡ is_empty_struct (def_of table.now shape.0) }
{
    match table.get(shape) {
        Some(entry) => entry.def.is_empty_struct(),
        None => false,
    }
}

/// Whether a field is set of a place of this shape that is begun with its fields.
fn field_set(
    table: &ShapeTable,
    shape: ShapeId,
    variant: Option<u32>,
    children: &Children,
    index: usize,
) -> Result<bool, ReflectErrorKind>
    ensures { result ≡ field_set table.now (is_some variant)
        (field_in (def_of table.now shape.0) variant index)
        (tree_nth index (seen_children children.now)) }
{
    let Some(field) = field_of(table, shape, variant, index) else {
        let reason = Reason::NoSuchField;
        return Err(ReflectErrorKind::InvalidOperation { reason });
    };
    let is_there = is_child_there(children, index);
    Ok(is_there || (variant.is_some() && is_empty_struct(table, field.shape)))
}

/// Whether a field is set of a place of this shape, where this was put.
fn is_set_at(
    table: &ShapeTable,
    shape: ShapeId,
    partial: &PartialValue,
    index: usize,
) -> Result<bool, ReflectErrorKind>
    ensures { result
        ≡ is_set_at table.now shape.0 (seen_tree (body_of partial.now)) index }
{
    let reason = match partial {
        PartialValue::Entered => return Ok(false),
        PartialValue::Whole(_) => return Ok(true),
        PartialValue::Begun(Tracker::Fields(variant), children) => {
            return field_set(table, shape, *variant, children, index);
        }
        PartialValue::Begun(
            Tracker::Content(ContentKind::Some | ContentKind::Ok | ContentKind::Err),
            _,
        ) => {
            if index == 0 {
                return Ok(true);
            }
            Reason::NoSuchField
        }
        PartialValue::Begun(
            Tracker::Content(ContentKind::Pointer | ContentKind::Source(_))
            | Tracker::Elements
            | Tracker::Items(_)
            | Tracker::Entries(_),
            _,
        ) => Reason::NotAProduct,
    };
    Err(ReflectErrorKind::InvalidOperation { reason })
}

impl<'t> Work<'t> {
    /// Whether the field of this number is set at the place at which the builder works.
    pub fn is_field_set(&self, index: usize) -> Result<bool, ReflectErrorKind>
        ensures set { result
            ≡ is_set_at self.now.shapes (shape_at self.now) (tree_at_site self.now) index }
    {
        let (table, shape, _) = self.place();
        let parts = &*self.parts;
        let (_, partial) = told_here(parts.plan.core(), &parts.frames);
        is_set_at(table, shape, partial, index)
    }
}
