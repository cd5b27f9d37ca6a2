//! The last field on the way to the place at which a builder works.
ghost use Rattle.std.specs.Option.{option_copied};
ghost use Rattle.std.specs.Prelude.{IsNone, None, false, ◌↔◌, ◌≡◌};
ghost use Rattle.fr_model.specs.Tree.{cursor_field, field_below};
ghost use Rattle.fr_work.specs.Common.{IsAtWork, IsLast, body_of, def_of, length, own_tree, path_of, top_place, whole_tree};
ghost use Rattle.fr_work.specs.Readings.{ends_in_field, has_field_step, nearest_along, nearest_field};

use crate::work::Work;
use fr_frame::{FrameOwner, PartialValue, SlotId, Tracker, field_of};
use fr_moves::Frames;
use fr_plan::{TypePlanCore, law_plan_lookups, law_plan_reach};
use fr_shape::{Field, ShapeId, ShapeTable};

/// The field that child `number` of a place of this shape is, where this was put, if it is one.
fn field_below<'a>(
    table: &'a ShapeTable,
    shape: ShapeId,
    partial: &PartialValue,
    number: u32,
) -> Option<&'a Field>
    ensures { option_copied result
        ≡ field_below (def_of table.now shape.0) number (own_tree (body_of partial.now)) }
{
    match partial {
        PartialValue::Begun(Tracker::Fields(variant), _) => {
            field_of(table, shape, *variant, number as usize)
        }
        PartialValue::Entered | PartialValue::Whole(_) | PartialValue::Begun(..) => None,
    }
}

/// The last field on the way to the place in slot `top`, which lies so many levels below the root.
fn nearest_from<'a>(
    plan: &TypePlanCore,
    frames: &'a Frames,
    top: SlotId,
    levels: usize,
) -> Option<&'a Field>
    requires at_work { IsAtWork plan.now frames.now }
    requires last { IsLast frames.now.stack top.0 }
    requires levels { levels ≡ length (top_place frames.now) }
    ensures { option_copied result ≡ nearest_along frames.now.table.now frames.now.root.0 None
        (top_place frames.now) (whole_tree frames.now) }
{
    law_plan_lookups();
    law_plan_reach();
    let mut at = top;
    for _level in 0..levels {
        let Some(place) = frames.slots.place(at) else {
            unreachable!()
        };
        let FrameOwner::Child(parent, number) = &place.owner else {
            unreachable!()
        };
        let Some(above) = frames.slots.place(*parent) else {
            unreachable!()
        };
        let shape = plan.node(above.node).shape;
        if let Some(field) = field_below(frames.table, shape, &above.partial, *number) {
            return Some(field);
        }
        at = *parent;
    }
    None
}

impl<'t> Work<'t> {
    /// The field that the place is at which the builder works, or else the last one on the way to
    /// it.
    fn nearest_here(&self) -> Option<&Field>
        ensures field { option_copied result
            ≡ nearest_field self.now.shapes self.now.root self.now.state }
    {
        let parts = &*self.parts;
        match parts.frames.stack.top() {
            Some(top) => nearest_from(parts.plan.core(), &parts.frames, top, self.depth()),
            None => unreachable!(),
        }
    }

    /// The same.
    pub fn nearest_field(&self) -> Option<&Field>
        ensures field { option_copied result
            ≡ nearest_field self.now.shapes self.now.root self.now.state }
        ensures none { IsNone result ↔ (has_field_step (path_of self.now.state) ≡ false) }
    {
        self.law_sound();
        self.nearest_here()
    }

    /// The field that the place is at which the builder works.
    pub fn parent_field(&self) -> Option<&Field>
        ensures field { option_copied result
            ≡ cursor_field self.now.shapes self.now.root self.now.state }
        ensures none { IsNone result ↔ (ends_in_field (path_of self.now.state) ≡ false) }
    {
        self.law_sound();
        self.field_here()
    }
}
