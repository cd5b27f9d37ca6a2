//! The place above the one at which the builder works: what it takes as that ends, and the field that
//! the builder's place is of it.
ghost use Rattle.std.specs.Option.{option_copied};
ghost use Rattle.std.specs.Prelude.{◌≡◌};
ghost use Rattle.fr_work.specs.Common.{as_tracker, body_of, def_of, false, is_begun_conversion, is_begun_dynamic, is_root, is_set, own_tree};
ghost use Rattle.fr_model.specs.DynamicPlaces.{is_dynamic_tracker};
ghost use Rattle.fr_model.specs.Step.{is_dynamic_part, is_set_item, is_source_place};
ghost use Rattle.fr_model.specs.Tree.{cursor_field, field_below};

use crate::work::Work;
use fr_frame::{EntriesKind, FrameOwner, ItemsKind, PartialValue, Tracker, field_of};
use fr_plan::{law_plan_lookups, law_plan_reach};
use fr_refusals::{is_conversion, is_set};
use fr_shape::{Field, ShapeId};

/// Whether a place that is begun so is a dynamic value.
fn is_dynamic(tracker: &Tracker) -> bool
    ensures { result ≡ is_dynamic_tracker (as_tracker tracker.now) }
{
    matches!(
        tracker,
        Tracker::Items(ItemsKind::Array) | Tracker::Entries(EntriesKind::Object(_))
    )
}

impl<'t> Work<'t> {
    /// The shape of the place above the one at which the builder works, what was put there, and
    /// which of its children the builder's place is: whether it is a set, a dynamic value or a
    /// conversion, and which field the builder's place is, can be told by these.
    fn place_above(&self) -> (ShapeId, &PartialValue, u32)
        requires below { is_root self.now.state.cursor ≡ false }
        ensures set { is_set (own_tree (body_of result.1.now)) ≡ is_set_item self.now.state }
        ensures dynamic { is_begun_dynamic (own_tree (body_of result.1.now))
            ≡ is_dynamic_part self.now.state }
        ensures source { is_begun_conversion (own_tree (body_of result.1.now))
            ≡ is_source_place self.now.state }
        ensures field { field_below (def_of self.now.shapes result.0.0) result.2
            (own_tree (body_of result.1.now))
            ≡ cursor_field self.now.shapes self.now.root self.now.state }
    {
        law_plan_lookups();
        law_plan_reach();
        let parts = &*self.parts;
        let (plan, frames) = (parts.plan.core(), &parts.frames);
        let Some(top) = frames.stack.top() else {
            unreachable!()
        };
        let Some(place) = frames.slots.place(top) else {
            unreachable!()
        };
        let FrameOwner::Child(parent, number) = &place.owner else {
            unreachable!()
        };
        match frames.slots.place(*parent) {
            Some(above) => (plan.node(above.node).shape, &above.partial, *number),
            None => unreachable!(),
        }
    }

    /// Whether the place at which the builder works is an item of a set.
    pub fn is_set_item(&self) -> bool
        requires below { is_root self.now.state.cursor ≡ false }
        ensures in_set { result ≡ is_set_item self.now.state }
    {
        match self.place_above().1 {
            PartialValue::Begun(tracker, _) => is_set(tracker),
            PartialValue::Entered | PartialValue::Whole(_) => false,
        }
    }

    /// Whether it is an element or an entry of a dynamic value.
    pub fn is_dynamic_part(&self) -> bool
        requires below { is_root self.now.state.cursor ≡ false }
        ensures part { result ≡ is_dynamic_part self.now.state }
    {
        match self.place_above().1 {
            PartialValue::Begun(tracker, _) => is_dynamic(tracker),
            PartialValue::Entered | PartialValue::Whole(_) => false,
        }
    }

    /// Whether it is the source of a conversion.
    pub fn is_source(&self) -> bool
        requires below { is_root self.now.state.cursor ≡ false }
        ensures source { result ≡ is_source_place self.now.state }
    {
        is_conversion(self.place_above().1)
    }

    /// The field that the place at which the builder works is, if it is one.
    pub fn field_here(&self) -> Option<&Field>
        ensures field { option_copied result
            ≡ cursor_field self.now.shapes self.now.root self.now.state }
    {
        if self.depth() == 0 {
            return None;
        }
        let (shape, partial, number) = self.place_above();
        match partial {
            PartialValue::Begun(Tracker::Fields(variant), _) => {
                field_of(self.table(), shape, *variant, number as usize)
            }
            PartialValue::Entered | PartialValue::Whole(_) | PartialValue::Begun(..) => None,
        }
    }
}
