//! The place on top of the stack.
ghost use Rattle.std.specs.Prelude.{◌≡◌};
ghost use Rattle.fr_moves.specs.Common.{IsAtWork, LooksLike, body_of, is_map, lacks_last, lacks_value, own_tree, top_shape, top_tree, true};

use crate::parts::Frames;
use fr_frame::PartialValue;
use fr_plan::{TypePlanCore, law_plan_lookups, law_plan_reach};
use fr_shape::ShapeId;

/// The shape of the place on top of the stack, as the plan has it, and what was put there, in which
/// a child that is stored isn't told, but of a map whether the last one is there.
pub fn place_here<'a>(plan: &TypePlanCore, frames: &'a Frames) -> (ShapeId, &'a PartialValue)
    requires at_work { IsAtWork plan.now frames.now }
    ensures shape { result.0.0 ≡ top_shape frames.now }
    ensures partial { LooksLike (own_tree (body_of result.1.now)) (top_tree frames.now) }
    ensures last { is_map (top_tree frames.now) ≡ true
        → lacks_last (body_of result.1.now) ≡ lacks_value (top_tree frames.now) }
{
    law_plan_lookups();
    law_plan_reach();
    let Some(top) = frames.stack.top() else {
        unreachable!()
    };
    match frames.slots.place(top) {
        Some(place) => (plan.node(place.node).shape, &place.partial),
        None => unreachable!(),
    }
}
