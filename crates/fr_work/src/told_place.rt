//! What was put at the place on top of the stack, children in slots of their own and all.
ghost use Rattle.std.specs.Prelude.{◌≡◌};
ghost use Rattle.fr_work.specs.Common.{IsAtWork, body_of, node_here, top_tree};
ghost use Rattle.fr_work.specs.PlaceTold.{Says};

use fr_frame::PartialValue;
use fr_moves::Frames;
use fr_plan::{NodeId, TypePlanCore};

/// The plan's node of the place on top of the stack, and what was put there.
pub fn told_here<'a>(plan: &TypePlanCore, frames: &'a Frames) -> (NodeId, &'a PartialValue)
    requires { IsAtWork plan.now frames.now }
    ensures node { result.0 ≡ node_here plan.now frames.now.slots frames.now.stack }
    ensures says { Says frames.now.slots (body_of result.1.now) (top_tree frames.now) }
{
    let Some(top) = frames.stack.top() else {
        unreachable!()
    };
    match frames.slots.place(top) {
        Some(place) => (place.node, &place.partial),
        None => unreachable!(),
    }
}
