//! Slots and their owners: a child that gets a slot, and one that leaves it.
ghost use Rattle.std.specs.Prelude.{◌+◌, ◌<◌, ◌≡◌};
ghost use Rattle.fr_frame.specs.Common.{IfSome, IsInUse, KeepsReserved, Node, SameTokens, Shows, cell_at, depth_below, depth_limit, heap_of, held_by, linked, links, option_and_then, option_map, slots_occur, unlinks, value_occurs, view, with_body, ℕ};
ghost use Rattle.fr_values.specs.Cells.{held_value};
ghost use Rattle.fr_frame.specs.Changes.{IsOwnerInUse};

use crate::partial_values::{link, unlink};
use crate::places::{FrameOwner, SlotId};
use crate::slots::Slots;
use fr_shape::Value;

/// One level deeper, where there is one.
#[tactic(auto, unfolding(crate::specs::Heap::depth_limit))]
fn deeper(depth: u32) -> Option<u32>
    ensures deeper { IfSome result (λ below. below ≡ depth + 1) }
    ensures limit { IfSome result (λ below. below < depth_limit) }
{
    if depth >= u32::MAX - 1 {
        return None;
    }
    Some(depth + 1)
}

impl Slots {
    /// How deep a place lies that belongs there, unless that is too deep.
    #[tactic(auto, unfolding(crate::specs::Heap::depth_limit))]
    pub(crate) fn depth_below(&self, owner: &FrameOwner) -> Option<u32>
        requires { IsOwnerInUse self.now owner.now }
        ensures depth { IfSome result (λ depth.
            depth ≡ depth_below (heap_of self.now) owner.now) }
        ensures limit { IfSome result (λ depth. depth < depth_limit) }
    {
        match owner {
            FrameOwner::Root => Some(0),
            FrameOwner::Child(parent, _) => match self.place(*parent) {
                Some(above) => deeper(above.depth),
                None => unreachable!(),
            },
        }
    }

    fn link_child(&mut self, parent: SlotId, i: u32, id: SlotId) -> Option<Value>
        requires { IsInUse self.old parent.0 }
        ensures rest { Shows self.new
            (with_body (heap_of self.old) parent.0 (linked id.0 i)) }
        ensures taken { option_map view result ≡ held_value (option_and_then
            (λ (at : Node). cell_at at.body i) (heap_of self.old parent.0)) }
        ensures tokens { (t : ℕ) → slots_occur self.old t
            ≡ slots_occur self.new t + value_occurs (option_map view result) t }
        ensures reserved { KeepsReserved self.old self.new }
    {
        let place = self.place_mut(parent);
        link(&mut place.partial, i, id)
    }

    /// Lets the owner of a place have it in this slot, and hands out the value that it had there,
    /// if it had one.
    pub(crate) fn link(&mut self, id: SlotId, owner: &FrameOwner) -> Option<Value>
        requires { IsOwnerInUse self.old owner.now }
        ensures rest { Shows self.new (links owner.now id.0 (heap_of self.old)) }
        ensures taken { option_map view result
            ≡ held_value (held_by (heap_of self.old) owner.now) }
        ensures tokens { (t : ℕ) → slots_occur self.old t
            ≡ slots_occur self.new t + value_occurs (option_map view result) t }
        ensures reserved { KeepsReserved self.old self.new }
    {
        match owner {
            FrameOwner::Root => None,
            FrameOwner::Child(parent, i) => self.link_child(*parent, *i, id),
        }
    }

    /// Lets the owner of a place not have it in this slot any more.
    pub(crate) fn unlink(&mut self, id: SlotId, owner: &FrameOwner)
        ensures rest { Shows self.new (unlinks owner.now id.0 (heap_of self.old)) }
        ensures tokens { SameTokens self.old self.new }
    {
        let FrameOwner::Child(parent, i) = owner else {
            return;
        };
        if self.place(*parent).is_none() {
            return;
        }
        let place = self.place_mut(*parent);
        unlink(&mut place.partial, *i, id);
    }
}
