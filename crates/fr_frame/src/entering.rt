//! Entering a place.
ghost use Rattle.fr_frame.specs.Common.{IfInUse, IfOk, None, OnErr, OnOk, SameTokens, Shows, def_of, depth_below, depth_limit, entry_found, heap_of, keys_apart, keys_in, length, shape_of, true, with_entered, ℕ};
ghost use Rattle.std.specs.Prelude.{◌<◌, ◌≡◌};
ghost use Rattle.fr_frame.specs.Bodies.{IsObjectBody};
ghost use Rattle.fr_frame.specs.Changes.{IsOwnerInUse};
ghost use Rattle.fr_frame.specs.Growing.{grown_above, number_by, widened, IsNarrowBy, MayEnter, MayGrowAbove};
ghost use Rattle.fr_frame.specs.Kids.{child_owner};
ghost use Rattle.fr_frame.specs.declared.places.ChildWay.{ChildWay as Way};

use crate::growing::narrow;
use crate::object_entries::entry_number;
use crate::partial_values::fresh;
use crate::places::{ChildWay, FrameOwner, Growth, PartialValue, Place, SlotId};
use crate::slots::Slots;
use fr_plan::{NodeId, TypePlanCore};
use fr_shape::{OutOfMemory, ShapeTable, Text};

impl Slots {
    /// The number of the entry that a begun dynamic object has under a key, where it has one, and
    /// the key back.
    fn entry_number(&self, parent: SlotId, key: Text) -> (Option<usize>, Text)
        requires parent { IfInUse self.now parent.0 (λ above. IsObjectBody above.body) }
        requires apart { IfInUse self.now parent.0 (λ above.
            keys_apart (keys_in above.body) ≡ true) }
        ensures number { IfInUse self.now parent.0 (λ above.
            result.0 ≡ entry_found key (keys_in above.body)) }
        ensures key { result.1 ≡ key }
    {
        match self.place(parent) {
            Some(above) => entry_number(&above.partial, key),
            None => unreachable!(),
        }
    }

    /// A slot for a place of this node. The place above gets it first, if it is new. What its owner
    /// held of it goes into the slot, and the owner then knows the slot; an owner that has no such
    /// child, or has it in a slot already, stays as it is.
    fn enter_at(
        &mut self,
        table: &ShapeTable,
        plan: &TypePlanCore,
        node: NodeId,
        owner: FrameOwner,
        growth: Option<Growth>,
    ) -> Result<SlotId, OutOfMemory>
        requires owner { IsOwnerInUse self.old owner }
        requires may { MayGrowAbove growth owner (heap_of self.old) }
        requires planned { node.0 < length plan.now.nodes }
        ensures vacant { IfOk result (λ id. heap_of self.old id.0 ≡ None) }
        ensures entered { IfOk result (λ id. Shows self.new (with_entered
            (def_of table.now (shape_of plan.now node))
            (grown_above growth owner (heap_of self.old)) node owner id.0)) }
        ensures limit { OnOk result (depth_below (heap_of self.old) owner < depth_limit) }
        ensures tokens { SameTokens self.old self.new }
        ensures refused { OnErr result (Shows self.new (heap_of self.old)) }
        ensures kept { OnErr result (growth ≡ None → self.new ≡ self.old) }
    {
        let Some(depth) = self.depth_below(&owner) else {
            return Err(OutOfMemory);
        };
        let id = self.vacant()?;
        let Ok(held) = self.take_in(&owner, growth, id) else {
            self.give_back(id);
            return Err(OutOfMemory);
        };
        let partial = match held {
            Some(value) => PartialValue::Whole(value),
            None => fresh(self.alloc(), table, plan.node(node).shape),
        };
        let place = Place {
            node,
            owner,
            stored: false,
            depth,
            partial,
        };
        self.occupy(id, place);
        Ok(id)
    }

    /// A slot for a place of this node. What its owner held of it goes into the slot, and the owner
    /// then knows the slot; an owner that has no such child, or has it in a slot already, stays as
    /// it is.
    pub fn enter(
        &mut self,
        table: &ShapeTable,
        plan: &TypePlanCore,
        node: NodeId,
        owner: FrameOwner,
    ) -> Result<SlotId, OutOfMemory>
        requires owner { IsOwnerInUse self.old owner }
        requires planned { node.0 < length plan.now.nodes }
        ensures vacant { IfOk result (λ id. heap_of self.old id.0 ≡ None) }
        ensures entered { IfOk result (λ id. Shows self.new (with_entered
            (def_of table.now (shape_of plan.now node)) (heap_of self.old) node owner id.0)) }
        ensures limit { OnOk result (depth_below (heap_of self.old) owner < depth_limit) }
        ensures tokens { SameTokens self.old self.new }
        ensures refused { OnErr result (self.new ≡ self.old) }
    {
        self.enter_at(table, plan, node, owner, None)
    }

    /// The number of the child to which a way leads from a place, and what the place has to get
    /// first, if the child is new. Finds a key without looking at each.
    fn child_by(&self, parent: SlotId, way: ChildWay) -> Result<(u32, Option<Growth>), OutOfMemory>
        requires parent { IfInUse self.now parent.0 (λ above. MayEnter way above.body) }
        ensures number { IfOk result (λ child. IfInUse self.now parent.0 (λ above.
            child.0 ≡ number_by way.entry above.body)) }
        ensures narrow { OnOk result (IfInUse self.now parent.0 (λ above.
            IsNarrowBy way.entry above.body)) }
        ensures may { IfOk result (λ child. MayGrowAbove child.1 (child_owner parent.0 child.0)
            (heap_of self.now)) }
        ensures grown { IfOk result (λ child. widened way.entry parent.0 (heap_of self.now)
            ≡ grown_above child.1 (child_owner parent.0 child.0) (heap_of self.now)) }
        ensures there { IfOk result (λ child. (i : ℕ) → way.entry ≡ Way.Child i
            → child.1 ≡ None) }
    {
        match way {
            ChildWay::Child(i) => Ok((i, None)),
            ChildWay::Item => Ok((self.next_child(parent)?, Some(Growth::Item))),
            ChildWay::Key => Ok((self.next_child(parent)?, Some(Growth::Entry))),
            ChildWay::Entry(key) => {
                let name = Text::new(self.alloc(), key)?;
                match self.entry_number(parent, name) {
                    (Some(i), _) => Ok((narrow(i)?, None)),
                    (None, name) => Ok((self.next_child(parent)?, Some(Growth::EntryFor(name)))),
                }
            }
        }
    }

    /// A slot for a child, of this node, of the begun place in a slot, by the way in which it is
    /// entered. What the place held of it goes into the slot. No item, key and value under a key
    /// gets the number 4,294,967,295.
    pub fn enter_child(
        &mut self,
        table: &ShapeTable,
        plan: &TypePlanCore,
        node: NodeId,
        parent: SlotId,
        way: ChildWay,
    ) -> Result<SlotId, OutOfMemory>
        requires parent { IfInUse self.old parent.0 (λ above. MayEnter way above.body) }
        requires planned { node.0 < length plan.now.nodes }
        ensures vacant { IfOk result (λ id. heap_of self.old id.0 ≡ None) }
        ensures entered { IfOk result (λ id. IfInUse self.old parent.0 (λ above.
            Shows self.new (with_entered (def_of table.now (shape_of plan.now node))
            (widened way.entry parent.0 (heap_of self.old)) node
            (child_owner parent.0 (number_by way.entry above.body)) id.0))) }
        ensures limit { OnOk result (IfInUse self.old parent.0 (λ above. depth_below
            (heap_of self.old) (child_owner parent.0 (number_by way.entry above.body))
            < depth_limit)) }
        ensures narrow { OnOk result (IfInUse self.old parent.0 (λ above.
            IsNarrowBy way.entry above.body)) }
        ensures tokens { SameTokens self.old self.new }
        ensures refused { OnErr result (Shows self.new (heap_of self.old)) }
        ensures child_refused { OnErr result ((i : ℕ) → way.entry ≡ Way.Child i
            → self.new ≡ self.old) }
    {
        let (number, growth) = self.child_by(parent, way)?;
        self.enter_at(table, plan, node, FrameOwner::Child(parent, number), growth)
    }
}
