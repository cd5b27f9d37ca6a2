//! Going on to a child of the place at which a builder works.
ghost use Rattle.fr_store.specs.Common.{AllStayPut, AtTop, IsKept, IsOpen, IsOpenAt, IsOpened, Plan, OnErr, OnOk, SameMarks, SameTokens, Shows, MayHave, StoresNoMore, [], as_tracker, base_of_tracker, changed_here, cursor_in, def_of, false, heap_of, kid_here, length, opened_as, shape_of, tree_here, ℕ};
ghost use Rattle.fr_frame.specs.Bodies.{MayOpen};
ghost use Rattle.std.specs.Prelude.{IfSome, IsNone, ◌++◌, ◌<◌, ◌∷◌, ◌≡◌};
ghost use Rattle.fr_frame.specs.Heap.{with_mark};
ghost use Rattle.fr_store.specs.StackMoves.{child_number, entered_by, node_by, MayEnter};
ghost use Rattle.fr_store.specs.Stored.{IsStoredBy};
ghost use Rattle.fr_frame.specs.declared.places.ChildWay.{ChildWay as Way};

use crate::{FrameStore, Stack};
use fr_frame::{ChildWay, SlotId, Slots, Tracker};
use fr_plan::{NodeId, TypePlanCore};
use fr_shape::{OutOfMemory, ShapeTable};

/// Takes the child to which a way leads from a place out of the store, where it is stored. Takes no
/// memory.
fn take_stored(
    store: &mut FrameStore,
    slots: &mut Slots,
    above: SlotId,
    way: ChildWay,
) -> Option<SlotId>
    requires kept { IsKept store.old slots.old }
    ensures taken { IfSome result (λ child.
        IsStoredBy way.entry (heap_of slots.old) above.0 child.0) }
    ensures unmarked { IfSome result (λ child.
        Shows slots.new (with_mark (heap_of slots.old) child.0 false)) }
    ensures none { IsNone result → (child : ℕ)
        → IsStoredBy way.entry (heap_of slots.old) above.0 child → ⊥ }
    ensures slots_kept { IsNone result → slots.new ≡ slots.old }
    ensures store_kept { IsNone result → store.new ≡ store.old }
    ensures kept { IsKept store.new slots.new }
    ensures tokens { SameTokens slots.old slots.new }
{
    match way {
        ChildWay::Child(i) => store.take(slots, above, i),
        ChildWay::Item | ChildWay::Key | ChildWay::Entry(_) => None,
    }
}

impl Stack {
    /// Begins the place on top, so that its children can be entered: an entered one has none of so
    /// many children yet, of a whole one each has its part of the value (what an option holds, the
    /// items of a list, a set or a dynamic array, keys and values in turn of a map, the values of
    /// an object), a begun one stays as it is. A map that holds a value is begun over its entries,
    /// an object under its keys.
    pub fn begin(
        &self,
        slots: &mut Slots,
        tracker: Tracker,
        count: usize,
    ) -> Result<(), OutOfMemory>
        requires is_open { IsOpened slots.old self.now }
        requires may_open { AtTop slots.old self.now (λ at. MayOpen (as_tracker tracker) at.body) }
        requires may_have { MayHave (as_tracker tracker) count }
        requires base { base_of_tracker (as_tracker tracker) ≡ 0 }
        ensures begun { OnOk result ((plan : Plan) → IsOpen plan slots.old self.now
            → IsOpenAt plan slots.new self.now
            (cursor_in slots.old self.now)
            (changed_here (opened_as (as_tracker tracker) count) slots.old self.now)) }
        ensures places { AllStayPut (kid_here slots.old self.now) (kid_here slots.new self.now) }
        ensures refused { OnErr result (Shows slots.new (heap_of slots.old)) }
        ensures tokens { SameTokens slots.old slots.new }
        ensures marks { SameMarks slots.old slots.new }
    {
        match self.top() {
            Some(place) => place.begin(slots, tracker, count),
            None => unreachable!(),
        }
    }

    /// Enters a child of the place on top, which is begun, by the way in which it is entered: the
    /// child is on top then. One that holds something keeps it, and one that was stored is taken
    /// out of the store as it is. A place with 4,294,967,295 children gets no new one.
    #[inline(always)]
    pub fn enter(
        &mut self,
        slots: &mut Slots,
        store: &mut FrameStore,
        table: &ShapeTable,
        plan: &TypePlanCore,
        node: NodeId,
        way: ChildWay,
    ) -> Result<(), OutOfMemory>
        requires is_open { IsOpen plan.now slots.old self.old }
        requires kept { IsKept store.old slots.old }
        requires may { MayEnter way (tree_here slots.old self.old) }
        requires node { node ≡ node_by plan.now slots.old self.old way }
        requires planned { node.0 < length plan.now.nodes }
        ensures entered { OnOk result (IsOpenAt plan.now slots.new self.new
            (cursor_in slots.old self.old
            ++ child_number way.entry (tree_here slots.old self.old) ∷ [])
            (changed_here (entered_by way.entry (def_of table.now (shape_of plan.now node)))
            slots.old self.old)) }
        ensures places { OnOk result
            (AllStayPut (kid_here slots.old self.old) (kid_here slots.new self.new)) }
        ensures tokens { SameTokens slots.old slots.new }
        ensures kept { IsKept store.new slots.new }
        ensures marks { StoresNoMore slots.old slots.new }
        ensures new_marks { ((i : ℕ) → way.entry ≡ Way.Child i → ⊥)
            → SameMarks slots.old slots.new }
        ensures slots_kept { OnErr result (Shows slots.new (heap_of slots.old)) }
        ensures child_kept { OnErr result ((i : ℕ) → way.entry ≡ Way.Child i
            → slots.new ≡ slots.old) }
        ensures store_kept { OnErr result (store.new ≡ store.old) }
        ensures refused { OnErr result (self.new ≡ self.old) }
    {
        let Some(above) = self.top() else {
            unreachable!()
        };
        self.push(above)?;
        if let Some(child) = take_stored(store, slots, above, way) {
            self.put_top(child);
            return Ok(());
        }
        match slots.enter_child(table, plan, node, above, way) {
            Ok(child) => {
                self.put_top(child);
                Ok(())
            }
            Err(refused) => {
                self.pop();
                Err(refused)
            }
        }
    }
}
