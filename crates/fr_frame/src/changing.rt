//! Changing what was put at a place that stays in its slot.
ghost use Rattle.std.specs.Prelude.{◌+◌, ◌≡◌};
ghost use Rattle.fr_frame.specs.Common.{IfInUse, IsInUse, IsOk, OnErr, OnOk, Room, RoseBy, SameTokens, Shows, Some, absent, as_tracker, body_occurs, cell_at, given, heap_of, occurs, opened, restarted, slots_occur, view, whole_body, with_body, with_cell, ℕ};
ghost use Rattle.fr_frame.specs.Bodies.{MayOpen};

use crate::partial_values::{open, put_child, release_partial};
use crate::places::{PartialValue, SlotId, Tracker};
use crate::slots::Slots;
use fr_shape::{Ledger, OutOfMemory, Value};
use fr_values::Children;

impl SlotId {
    /// Puts a value in the stead of all that was put at the place, whose tokens are released.
    /// Children in slots of their own stay there. Takes no memory.
    pub fn put(self, slots: &mut Slots, value: Value, ledger: &mut Ledger)
        requires in_use { IsInUse slots.old self.0 }
        requires room { IfInUse slots.old self.0 (λ at. Room (body_occurs at.body) ledger.old) }
        ensures put { Shows slots.new
            (with_body (heap_of slots.old) self.0 (λ old. whole_body (view value))) }
        ensures released { IfInUse slots.old self.0 (λ at.
            RoseBy (body_occurs at.body) ledger.old ledger.new) }
        ensures tokens { IfInUse slots.old self.0 (λ at. (t : ℕ) →
            slots_occur slots.old t + occurs (view value) t
            ≡ slots_occur slots.new t + body_occurs at.body t) }
    {
        let place = slots.place_mut(self);
        let before = std::mem::replace(&mut place.partial, PartialValue::Whole(value));
        release_partial(before, ledger);
    }

    /// Begins the place, so that its children can be entered: an entered one has none of so many
    /// children yet, of a whole one each has its part of the value, a map over its entries and an
    /// object under its keys, and a begun one stays as it is.
    pub fn begin(self, slots: &mut Slots, tracker: Tracker, count: usize) -> Result<(), OutOfMemory>
        requires in_use { IsInUse slots.old self.0 }
        requires may_open { IfInUse slots.old self.0 (λ at. MayOpen (as_tracker tracker) at.body) }
        ensures begun { OnOk result (Shows slots.new
            (with_body (heap_of slots.old) self.0 (opened (as_tracker tracker) count))) }
        ensures refused { OnErr result (Shows slots.new (heap_of slots.old)) }
        ensures tokens { SameTokens slots.old slots.new }
    {
        if slots.is_begun(self) {
            return Ok(());
        }
        let alloc = slots.alloc();
        let place = slots.place_mut(self);
        open(alloc, &mut place.partial, tracker, count)
    }

    /// Begins the place anew, with so many children, none of which is there. The tokens of what was
    /// put at it are released, once there is memory for the children. Children in slots of their
    /// own stay there. Without children it takes no memory.
    pub fn restart(
        self,
        slots: &mut Slots,
        tracker: Tracker,
        count: usize,
        ledger: &mut Ledger,
    ) -> Result<(), OutOfMemory>
        requires in_use { IsInUse slots.old self.0 }
        requires room { IfInUse slots.old self.0 (λ at. Room (body_occurs at.body) ledger.old) }
        ensures restarted { OnOk result (Shows slots.new
            (with_body (heap_of slots.old) self.0 (restarted (as_tracker tracker) count))) }
        ensures released { OnOk result (IfInUse slots.old self.0 (λ at.
            RoseBy (body_occurs at.body) ledger.old ledger.new)) }
        ensures tokens { OnOk result (IfInUse slots.old self.0 (λ at. (t : ℕ) →
            slots_occur slots.old t ≡ slots_occur slots.new t + body_occurs at.body t)) }
        ensures memory { count ≡ 0 → IsOk result }
        ensures slots_kept { OnErr result (slots.new ≡ slots.old) }
        ensures ledger_kept { OnErr result (ledger.new ≡ ledger.old) }
    {
        let children = Children::none_yet(slots.alloc(), count)?;
        let place = slots.place_mut(self);
        let was = std::mem::replace(&mut place.partial, PartialValue::Begun(tracker, children));
        release_partial(was, ledger);
        Ok(())
    }

    /// Puts a value at child `i`, which isn't there yet and is in no slot. Takes no memory.
    pub fn put_child(self, slots: &mut Slots, i: u32, value: Value)
        requires in_use { IsInUse slots.old self.0 }
        requires absent { IfInUse slots.old self.0 (λ at.
            cell_at at.body i ≡ Some absent) }
        ensures put { Shows slots.new (with_body (heap_of slots.old) self.0
            (λ old. with_cell old i (given (view value)))) }
        ensures tokens { (t : ℕ) → slots_occur slots.new t
            ≡ slots_occur slots.old t + occurs (view value) t }
    {
        let place = slots.place_mut(self);
        put_child(&mut place.partial, i, value);
    }
}
