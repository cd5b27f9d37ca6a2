//! Places that get more children: those that take items, as a list, a set or a pointer to a slice,
//! and those that take entries, a map or a dynamic object.
ghost use Rattle.fr_frame.specs.Common.{IfInUse, IfOk, IsInUse, IsReserved, KeepsReserved, None, OnErr, OnOk, SameTokens, Shows, as_tracker, count_cells, false, heap_of, held_by, is_begun_body, is_list_body, links, option_map, reformed, slots_occur, true, view, with_body, ℕ};
ghost use Rattle.std.specs.Prelude.{IsOk, ◌^◌, ◌+◌, ◌<◌, ◌≡◌};
ghost use Rattle.fr_frame.specs.Growing.{grown, grown_above, MayGrow, MayGrowAbove};
ghost use Rattle.fr_values.specs.Cells.{held_value, value_occurs};
ghost use Rattle.fr_frame.specs.Changes.{IsOwnerInUse};
ghost use Rattle.fr_frame.specs.RawSlots.{stays_list, IsReformed};

use crate::partial_values::{count_children, grow, is_begun, is_list, reform};
use crate::places::{FrameOwner, Growth, Slot, SlotId, Tracker};
use crate::slots::Slots;
use fr_shape::{OutOfMemory, Value};

/// Whether a list that has its items in slots of their own is in the slot, which may leave them
/// there where it is begun so instead.
fn stays_list(slot: &Slot, tracker: &Tracker) -> bool
    ensures { result ≡ stays_list tracker.now slot.now }
{
    match slot {
        Slot::List(place, _) => tracker.keeps_items() && is_list(&place.partial),
        Slot::Free(_) | Slot::Reserved | Slot::Used(_) | Slot::Item(_) => false,
    }
}

/// Lets such a list be begun so instead, and leaves its items there.
fn reform_list(slot: &mut Slot, tracker: Tracker)
    requires { stays_list tracker slot.old ≡ true }
    ensures { IsReformed tracker slot.old slot.new }
{
    match slot {
        Slot::List(place, _) => reform(&mut place.partial, tracker),
        Slot::Free(_) | Slot::Reserved | Slot::Used(_) | Slot::Item(_) => unreachable!(),
    }
}

/// The number of a child. None has the number 4,294,967,295.
pub(crate) fn narrow(number: usize) -> Result<u32, OutOfMemory>
    ensures same { IfOk result (λ narrow. narrow ≡ number) }
    ensures narrow { OnOk result (number + 1 < 2 ^ 32) }
{
    if number >= u32::MAX as usize {
        return Err(OutOfMemory);
    }
    Ok(number as u32)
}

impl SlotId {
    /// Lets a begun place be begun so instead, with the children that it has: so an open pointer to
    /// a slice is closed, or opened again. Takes no memory.
    pub fn reform(self, slots: &mut Slots, tracker: Tracker)
        requires in_use { IsInUse slots.old self.0 }
        ensures reformed { Shows slots.new
            (with_body (heap_of slots.old) self.0 (reformed (as_tracker tracker))) }
        ensures tokens { SameTokens slots.old slots.new }
    {
        if stays_list(slots.entries.get(self.idx()), &tracker) {
            reform_list(slots.entries.get_mut(self.idx()), tracker);
            return;
        }
        let place = slots.place_mut(self);
        reform(&mut place.partial, tracker);
    }
}

impl Slots {
    /// Whether the place is begun as a list or as a pointer to a slice.
    fn is_list(&self, id: SlotId) -> bool
        requires { IsInUse self.now id.0 }
        ensures { IfInUse self.now id.0 (λ at. result ≡ is_list_body at.body) }
    {
        match self.place(id) {
            Some(place) => is_list(&place.partial),
            None => unreachable!(),
        }
    }

    /// Whether the place is begun.
    pub(crate) fn is_begun(&self, id: SlotId) -> bool
        requires { IsInUse self.now id.0 }
        ensures { IfInUse self.now id.0 (λ at. result ≡ is_begun_body at.body) }
    {
        match self.place(id) {
            Some(place) => is_begun(&place.partial),
            None => unreachable!(),
        }
    }

    /// The number of a child that comes behind all children of a place, unless there are too many.
    pub(crate) fn next_child(&self, parent: SlotId) -> Result<u32, OutOfMemory>
        requires { IsInUse self.now parent.0 }
        ensures number { IfOk result (λ number. IfInUse self.now parent.0 (λ above.
            number ≡ count_cells above.body)) }
        ensures narrow { OnOk result (IfInUse self.now parent.0 (λ above.
            count_cells above.body + 1 < 2 ^ 32)) }
    {
        let Some(above) = self.place(parent) else {
            unreachable!()
        };
        narrow(count_children(&above.partial))
    }

    /// More at a begun place, behind the children that it has, and nothing there yet.
    fn grow(&mut self, parent: SlotId, growth: Growth) -> Result<(), OutOfMemory>
        requires { IfInUse self.old parent.0 (λ above. MayGrow growth above.body) }
        ensures grown { OnOk result (Shows self.new
            (with_body (heap_of self.old) parent.0 (grown growth))) }
        ensures refused { OnErr result (Shows self.new (heap_of self.old)) }
        ensures tokens { SameTokens self.old self.new }
        ensures reserved { KeepsReserved self.old self.new }
    {
        let alloc = self.alloc();
        let place = self.place_mut(parent);
        grow(alloc, &mut place.partial, growth)
    }

    /// Lets the place above have a child in this slot, which it gets first, if it is new, and hands
    /// out the value that it had of it. An item of a list gets its room and its slot at once.
    pub(crate) fn take_in(
        &mut self,
        owner: &FrameOwner,
        growth: Option<Growth>,
        id: SlotId,
    ) -> Result<Option<Value>, OutOfMemory>
        requires owner { IsOwnerInUse self.old owner.now }
        requires may { MayGrowAbove growth owner.now (heap_of self.old) }
        requires reserved { IsReserved self.old id.0 }
        ensures linked { OnOk result (Shows self.new
            (links owner.now id.0 (grown_above growth owner.now (heap_of self.old)))) }
        ensures held { IfOk result (λ held. option_map view held
            ≡ held_value (held_by (grown_above growth owner.now (heap_of self.old)) owner.now)) }
        ensures kept { growth ≡ None → IsOk result }
        ensures refused { OnErr result (Shows self.new (heap_of self.old)) }
        ensures tokens { IfOk result (λ held. (t : ℕ) → slots_occur self.old t
            ≡ slots_occur self.new t + value_occurs (option_map view held) t) }
        ensures tokens_kept { OnErr result (SameTokens self.old self.new) }
        ensures reserved { KeepsReserved self.old self.new }
    {
        let Some(growth) = growth else {
            return Ok(self.link(id, owner));
        };
        let FrameOwner::Child(parent, _) = owner else {
            unreachable!()
        };
        match growth {
            Growth::Item if self.is_list(*parent) => {
                self.add_item(*parent, id)?;
                Ok(None)
            }
            growth => {
                self.grow(*parent, growth)?;
                Ok(self.link(id, owner))
            }
        }
    }
}
