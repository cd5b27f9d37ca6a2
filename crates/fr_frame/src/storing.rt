//! Places that are left half done and entered again: their mark, and the slot that a child is in.
ghost use Rattle.std.specs.Prelude.{◌≡◌};
ghost use Rattle.fr_frame.specs.Common.{Becomes, Conserved, IfInUse, IsInUse, IsOk, IsSome, OnErr, OnOk, Room, RoseBy, SameTokens, Shows, Some, Val, body_occurs, body_of, body_with, cell_at, false, heap_of, held_items, is_used, option_and_then, option_map, slot_of_cell, slots_occur, takes_memory, true, value_of, whole_body, with_mark};
ghost use Rattle.fr_frame.specs.Heap.{child_slot, marked};
ghost use Rattle.fr_frame.specs.RawSlots.{with_stored};
ghost use Rattle.fr_frame.specs.declared.places.SlotId.{SlotId as Number};

use crate::draining::holds_item;
use crate::partial_values::{count_children, is_list, release_partial, slot_at};
use crate::places::{PartialValue, Slot, SlotId};
use crate::slots::Slots;
use fr_arena::{Arena, ListRope};
use fr_shape::Ledger;

impl SlotId {
    /// Marks the place as stored, or as not stored. Takes no memory.
    pub fn mark(self, slots: &mut Slots, stored: bool)
        requires in_use { IsInUse slots.old self.0 }
        ensures marked { Shows slots.new (with_mark (heap_of slots.old) self.0 stored) }
        ensures tokens { SameTokens slots.old slots.new }
    {
        mark_slot(slots.entries.get_mut(self.idx()), stored);
    }

    /// Whether a place is in the slot, and stored.
    pub fn is_stored(self, slots: &Slots) -> bool
        ensures stored { result ≡ marked (heap_of slots.now) self.0 }
    {
        match slots.place(self) {
            Some(place) => place.stored,
            None => false,
        }
    }

    /// The slot of child `i`, where the place is begun, has that child, and has it in a slot.
    pub fn child(self, slots: &Slots, i: u32) -> Option<SlotId>
        ensures slot { option_map (λ (child : Number). child.0) result
            ≡ child_slot (heap_of slots.now) self.0 i }
    {
        slots.child_slot(self, i as usize)
    }
}

/// Marks the place in a slot as stored, or as not stored.
fn mark_slot(slot: &mut Slot, stored: bool)
    requires { is_used slot.old ≡ true }
    ensures { slot.new ≡ with_stored stored slot.old }
{
    match slot {
        Slot::Used(place) => place.stored = stored,
        Slot::List(place, _) => place.stored = stored,
        Slot::Free(_) | Slot::Reserved | Slot::Item(_) => unreachable!(),
    }
}

/// The slot that child `i` of a list is in: an item that has completed is in none.
fn slot_of_item(
    entries: &Arena<Slot>,
    list: SlotId,
    partial: &PartialValue,
    items: &ListRope<SlotId>,
    i: usize,
) -> Option<SlotId>
    ensures { option_map (λ (child : Number). child.0) result
        ≡ option_and_then slot_of_cell (cell_at
        (body_with (held_items entries.now) list.0 items.now.items (body_of partial.now)) i) }
{
    let count = count_children(partial);
    let before = count.saturating_sub(items.len());
    if i >= count {
        return None;
    }
    if !is_list(partial) {
        return slot_at(partial, i);
    }
    if i < before {
        return slot_at(partial, i);
    }
    let slot = *items.get(i - before);
    if holds_item(entries, slot, list, i) {
        return None;
    }
    Some(slot)
}

impl Slots {
    /// Records the tokens of all places as released. Takes no memory.
    pub fn release(mut self, ledger: &mut Ledger)
        requires room { Room (slots_occur self) ledger.old }
        ensures released { RoseBy (slots_occur self) ledger.old ledger.new }
    {
        for i in 0..self.len() {
            if self.place(SlotId(i)).is_none() {
                continue;
            }
            let place = self.vacate(SlotId(i));
            release_partial(place.partial, ledger);
        }
    }

    /// The slot of a child, where the place is begun, has that child, and has it in a slot.
    pub fn child_slot(&self, id: SlotId, i: usize) -> Option<SlotId>
        ensures slot { option_map (λ (child : Number). child.0) result
            ≡ child_slot (heap_of self.now) id.0 i }
    {
        if (id.0 as usize) >= self.entries.len() {
            return None;
        }
        match self.entries.get(id.idx()) {
            Slot::Used(place) => slot_at(&place.partial, i),
            Slot::List(place, items) => slot_of_item(&self.entries, id, &place.partial, items, i),
            Slot::Free(_) | Slot::Reserved | Slot::Item(_) => None,
        }
    }
}
