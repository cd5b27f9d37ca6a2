//! Lists whose items lie in slots of their own: all items go into their list, behind its base.
ghost use Rattle.std.specs.Prelude.{◌<◌, ◌≡◌, ◌≢◌, ◌⊎◌};
ghost use Rattle.fr_frame.specs.Common.{FreesItem, FreesItems, IfNone, IfSome, IsPlainAt, IsUsedAt, children_with, false, held_items, is_some, item_cell, length, option_map, partial_with, slice_get, slice_set, slots_seen, true, value_held, view, ℕ};
ghost use Rattle.fr_frame.specs.ListItems.{IsItemFreed, IsListAt};

use crate::places::{ItemsKind, PartialValue, Slot, SlotId, Tracker};
use fr_arena::{Arena, ListRope};
use fr_shape::Value;
use fr_values::Children;

/// Whether an item of this list that has completed, of this number, lies in a slot.
pub(crate) fn holds_item(entries: &Arena<Slot>, slot: SlotId, list: SlotId, number: usize) -> bool
    ensures { result ≡ is_some (value_held list.0 number (held_items entries.now slot.0)) }
{
    if (slot.0 as usize) >= entries.len() {
        return false;
    }
    match entries.get(slot.idx()) {
        Slot::Item(item) => item.list.0 == list.0 && item.number as usize == number,
        Slot::Free(_) | Slot::Reserved | Slot::Used(_) | Slot::List(..) => false,
    }
}

/// Takes the value of an item of this list that has completed, of this number, out of its slot,
/// which is then free. None where no such item lies there.
fn take_item(
    entries: &mut Arena<Slot>,
    free: &mut Option<SlotId>,
    slot: SlotId,
    list: SlotId,
    number: usize,
) -> Option<Value>
    ensures value { option_map view result
        ≡ value_held list.0 number (held_items entries.old slot.0) }
    ensures kept { IfNone result (entries.new ≡ entries.old) }
    ensures freed { IfSome result (λ v.
        IsItemFreed entries.old entries.new slot.0 list.0 number) }
{
    if !holds_item(entries, slot, list, number) {
        return None;
    }
    let next = *free;
    let Slot::Item(item) = std::mem::replace(entries.get_mut(slot.idx()), Slot::Free(next)) else {
        unreachable!()
    };
    *free = Some(slot);
    Some(item.value)
}

/// Puts the item of this number at its child, in a list: with its value where it has completed, and
/// its slot is free then.
fn put_item(
    entries: &mut Arena<Slot>,
    free: &mut Option<SlotId>,
    list: SlotId,
    at: usize,
    slot: SlotId,
    children: &mut Children,
)
    requires inside { at < length children.old }
    ensures put { children.new ≡ slice_set children.old at
        (item_cell (held_items entries.old) list.0 at slot) }
    ensures freed { (entries.new ≡ entries.old)
        ⊎ IsItemFreed entries.old entries.new slot.0 list.0 at }
{
    match take_item(entries, free, slot, list, at) {
        Some(value) => children.put(at, value),
        None => {
            let _room = children.place(at, slot.0);
        }
    }
}

/// Puts a list's items, which are in these slots, at its last children, in order: those that have
/// completed with their values, and their slots are free then. Takes no memory.
fn put_items(
    entries: &mut Arena<Slot>,
    free: &mut Option<SlotId>,
    list: SlotId,
    mut items: Box<ListRope<SlotId>>,
    children: &mut Children,
)
    ensures children { children.new ≡ children_with (held_items entries.old) list.0 children.old
        items.value.items }
    ensures freed { FreesItems list.0 entries.old entries.new }
{
    let mut at = children.len().saturating_sub(items.len());
    let mut slots = items.take_items();
    while let Some(slot) = slots.next() {
        if at >= children.len() {
            return;
        }
        put_item(entries, free, list, at, slot, children);
        at += 1;
    }
}

/// The same at what was put at the list.
fn put_items_in(
    entries: &mut Arena<Slot>,
    free: &mut Option<SlotId>,
    list: SlotId,
    items: Box<ListRope<SlotId>>,
    partial: &mut PartialValue,
)
    ensures partial { partial.new ≡ partial_with (held_items entries.old) list.0 items.value.items
        partial.old }
    ensures freed { FreesItems list.0 entries.old entries.new }
{
    match partial {
        PartialValue::Begun(
            Tracker::Items(ItemsKind::List)
            | Tracker::Items(ItemsKind::Slice)
            | Tracker::Items(ItemsKind::ClosedSlice),
            children,
        ) => { put_items(entries, free, list, items, children) }
        PartialValue::Entered | PartialValue::Whole(_) | PartialValue::Begun(..) => {}
    }
}

/// Whether a list with items in slots of their own is in this slot.
fn has_items(entries: &Arena<Slot>, id: SlotId) -> bool
    ensures there { result ≡ true → IsListAt entries.now id.0 }
    ensures none { result ≡ false → IsUsedAt entries.now id.0 → IsPlainAt entries.now id.0 }
{
    if (id.0 as usize) >= entries.len() {
        return false;
    }
    match entries.get(id.idx()) {
        Slot::List(..) => true,
        Slot::Free(_) | Slot::Reserved | Slot::Used(_) | Slot::Item(_) => false,
    }
}

/// Lets a list have its items in what was put at it. Contracts see no change. Takes no memory.
#[inline(never)]
fn drain_list(entries: &mut Arena<Slot>, free: &mut Option<SlotId>, id: SlotId)
    requires list { IsListAt entries.old id.0 }
    ensures seen { slots_seen entries.new ≡ slots_seen entries.old }
    ensures plain { IsPlainAt entries.new id.0 }
    ensures others { (m : ℕ) → m ≢ id.0
        → FreesItem id.0 (slice_get entries.old m) (slice_get entries.new m) }
    ensures as_many { length entries.new ≡ length entries.old }
{
    let Slot::List(mut place, items) = std::mem::replace(entries.get_mut(id.idx()), Slot::Reserved)
    else {
        unreachable!()
    };
    put_items_in(entries, free, id, items, &mut place.partial);
    *entries.get_mut(id.idx()) = Slot::Used(place);
}

/// The same where the items aren't there yet. Whoever changes a place begins with it, and few
/// places are lists with items, so the way out is short.
pub(crate) fn drain(entries: &mut Arena<Slot>, free: &mut Option<SlotId>, id: SlotId)
    ensures seen { slots_seen entries.new ≡ slots_seen entries.old }
    ensures plain { IsUsedAt entries.old id.0 → IsPlainAt entries.new id.0 }
    ensures others { (m : ℕ) → m ≢ id.0
        → FreesItem id.0 (slice_get entries.old m) (slice_get entries.new m) }
    ensures as_many { length entries.new ≡ length entries.old }
{
    if has_items(entries, id) {
        drain_list(entries, free, id);
    }
}
