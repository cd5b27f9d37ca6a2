//! Items of lists: one comes, and lies in a slot of its own; one is whole, and keeps its slot.
ghost use Rattle.std.specs.Prelude.{IsSomeAnd, ◌++◌, ◌<◌, ◌∷◌, ◌≡◌};
ghost use Rattle.fr_frame.specs.Common.{HasRoomIn, IfInUse, IfSome, IsGrowing, IsListedIn, IsPlain, IsReserved, IsSeenAs, KeepsReserved, OnErr, OnOk, SameTokens, Shows, Some, [], body_of, false, heap_of, held_by, is_list, is_list_body, is_used, length, node_in, node_of, option_copied, option_map, placed, true, with_body, with_placed};
ghost use Rattle.fr_frame.specs.Handing.{IsHanded, IsWhole};
ghost use Rattle.fr_frame.specs.RawItems.{with_room, IsAddedIn, IsKeptItem, IsListed, IsListIn};
ghost use Rattle.fr_frame.specs.declared.places.Taker.{Taker};

use crate::places::{FrameOwner, Item, ItemsKind, PartialValue, Place, Slot, SlotId, Tracker};
use crate::slots::Slots;
use fr_arena::{Arena, ListRope};
use fr_shape::{OutOfMemory, Value};
use std::alloc::Global;

/// One item more in a list, which will be in this slot: it has its room in the partial value, and
/// the slot comes behind those of the other items. It is refused where these have no room in the
/// partial value, which doesn't happen.
fn push_item(
    alloc: Global,
    partial: &mut PartialValue,
    items: &mut ListRope<SlotId>,
    item: SlotId,
) -> Result<(), OutOfMemory>
    requires { is_list_body (body_of partial.old) ≡ true }
    ensures partial { OnOk result (partial.new ≡ with_room partial.old) }
    ensures items { OnOk result (items.new.items ≡ items.old.items ++ item ∷ []) }
    ensures room { OnOk result (HasRoomIn items.old.items partial.old) }
    ensures partial_kept { OnErr result (partial.new ≡ partial.old) }
    ensures items_kept { OnErr result (items.new ≡ items.old) }
{
    let PartialValue::Begun(_, children) = partial else {
        unreachable!()
    };
    if children.len() < items.len() {
        return Err(OutOfMemory);
    }
    children.push(alloc)?;
    if items.push(item).is_err() {
        children.pop();
        return Err(OutOfMemory);
    }
    Ok(())
}

/// A list in a slot, from then on with a rope for its items, of which there are none yet.
#[inline(never)]
fn begin_rope(alloc: Global, slot: &mut Slot) -> Result<(), OutOfMemory>
    requires plain { IsPlain slot.old }
    ensures seen { IsSeenAs slot.old slot.new }
    ensures list { OnOk result (is_list slot.new ≡ true) }
{
    let Ok(items) = Box::new(alloc, ListRope::new(alloc)) else {
        return Err(OutOfMemory);
    };
    let Slot::Used(place) = std::mem::replace(slot, Slot::Reserved) else {
        unreachable!()
    };
    *slot = Slot::List(place, items);
    Ok(())
}

/// A slot in use by a list has a rope for its items from then on. Most have one, so the test is
/// short.
fn make_list(alloc: Global, slot: &mut Slot) -> Result<(), OutOfMemory>
    ensures seen { IsSeenAs slot.old slot.new }
    ensures list { OnOk result (is_used slot.old ≡ true → is_list slot.new ≡ true) }
{
    if let Slot::Used(_) = slot {
        return begin_rope(alloc, slot);
    }
    Ok(())
}

/// One item more in the list in this slot, which will be in the slot `item`. A list that has no
/// items in slots of their own yet gets a rope for them first.
fn add_item_in(alloc: Global, slot: &mut Slot, item: SlotId) -> Result<(), OutOfMemory>
    requires { IsListIn slot.old }
    ensures added { OnOk result (IsAddedIn item.0 slot.old slot.new) }
    ensures refused { OnErr result (IsSeenAs slot.old slot.new) }
{
    make_list(alloc, slot)?;
    match slot {
        Slot::List(place, items) => push_item(alloc, &mut place.partial, items, item),
        Slot::Free(_) | Slot::Reserved | Slot::Used(_) | Slot::Item(_) => unreachable!(),
    }
}

/// Whether a list has this slot for its item of this number.
fn is_item(partial: &PartialValue, items: &ListRope<SlotId>, number: u32, slot: SlotId) -> bool
    ensures listed { result ≡ true → IsListedIn partial.now items.now.items slot.0 number }
    ensures other { IsListedIn partial.now items.now.items slot.0 number → result ≡ true }
{
    let PartialValue::Begun(
        Tracker::Items(ItemsKind::List)
        | Tracker::Items(ItemsKind::Slice)
        | Tracker::Items(ItemsKind::ClosedSlice),
        children,
    ) = partial
    else {
        return false;
    };
    let before = children.len().saturating_sub(items.len());
    let at = number as usize;
    before <= at && at < children.len() && items.get(at - before).0 == slot.0
}

/// The place in a slot, whether it is a list with items or not.
fn place_in(slot: &Slot) -> Option<&Place>
    ensures { option_map node_of (option_copied result) ≡ node_in slot.now }
{
    match slot {
        Slot::Used(place) | Slot::List(place, _) => Some(place),
        Slot::Free(_) | Slot::Reserved | Slot::Item(_) => None,
    }
}

/// The list that has the place in a slot among its items, and the item's number among the list's
/// children.
fn list_of(entries: &Arena<Slot>, id: SlotId) -> Option<(SlotId, u32)>
    requires { id.0 < length entries.now }
    ensures { IfSome result (λ found. IsListed entries.now id.0 found.0 found.1) }
{
    let place = place_in(entries.get(id.idx()))?;
    let FrameOwner::Child(list, number) = &place.owner else {
        return None;
    };
    if (list.0 as usize) >= entries.len() {
        return None;
    }
    match entries.get(list.idx()) {
        Slot::List(above, items) if is_item(&above.partial, items, *number, id) => {
            Some((*list, *number))
        }
        Slot::Free(_) | Slot::Reserved | Slot::Used(_) | Slot::List(..) | Slot::Item(_) => None,
    }
}

/// Marks one more of a list's items.
fn mark_item(slot: &mut Slot)
    ensures { IsSeenAs slot.old slot.new }
{
    if let Slot::List(_, items) = slot {
        if items.initialized_count() < items.len() {
            items.mark_last_initialized();
        }
    }
}

/// Puts an item that has completed into its slot, from which what was put at its place was taken.
fn put_value(slot: &mut Slot, partial: PartialValue, list: SlotId, number: u32)
    requires { IsWhole (body_of partial) }
    ensures { IsKeptItem list number (body_of partial) slot.new }
{
    let PartialValue::Whole(value) = partial else {
        unreachable!()
    };
    let item = Slot::Item(Item {
        value,
        list,
        number,
    });
    // A call lets go what was there: assigned over, its drop would stand here, variant by variant.
    drop(std::mem::replace(slot, item));
}

/// Takes what was put at a whole place out of it.
fn take_partial(slot: &mut Slot) -> PartialValue
    requires { IsSomeAnd (node_in slot.old) (λ at. IsWhole at.body) }
    ensures whole { IsWhole (body_of result) }
    ensures body { IsSomeAnd (node_in slot.old) (λ at. at.body ≡ body_of result) }
{
    match slot {
        Slot::Used(place) => std::mem::replace(&mut place.partial, PartialValue::Entered),
        Slot::List(place, _) => std::mem::replace(&mut place.partial, PartialValue::Entered),
        Slot::Free(_) | Slot::Reserved | Slot::Item(_) => unreachable!(),
    }
}

/// Lets an item that has completed stay in the slot of its place, which is whole.
#[inline(never)]
fn put_item(slot: &mut Slot, list: SlotId, number: u32)
    requires { IsSomeAnd (node_in slot.old) (λ at. IsWhole at.body) }
    ensures { IsSomeAnd (node_in slot.old) (λ at. IsKeptItem list number at.body slot.new) }
{
    let partial = take_partial(slot);
    put_value(slot, partial, list, number);
}

impl Slots {
    /// One item more in a list, behind its other children, which will be in this slot.
    pub(crate) fn add_item(&mut self, list: SlotId, item: SlotId) -> Result<(), OutOfMemory>
        requires list { IfInUse self.old list.0 (λ at. is_list_body at.body ≡ true) }
        requires growing { IfInUse self.old list.0 (λ at. IsGrowing at.body) }
        requires reserved { IsReserved self.old item.0 }
        ensures added { OnOk result (Shows self.new
            (with_body (heap_of self.old) list.0 (with_placed item.0))) }
        ensures refused { OnErr result (Shows self.new (heap_of self.old)) }
        ensures tokens { SameTokens self.old self.new }
        ensures reserved { KeepsReserved self.old self.new }
    {
        let alloc = self.alloc();
        add_item_in(alloc, self.entries.get_mut(list.idx()), item)
    }

    /// Lets a whole place that is an item of a list keep its slot, with its value, which contracts
    /// see in the list. Nothing is changed, and the answer is no, where the place is no such item.
    pub(crate) fn keep_item(&mut self, id: SlotId) -> bool
        requires whole { IfInUse self.old id.0 (λ at. IsWhole at.body) }
        requires owned { IfInUse self.old id.0 (λ at.
            held_by (heap_of self.old) at.owner ≡ Some (placed id.0)) }
        ensures kept { result ≡ true → IsHanded Taker.Above self.old self.new id.0 }
        ensures tokens { SameTokens self.old self.new }
        ensures none { result ≡ false → self.new ≡ self.old }
    {
        let Some((list, number)) = list_of(&self.entries, id) else {
            return false;
        };
        put_item(self.entries.get_mut(id.idx()), list, number);
        mark_item(self.entries.get_mut(list.idx()));
        true
    }
}
