//! All places that lie in slots beneath one.
ghost use Rattle.fr_store.specs.Common.{IsOpened, IsWalk, OnOk, body_of, cells_found, entry_of, from_last, heap_of, is_map_found, kid_on_top, length, slotted};
ghost use Rattle.std.specs.Prelude.{IfOk, ◌++◌, ◌<◌, ◌≡◌};
ghost use Rattle.fr_store.specs.Beneath.{is_map_body};

use crate::Stack;
use crate::pruning::{count_children, slot_of_child};
use fr_frame::{EntriesKind, PartialValue, SlotId, Slots, Tracker};
use fr_shape::OutOfMemory;
use std::alloc::Global;

/// How many entries so many children of a map are, a key without a child for its value not counted.
fn count_entries(count: usize) -> usize
    ensures { result ≡ entry_of count }
{
    count / 2
}

/// The number of the child that comes as the `i`-th where one goes from the last to the first in
/// the order of their steps: of a map, whose keys and values take turns, all values come before all
/// keys then.
fn child_from_last(of_map: bool, count: usize, i: usize) -> usize
    requires { i < count }
    ensures { result ≡ from_last of_map count i }
{
    if !of_map {
        return count - 1 - i;
    }
    let values = count_entries(count);
    if i < values {
        2 * (values - 1 - i) + 1
    } else {
        2 * (count - 1 - i)
    }
}

/// Whether a place is begun as a map, by what was put at it. An object, whose entries have their
/// values alone as children, is none.
fn is_map_partial(partial: &PartialValue) -> bool
    ensures { result ≡ is_map_body (body_of partial.now) }
{
    match partial {
        PartialValue::Begun(Tracker::Entries(EntriesKind::Map(_)), _) => true,
        _ => false,
    }
}

/// Whether a place is begun as a map.
fn is_map(slots: &Slots, place: SlotId) -> bool
    ensures { result ≡ is_map_found (heap_of slots.now place.0) }
{
    match slots.place(place) {
        Some(found) => is_map_partial(&found.partial),
        None => false,
    }
}

/// Writes down the slots of a place's children, as far as they are in slots, behind the others:
/// from the last to the first in the order of their steps.
fn add_children(slots: &Slots, place: SlotId, queue: &mut Vec<u32>) -> Result<(), OutOfMemory>
    ensures added { OnOk result (queue.new.items ≡ queue.old.items
        ++ slotted (is_map_found (heap_of slots.now place.0))
        (cells_found (heap_of slots.now place.0))
        (length (cells_found (heap_of slots.now place.0)))) }
{
    let of_map = is_map(slots, place);
    let count = count_children(slots, place);
    for i in 0..count {
        let child = child_from_last(of_map, count, i);
        if let Some(slot) = slot_of_child(slots, place, child) {
            queue.push(slot.0)?;
        }
    }
    Ok(())
}

/// The slots of all places that lie strictly beneath the one on top of the stack, in the order of
/// the walk. Of what lies elsewhere it looks at nothing, and it looks once at each child of what
/// lies beneath.
pub(crate) fn walk_beneath(
    slots: &Slots,
    stack: &Stack,
    alloc: Global,
) -> Result<Vec<u32>, OutOfMemory>
    requires is_open { IsOpened slots.now stack.now }
    ensures walk { IfOk result (λ walk. IsWalk (kid_on_top slots.now stack.now) walk.items) }
{
    let Some(top) = stack.top() else {
        unreachable!()
    };
    let mut queue = Vec::new(alloc);
    add_children(slots, top, &mut queue)?;
    let mut head = 0;
    while head < queue.len() {
        let place = SlotId(queue[head]);
        add_children(slots, place, &mut queue)?;
        head += 1;
    }
    queue.reverse();
    Ok(queue)
}
