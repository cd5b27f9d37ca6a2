//! The order in which stored places are completed.
ghost use Rattle.fr_store.specs.Common.{AreOnce, Contains, IsOpened, IsWalk, heap_of, kid_shown, length, marked, slots_of, true, ℕ};
ghost use Rattle.std.specs.Prelude.{◌≤◌, ◌↔◌, ◌≡◌};

use crate::Stack;
use crate::spreading::spread;
use crate::turning::{StoredPlace, note_all, sort};
use fr_frame::Slots;

/// The numbers of the slots of stored places in the order of the walk: the longest path first, then
/// step by step. They are written where there is room for one each. Takes no memory, in time that
/// grows as their number does (and that of the places on the stack), with its logarithm; no path is
/// climbed, and no child is looked at that isn't stored.
pub(crate) fn order_walk(
    places: &mut [StoredPlace],
    order: &mut Vec<u32>,
    slots: &Slots,
    stack: &Stack,
)
    requires is_open { IsOpened slots.now stack.now }
    requires kept { (n : ℕ) → (marked (heap_of slots.now) n ≡ true)
        ↔ Contains (slots_of places.old) n }
    requires once { AreOnce (slots_of places.old) }
    requires room { length places.old ≤ length order.old.items }
    ensures walk { IsWalk (kid_shown (heap_of slots.now) stack.now) order.new.items }
{
    let count = places.len();
    note_all(slots, places);
    sort(places);
    spread(places, slots, stack, order);
    order.truncate(count);
    order.reverse();
}
