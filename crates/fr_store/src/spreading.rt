//! All stored places, the shortest path first.
ghost use Rattle.fr_store.specs.Common.{AreAllStored, HasOwner, IfInUse, IsKeyOf, IsNonDecreasingBy, IsOpened, IsSpread, Some, heap_of, is_between, key_of, kid_shown, length, numbers, slots_between, ℕ};
ghost use Rattle.std.specs.Prelude.{◌+◌, ◌≤◌, filter, slice_get, take, ◌++◌, ◌≡◌, ◌⊎◌};

use crate::Stack;
use crate::turning::{StoredPlace, key, noted};
use fr_frame::{SlotId, Slots};

/// How far apart the keys of the children of neighbouring slots are. What comes after the last of
/// them needs one bit more than they.
const WIDTH: u128 = 4294967296;

/// Writes down the slots of the places whose keys are from `from` on and less than `to`, behind the
/// first `count` slots.
fn add_between(
    places: &[StoredPlace],
    from: u128,
    to: u128,
    order: &mut [u32],
    count: usize,
) -> usize
    requires sorted { IsNonDecreasingBy key_of places.now }
    requires room { count + length (slots_between from to places.now) ≤ length order.old }
    ensures count { result ≡ count + length (slots_between from to places.now) }
    ensures added { take result order.new
        ≡ take count order.old ++ slots_between from to places.now }
    ensures long { length order.new ≡ length order.old }
{
    let start = places.partition_point(|place| (key(place) as u128) < from);
    let rest = &places[start..];
    let mut count = count;
    for place in rest {
        if key(place) as u128 >= to {
            return count;
        }
        order[count] = place.slot.0;
        count += 1;
    }
    count
}

/// The key of open place number `i`; where there is none that many, this one.
fn key_at(slots: &Slots, on_stack: &[SlotId], i: usize, last: u128) -> u128
    requires owned { (n : ℕ) → slice_get (numbers on_stack.now) i ≡ Some n
        → IfInUse slots.now n (λ at. HasOwner at.owner) }
    ensures key { (n : ℕ) → slice_get (numbers on_stack.now) i ≡ Some n
        → IfInUse slots.now n (λ at. IsKeyOf (heap_of slots.now) result at.owner) }
    ensures none { length on_stack.now ≤ i → result ≡ last }
{
    if i >= on_stack.len() {
        return last;
    }
    key(&noted(slots, on_stack[i])) as u128
}

/// The slots of all stored places: the shortest path first, and among paths of one length step by
/// step from the last to the first. Open places aren't among them, but their children come where
/// theirs do: `at` is how many slots come before the next open place.
pub(crate) fn spread(places: &[StoredPlace], slots: &Slots, stack: &Stack, order: &mut [u32])
    requires is_open { IsOpened slots.now stack.now }
    requires stored { AreAllStored (kid_shown (heap_of slots.now) stack.now) places.now }
    requires sorted { IsNonDecreasingBy key_of places.now }
    requires room { length places.now ≤ length order.old }
    ensures spread { IsSpread (kid_shown (heap_of slots.now) stack.now)
        (take (length places.now) order.new) }
    ensures long { length order.new ≡ length order.old }
{
    let on_stack = stack.places();
    let mut opened = 0;
    let mut at = 0;
    let mut head = 0;
    let mut count = 0;
    while opened < on_stack.len() || head < count {
        if opened < on_stack.len() && head == at {
            let from = on_stack[opened].0 as u128 * WIDTH;
            opened += 1;
            let middle = key_at(slots, on_stack, opened, from + WIDTH);
            at = add_between(places, from, middle, order, count);
            count = add_between(places, middle, from + WIDTH, order, at);
        } else {
            let from = order[head] as u128 * WIDTH;
            count = add_between(places, from, from + WIDTH, order, count);
            head += 1;
        }
    }
}
