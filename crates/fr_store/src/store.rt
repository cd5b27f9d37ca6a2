//! The places that were left half done, to be entered again or completed at the end of deferred
//! mode.
ghost use Rattle.fr_store.specs.Common.{Contains, IsInUse, IsKept, IsOpened, IsStoredChild, IsWalk, OnErr, OnOk, SameTokens, Shows, Some, [], false, heap_of, kid_shown, length, marked, true, with_mark, ℕ};
ghost use Rattle.std.specs.Prelude.{◌≢◌, slice_get, IfSome, IsNone, IsTrue, ◌++◌, ◌<◌, ◌↔◌, ◌∷◌, ◌≡◌};
ghost use Rattle.fr_store.specs.Stored.{child_slot};

use crate::Stack;
use crate::turning::StoredPlace;
use crate::walk_order::order_walk;
use fr_frame::{SlotId, Slots};
use fr_shape::OutOfMemory;
use std::alloc::Global;
use std::marker::Model;

/// The places that are stored. `positions` has, under the number of each one's slot, where it
/// stands in `places`, so that a place is taken out without a search. Contracts see the list of the
/// slots' numbers.
#[derive(Drop)]
pub struct FrameStore {
    alloc: Global,
    places: Vec<StoredPlace>,
    positions: Vec<u32>,
}

impl Model for FrameStore {
    ghost use Rattle.std.specs.Prelude.{List, ℕ};
    ghost use Rattle.std.specs.Coded.{coded_list, coded_ℕ};
    ghost use Rattle.fr_store.specs.Numbers.{slots_of, IsIndexed};

    ghost Value = { List ℕ };

    ghost coded = { coded_list coded_ℕ };

    ghost view = { λ store. slots_of store.places.items };

    ghost invariant = { λ store. IsIndexed (slots_of store.places.items) store.positions.items };
}

/// Grows the positions until there is one under this number.
fn reach(positions: &mut Vec<u32>, number: u32) -> Result<(), OutOfMemory>
    ensures reached { OnOk result (number < length positions.new.items) }
    ensures kept { (n i : ℕ) → slice_get positions.old.items n ≡ Some i
        → slice_get positions.new.items n ≡ Some i }
{
    let count = number as usize + 1;
    if positions.len() < count {
        positions.resize(count, 0)?;
    }
    Ok(())
}

impl FrameStore {
    /// No places. Takes no memory.
    pub fn new(alloc: Global) -> FrameStore
        ensures empty { result ≡ [] }
    {
        FrameStore {
            alloc,
            places: Vec::new(alloc),
            positions: Vec::new(alloc),
        }
    }

    /// What the store takes its memory from.
    pub(crate) fn alloc(&self) -> Global {
        self.alloc
    }

    /// How many places there are.
    pub fn len(&self) -> usize
        ensures count { result ≡ length self.now }
    {
        self.places.len()
    }

    /// Whether there is no place.
    pub fn is_empty(&self) -> bool
        ensures empty { IsTrue result ↔ (self.now ≡ []) }
    {
        self.places.is_empty()
    }

    /// Puts a place behind the others. Where there is no memory the list is as it was.
    fn append(&mut self, place: SlotId) -> Result<(), OutOfMemory>
        requires { ¬ Contains self.old place.0 }
        ensures appended { OnOk result (self.new ≡ self.old ++ place.0 ∷ []) }
        ensures refused { OnErr result (self.new ≡ self.old) }
    {
        let at = self.places.len();
        if at >= u32::MAX as usize {
            return Err(OutOfMemory);
        }
        reach(&mut self.positions, place.0)?;
        self.places.push(StoredPlace {
            slot: place,
            parent: 0,
            number: 0,
            order: 0,
        })?;
        self.positions[place.0 as usize] = at as u32;
        Ok(())
    }

    /// Takes a place out of the list: the last one comes into its stead. Takes no memory.
    pub(crate) fn remove(&mut self, place: SlotId)
        requires { Contains self.old place.0 }
        ensures rest { (n : ℕ) → Contains self.new n ↔ (Contains self.old n × (n ≢ place.0)) }
    {
        let at = self.positions[place.0 as usize] as usize;
        let Some(last) = self.places.pop() else {
            unreachable!()
        };
        if at < self.places.len() {
            self.places[at] = last;
            self.positions[last.slot.0 as usize] = at as u32;
        }
    }

    /// Takes all places out: the numbers of their slots come in the order of the walk. Takes no
    /// memory.
    pub(crate) fn take_walk(&mut self, slots: &Slots, stack: &Stack) -> Vec<u32>
        requires is_open { IsOpened slots.now stack.now }
        requires kept { IsKept self.old slots.now }
        ensures walk { IsWalk (kid_shown (heap_of slots.now) stack.now) result.items }
        ensures empty { self.new ≡ [] }
    {
        let mut places = std::mem::replace(&mut self.places, Vec::new(self.alloc));
        let mut order = std::mem::replace(&mut self.positions, Vec::new(self.alloc));
        order_walk(&mut places, &mut order, slots, stack);
        order
    }

    /// Stores a place. Where there is no memory all is as it was.
    pub fn insert(&mut self, slots: &mut Slots, place: SlotId) -> Result<(), OutOfMemory>
        requires in_use { IsInUse slots.old place.0 }
        requires kept { IsKept self.old slots.old }
        requires unmarked { marked (heap_of slots.old) place.0 ≡ false }
        ensures marked { OnOk result
            (Shows slots.new (with_mark (heap_of slots.old) place.0 true)) }
        ensures kept { IsKept self.new slots.new }
        ensures tokens { SameTokens slots.old slots.new }
        ensures slots_kept { OnErr result (slots.new ≡ slots.old) }
        ensures refused { OnErr result (self.new ≡ self.old) }
    {
        self.append(place)?;
        place.mark(slots, true);
        Ok(())
    }

    /// Takes child `i` of a place out of the store, where it is stored. Takes no memory.
    pub fn take(&mut self, slots: &mut Slots, parent: SlotId, i: u32) -> Option<SlotId>
        requires kept { IsKept self.old slots.old }
        ensures taken { IfSome result (λ child.
            IsStoredChild (heap_of slots.old) parent.0 i child.0) }
        ensures unmarked { IfSome result (λ child.
            Shows slots.new (with_mark (heap_of slots.old) child.0 false)) }
        ensures none { IsNone result → (child : ℕ)
            → child_slot (heap_of slots.old) parent.0 i ≡ Some child
            → marked (heap_of slots.old) child ≡ false }
        ensures slots_kept { IsNone result → slots.new ≡ slots.old }
        ensures store_kept { IsNone result → self.new ≡ self.old }
        ensures kept { IsKept self.new slots.new }
        ensures tokens { SameTokens slots.old slots.new }
    {
        let child = parent.child(slots, i)?;
        if !child.is_stored(slots) {
            return None;
        }
        self.remove(child);
        child.mark(slots, false);
        Some(child)
    }

    /// Whether child `i` of a place is stored.
    pub fn contains(&self, slots: &Slots, parent: SlotId, i: u32) -> bool
        ensures stored { IsTrue result ↔ ((child : ℕ)
            × IsStoredChild (heap_of slots.now) parent.0 i child) }
    {
        match parent.child(slots, i) {
            Some(child) => child.is_stored(slots),
            None => false,
        }
    }
}
