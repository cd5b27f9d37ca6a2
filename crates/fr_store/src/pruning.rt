//! Releasing what is stored beneath a place.
ghost use Rattle.fr_store.specs.Common.{IsKept, IsPruned, IsRooted, Room, RoseBy, StoresNoMore, beneath, body_of, cells_found, cells_in_body, heap_of, length, option_map, pruned, slots_occur, slotted_occur, ℕ};
ghost use Rattle.std.specs.Prelude.{◌+◌, ◌≡◌};
ghost use Rattle.fr_values.specs.Cells.{slot_in_cells};
ghost use Rattle.fr_frame.specs.declared.places.SlotId.{SlotId as Number};

use crate::FrameStore;
use fr_frame::{PartialValue, SlotId, Slots};
use fr_shape::Ledger;

/// How many children a place has, by what was put at it.
fn count_among(partial: &PartialValue) -> usize
    ensures { result ≡ length (cells_in_body (body_of partial.now)) }
{
    match partial {
        PartialValue::Begun(_, children) => children.len(),
        PartialValue::Entered | PartialValue::Whole(_) => 0,
    }
}

/// How many children a place has.
pub(crate) fn count_children(slots: &Slots, place: SlotId) -> usize
    ensures { result ≡ length (cells_found (heap_of slots.now place.0)) }
{
    match slots.place(place) {
        Some(found) => count_among(&found.partial),
        None => 0,
    }
}

/// The slot of a child, where it is in one.
pub(crate) fn slot_of_child(slots: &Slots, place: SlotId, i: usize) -> Option<SlotId>
    ensures { option_map (λ (slot : Number). slot.0) result
        ≡ slot_in_cells (cells_found (heap_of slots.now place.0)) i }
{
    slots.child_slot(place, i)
}

impl FrameStore {
    /// Releases all places that are stored strictly beneath this one, and frees their slots. Takes
    /// no memory, and looks at no child where nothing is stored.
    pub fn prune(&mut self, slots: &mut Slots, place: SlotId, ledger: &mut Ledger)
        requires rooted { IsRooted (heap_of slots.old) place.0 }
        requires kept { IsKept self.old slots.old }
        requires room { Room (slotted_occur (beneath (heap_of slots.old) place.0)) ledger.old }
        ensures pruned { IsPruned (heap_of slots.old) (heap_of slots.new) place.0 pruned
            (beneath (heap_of slots.old) place.0) }
        ensures released { RoseBy (slotted_occur (beneath (heap_of slots.old) place.0))
            ledger.old ledger.new }
        ensures tokens { (t : ℕ) → slots_occur slots.old t ≡ slots_occur slots.new t
            + slotted_occur (beneath (heap_of slots.old) place.0) t }
        ensures kept { IsKept self.new slots.new }
        ensures marks { StoresNoMore slots.old slots.new }
    {
        if self.is_empty() {
            return;
        }
        for i in 0..count_children(slots, place) {
            if let Some(child) = slot_of_child(slots, place, i) {
                self.prune(slots, child, ledger);
                self.remove(child);
                child.release_frame(slots, ledger);
            }
        }
    }
}
