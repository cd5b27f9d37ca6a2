//! All slots of a builder.
ghost use Rattle.std.specs.Prelude.{◌+◌, ◌<◌, ◌≡◌};
ghost use Rattle.fr_frame.specs.Common.{IfOk, IfSome, IsInUse, IsReserved, None, OnErr, SameTokens, Shows, Some, body_occurs, body_of, heap_of, length, node_of, option_copied, option_map, outlined, slice_get, slice_set, slots_occur, with_slot, ℕ};
ghost use Rattle.std.specs.Borrow.{Lends, sem};
ghost use Rattle.fr_frame.specs.RawSlots.{IsFreeAt};
ghost use Rattle.fr_frame.specs.declared.places.Slot.{Slot as Entry};

use crate::draining::drain;
use crate::places::{Place, Slot, SlotId};
use fr_arena::Arena;
use fr_shape::OutOfMemory;
use std::alloc::Global;
use std::marker::Model;

/// All slots of a builder. Those that are free are linked to one another, the one that was freed
/// last first.
///
/// Contracts see the list of the slots, and in it each list with its items: an item that has
/// completed keeps its slot, but is a child that is there with its value.
#[derive(Drop)]
pub struct Slots {
    alloc: Global,
    pub(crate) entries: Arena<Slot>,
    pub(crate) free: Option<SlotId>,
}

impl Model for Slots {
    ghost use Rattle.std.specs.Prelude.{List};
    ghost use Rattle.std.specs.Coded.{coded_list};
    ghost use Rattle.fr_frame.specs.declared.places.Slot.{Slot};
    ghost use Rattle.fr_frame.specs.contracts.places.Slot as slot;
    ghost use Rattle.fr_frame.specs.ListItems.{slots_seen};

    ghost Value = { List Slot };

    ghost coded = { coded_list slot.the_row.coded };

    ghost view = { λ slots. slots_seen slots.entries };
}

/// Puts something else into a slot that is kept for a place. Nothing is there that would have to be
/// let go.
fn put(entries: &mut Arena<Slot>, id: SlotId, slot: Slot)
    requires reserved { slice_get entries.old id.0 ≡ Some Entry.Reserved }
    ensures now { entries.new ≡ slice_set entries.old id.0 slot }
{
    std::mem::forget(std::mem::replace(entries.get_mut(id.idx()), slot));
}

/// Keeps a free slot for a place that is about to come. Nothing is there that would have to be let
/// go.
fn reserve(entries: &mut Arena<Slot>, id: SlotId)
    requires free { IsFreeAt entries.old id.0 }
    ensures now { entries.new ≡ slice_set entries.old id.0 Entry.Reserved }
{
    std::mem::forget(std::mem::replace(entries.get_mut(id.idx()), Slot::Reserved));
}

/// The slot that comes after a free one. There is none where that one isn't free.
fn after_free(entries: &Arena<Slot>, id: SlotId) -> Option<Option<SlotId>>
    ensures { IfSome result (λ next. slice_get entries.now id.0 ≡ Some (Entry.Free next)) }
{
    if (id.0 as usize) >= entries.len() {
        return None;
    }
    match entries.get(id.idx()) {
        Slot::Free(next) => Some(*next),
        Slot::Reserved | Slot::Used(_) | Slot::List(..) | Slot::Item(_) => None,
    }
}

impl Slots {
    ghost use Rattle.fr_frame.specs.contracts.slots.Slots.{the_row};
    ghost use Rattle.fr_frame.specs.contracts.places.Place as place;

    /// No slots.
    pub fn new(alloc: Global) -> Slots
        ensures free { (n : ℕ) → heap_of result n ≡ None }
        ensures nothing { (t : ℕ) → slots_occur result t ≡ 0 }
    {
        Slots {
            alloc,
            entries: Arena::new(alloc),
            free: None,
        }
    }

    /// What the slots take their memory from.
    pub(crate) fn alloc(&self) -> Global {
        self.alloc
    }

    /// The place in a slot, if the slot is in use. In a list an item isn't told, which may have
    /// completed: what is told of a list is how many children it has.
    pub fn place(&self, id: SlotId) -> Option<&Place>
        ensures place { option_map outlined (option_map node_of (option_copied result))
            ≡ option_map outlined (heap_of self.now id.0) }
    {
        if (id.0 as usize) >= self.entries.len() {
            return None;
        }
        match self.entries.get(id.idx()) {
            Slot::Used(place) | Slot::List(place, _) => Some(place),
            Slot::Free(_) | Slot::Reserved | Slot::Item(_) => None,
        }
    }

    /// How many slots there are, in use or free.
    pub(crate) fn len(&self) -> u32
        ensures count { result ≡ length self.now }
    {
        self.entries.len() as u32
    }

    /// Puts a place into a slot that is kept for it.
    pub(crate) fn occupy(&mut self, id: SlotId, place: Place)
        requires reserved { IsReserved self.old id.0 }
        ensures rest { Shows self.new (with_slot (heap_of self.old) id.0 (Some (node_of place))) }
        ensures tokens { (t : ℕ) → slots_occur self.new t
            ≡ slots_occur self.old t + body_occurs (body_of place.partial) t }
    {
        put(&mut self.entries, id, Slot::Used(place));
    }

    /// The place in a slot that is in use, for writing. A list has its items in its partial value
    /// from then on.
    pub(crate) fn place_mut(&mut self, id: SlotId) -> &mut Place
        requires { IsInUse self.old id.0 }
        ensures* writes_back { sem 𝓛 (Lends the_row place.the_row self.entry result
            (λ new. slice_set self.entry.now id.0 (Entry.Used new))) }
        ensures value { slice_get self.old id.0 ≡ Some (Entry.Used result.now) }
    {
        drain(&mut self.entries, &mut self.free, id);
        let slot = self.entries.get_mut(id.idx());
        slot.place_mut()
    }

    /// Takes the place out of a slot, which may then serve another.
    pub(crate) fn vacate(&mut self, id: SlotId) -> Place
        requires { IsInUse self.old id.0 }
        ensures place { heap_of self.old id.0 ≡ Some (node_of result) }
        ensures rest { Shows self.new (with_slot (heap_of self.old) id.0 None) }
        ensures tokens { (t : ℕ) → slots_occur self.old t
            ≡ slots_occur self.new t + body_occurs (body_of result.partial) t }
    {
        drain(&mut self.entries, &mut self.free, id);
        let next = self.free;
        self.free = Some(id);
        let slot = std::mem::replace(self.entries.get_mut(id.idx()), Slot::Free(next));
        let Slot::Used(place) = slot else {
            unreachable!()
        };
        place
    }

    /// A slot behind the others, kept for the place that whoever asks puts into it.
    fn append(&mut self) -> Result<SlotId, OutOfMemory>
        ensures reserved { IfOk result (λ id. IsReserved self.new id.0) }
        ensures vacant { IfOk result (λ id. heap_of self.old id.0 ≡ None) }
        ensures rest { Shows self.new (heap_of self.old) }
        ensures tokens { SameTokens self.old self.new }
        ensures refused { OnErr result (self.new ≡ self.old) }
    {
        if self.entries.len() >= u32::MAX as usize {
            return Err(OutOfMemory);
        }
        let Ok(idx) = self.entries.alloc(Slot::Reserved) else {
            return Err(OutOfMemory);
        };
        Ok(SlotId::of(idx))
    }

    /// A slot that is free: the one that was freed last, else one behind the others. It is kept for
    /// the place that whoever asks puts into it.
    pub(crate) fn vacant(&mut self) -> Result<SlotId, OutOfMemory>
        ensures reserved { IfOk result (λ id. IsReserved self.new id.0) }
        ensures vacant { IfOk result (λ id. heap_of self.old id.0 ≡ None) }
        ensures rest { Shows self.new (heap_of self.old) }
        ensures tokens { SameTokens self.old self.new }
        ensures refused { OnErr result (self.new ≡ self.old) }
    {
        let Some(id) = self.free else {
            return self.append();
        };
        let Some(next) = after_free(&self.entries, id) else {
            return self.append();
        };
        self.free = next;
        reserve(&mut self.entries, id);
        Ok(id)
    }

    /// Lets a slot that was kept for a place be the next that is handed out.
    pub(crate) fn give_back(&mut self, id: SlotId)
        requires reserved { IsReserved self.old id.0 }
        ensures rest { Shows self.new (heap_of self.old) }
        ensures tokens { SameTokens self.old self.new }
    {
        put(&mut self.entries, id, Slot::Free(self.free));
        self.free = Some(id);
    }
}
