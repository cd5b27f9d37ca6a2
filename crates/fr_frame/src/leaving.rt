//! Leaving a slot: with the value of its place, or releasing what was put there.
ghost use Rattle.std.specs.Prelude.{◌+◌, ◌≡◌};
ghost use Rattle.fr_frame.specs.Common.{Conserved, FrameOwner, IfInUse, IfOk, IsInUse, IsOk, IsSome, OnErr, OnOk, Room, RoseBy, SameTokens, Shows, Some, Val, body_occurs, body_of, false, heap_of, held_by, occurs, placed, slots_occur, takes_memory, value_of, view, without, ℕ};
ghost use Rattle.fr_frame.specs.Handing.{handed, unhanded, IsHanded, IsMadeWhole, IsTakenWhole, IsWhole, MayTake};
ghost use Rattle.fr_frame.specs.declared.places.Taker.{Taker};

use crate::assembling::{make_whole, value_of};
use crate::partial_values::{end_child, release_partial};
use crate::places::{FrameOwner, PartialValue, Place, SlotId, Taker};
use crate::slots::Slots;
use fr_shape::{Ledger, OutOfMemory, Value};

impl SlotId {
    /// Takes what was put at the place out of its slot, which is then free, and tells where the
    /// place belonged.
    fn take_out(self, slots: &mut Slots) -> (FrameOwner, PartialValue)
        requires { IsInUse slots.old self.0 }
        ensures owner { IfInUse slots.old self.0 (λ at. at.owner ≡ result.0) }
        ensures body { IfInUse slots.old self.0 (λ at. at.body ≡ body_of result.1) }
        ensures left { IfInUse slots.old self.0 (λ at.
            Shows slots.new (without (heap_of slots.old) self.0 at.owner)) }
        ensures tokens { (t : ℕ) → slots_occur slots.old t
            ≡ slots_occur slots.new t + body_occurs (body_of result.1) t }
    {
        let Place { owner, partial, .. } = slots.vacate(self);
        slots.unlink(self, &owner);
        (owner, partial)
    }

    /// The value of a place that is whole, or begun with each child there. Its slot is then free,
    /// and its owner has it in no slot. A content, a side, a pointee or a slice goes into a box. A
    /// set or a map, of which what is there twice is released, and a dynamic array or object are
    /// put together anew. Where there is no memory for that, what was put at the place is released.
    pub fn into_value(self, slots: &mut Slots, ledger: &mut Ledger) -> Result<Value, OutOfMemory>
        requires complete { IfInUse slots.old self.0 (λ at. IsSome (value_of at.body)) }
        requires room { IfInUse slots.old self.0 (λ at. Room (body_occurs at.body) ledger.old) }
        ensures value { IfOk result (λ v.
            IfInUse slots.old self.0 (λ at. value_of at.body ≡ Some (view v))) }
        ensures memory { IfInUse slots.old self.0 (λ at.
            takes_memory at.body ≡ false → IsOk result) }
        ensures left { IfInUse slots.old self.0 (λ at.
            Shows slots.new (without (heap_of slots.old) self.0 at.owner)) }
        ensures tokens { IfInUse slots.old self.0 (λ at. (t : ℕ) → slots_occur slots.old t
            ≡ slots_occur slots.new t + body_occurs at.body t) }
        ensures conserved { IfOk result (λ v. Conserved (slots_occur slots.old) ledger.old
            (λ t. slots_occur slots.new t + occurs (view v) t) ledger.new) }
        ensures released { OnErr result (IfInUse slots.old self.0 (λ at.
            RoseBy (body_occurs at.body) ledger.old ledger.new)) }
    {
        let alloc = slots.alloc();
        let (_, partial) = self.take_out(slots);
        value_of(alloc, partial, ledger)
    }

    /// Lets a place be whole where it is, with its value. It stays as it was where there is no
    /// memory for making that.
    fn make_whole(self, slots: &mut Slots, ledger: &mut Ledger) -> Result<(), OutOfMemory>
        requires complete { IfInUse slots.old self.0 (λ at. IsSome (value_of at.body)) }
        requires room { IfInUse slots.old self.0 (λ at. Room (body_occurs at.body) ledger.old) }
        ensures made { OnOk result (IsMadeWhole slots.old slots.new self.0) }
        ensures memory { IfInUse slots.old self.0 (λ at.
            takes_memory at.body ≡ false → IsOk result) }
        ensures refused { OnErr result (Shows slots.new (heap_of slots.old)) }
        ensures room { IfInUse slots.new self.0 (λ at. Room (body_occurs at.body) ledger.new) }
        ensures conserved { Conserved (slots_occur slots.old) ledger.old (slots_occur slots.new)
            ledger.new }
        ensures ledger_kept { OnErr result (ledger.new ≡ ledger.old) }
    {
        let alloc = slots.alloc();
        let place = slots.place_mut(self);
        make_whole(alloc, &mut place.partial, ledger)
    }

    /// Takes a whole place, which its owner has in this slot, out of it, with its value.
    fn take_whole(self, slots: &mut Slots) -> (SlotId, u32, Value)
        requires whole { IfInUse slots.old self.0 (λ at. IsWhole at.body) }
        requires owned { IfInUse slots.old self.0 (λ at.
            held_by (heap_of slots.old) at.owner ≡ Some (placed self.0)) }
        ensures taken { IsTakenWhole slots.old slots.new self.0
            (FrameOwner.Child result.0 result.1) (view result.2) }
        ensures tokens { (t : ℕ) → slots_occur slots.old t
            ≡ slots_occur slots.new t + occurs (view result.2) t }
    {
        let (owner, partial) = self.take_out(slots);
        let FrameOwner::Child(parent, i) = owner else {
            unreachable!()
        };
        let PartialValue::Whole(value) = partial else {
            unreachable!()
        };
        (parent, i, value)
    }

    /// Gives the value of a whole place to its owner: an item of a list keeps its slot, and any
    /// other slot is then free.
    fn give(self, slots: &mut Slots)
        requires whole { IfInUse slots.old self.0 (λ at. IsWhole at.body) }
        requires owned { IfInUse slots.old self.0 (λ at.
            held_by (heap_of slots.old) at.owner ≡ Some (placed self.0)) }
        ensures given { IsHanded Taker.Above slots.old slots.new self.0 }
        ensures tokens { SameTokens slots.old slots.new }
    {
        if slots.keep_item(self) {
            return;
        }
        let (parent, i, value) = self.take_whole(slots);
        parent.put_child(slots, i, value);
    }

    /// Puts the value of a whole place, an item, behind its set's other items, unless one of them
    /// is `same`: then the value is released. The slot is then free.
    fn end(self, slots: &mut Slots, ledger: &mut Ledger)
        requires whole { IfInUse slots.old self.0 (λ at. IsWhole at.body) }
        requires owned { IfInUse slots.old self.0 (λ at.
            MayTake Taker.Set self.0 at.owner (heap_of slots.old)) }
        requires room { IfInUse slots.old self.0 (λ at. Room (body_occurs at.body) ledger.old) }
        ensures ended { IsHanded Taker.Set slots.old slots.new self.0 }
        ensures conserved { Conserved (slots_occur slots.old) ledger.old (slots_occur slots.new)
            ledger.new }
    {
        let (parent, i, value) = self.take_whole(slots);
        let place = slots.place_mut(parent);
        end_child(&mut place.partial, i, value, ledger);
    }

    /// Hands the value of a place that is whole, or begun with each child there, to what takes it.
    /// No place is in the slot then, unless the place takes its value itself; an item of a list
    /// keeps the slot. What a set or a map leaves out of its value, as it is there twice, is
    /// released, and so is the value of an item that its set has already. Where there is no memory
    /// for making the value, what was put at the place is released, unless the place is to take it
    /// itself: then it stays as it was.
    pub fn hand_over(
        self,
        slots: &mut Slots,
        taker: Taker,
        ledger: &mut Ledger,
    ) -> Result<(), OutOfMemory>
        requires complete { IfInUse slots.old self.0 (λ at. IsSome (value_of at.body)) }
        requires may { IfInUse slots.old self.0 (λ at.
            MayTake taker self.0 at.owner (heap_of slots.old)) }
        requires room { IfInUse slots.old self.0 (λ at. Room (body_occurs at.body) ledger.old) }
        ensures handed { OnOk result (IfInUse slots.old self.0 (λ at. (v : Val)
            → value_of at.body ≡ Some v → Shows slots.new
            (handed taker self.0 at.owner v (heap_of slots.old)))) }
        ensures memory { IfInUse slots.old self.0 (λ at.
            takes_memory at.body ≡ false → IsOk result) }
        ensures left { OnErr result (IfInUse slots.old self.0 (λ at. Shows slots.new
            (unhanded taker self.0 at.owner (heap_of slots.old)))) }
        ensures ledger_kept { OnErr result (taker ≡ Taker.Itself → ledger.new ≡ ledger.old) }
        ensures conserved { Conserved (slots_occur slots.old) ledger.old (slots_occur slots.new)
            ledger.new }
    {
        match self.make_whole(slots, ledger) {
            Ok(()) => match taker {
                Taker::Above => {
                    self.give(slots);
                    Ok(())
                }
                Taker::Set => {
                    self.end(slots, ledger);
                    Ok(())
                }
                Taker::Itself => Ok(()),
            },
            Err(refused) => match taker {
                Taker::Above | Taker::Set => {
                    self.release_frame(slots, ledger);
                    Err(refused)
                }
                Taker::Itself => Err(refused),
            },
        }
    }

    /// Records the tokens of what was put at the place as released. Its slot is then free, and its
    /// owner has it in no slot. Children in slots of their own stay there.
    pub fn release_frame(self, slots: &mut Slots, ledger: &mut Ledger)
        requires in_use { IsInUse slots.old self.0 }
        requires room { IfInUse slots.old self.0 (λ at. Room (body_occurs at.body) ledger.old) }
        ensures left { IfInUse slots.old self.0 (λ at.
            Shows slots.new (without (heap_of slots.old) self.0 at.owner)) }
        ensures released { IfInUse slots.old self.0 (λ at.
            RoseBy (body_occurs at.body) ledger.old ledger.new) }
        ensures tokens { IfInUse slots.old self.0 (λ at. (t : ℕ) → slots_occur slots.old t
            ≡ slots_occur slots.new t + body_occurs at.body t) }
    {
        let (_, partial) = self.take_out(slots);
        release_partial(partial, ledger);
    }
}
