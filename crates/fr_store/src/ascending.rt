//! What becomes of the place at which a builder works as it ends: its value is handed over, or it
//! is left as it is.
ghost use Rattle.fr_store.specs.Common.{AllStayPut, AtTop, Conserved, IsKept, IsOpen, IsOpenAt, IsOpened, Plan, IsSome, OnErr, OnOk, Room, SameMarks, SameTokens, Shows, Some, Val, [], cursor_in, false, heap_of, is_root, kid_here, slots_occur, tokens_here, tree_at, tree_in_slots, up, value_of};
ghost use Rattle.std.specs.Prelude.{IfSome, IsNone, IsOk, ◌≡◌};
ghost use Rattle.fr_frame.specs.Bodies.{takes_memory};
ghost use Rattle.fr_store.specs.StackMoves.{place_then, takes_at_end, tree_then, IsLeftBy, MayHandOver};
ghost use Rattle.fr_store.specs.StayPut.{StayPutAs};
ghost use Rattle.fr_frame.specs.declared.places.Taker.{Taker as By};

use crate::{FrameStore, Stack};
use fr_frame::{SlotId, Slots, Taker};
use fr_shape::{Ledger, OutOfMemory};

impl Stack {
    /// The place on top, whose value goes where this says: it is taken off, but where it stays.
    fn top_for(&mut self, taker: Taker) -> Option<SlotId>
        ensures place { IfSome result (λ place. IsLeftBy taker self.old place.0 self.new) }
        ensures none { IsNone result → self.old ≡ [] }
    {
        match taker {
            Taker::Above | Taker::Set => self.pop(),
            Taker::Itself => self.top(),
        }
    }

    /// The value of the place on top goes into the place above, or to the set above, behind the
    /// items that this has, unless it is one of them already, and the builder works there; or the
    /// place becomes whole with it where it is. What else is stored stays so. Only a begun option,
    /// result or pointer, also one to a slice, takes memory: a box for what it holds; and a set, a
    /// map or a dynamic value, which is put together anew. What is there twice is released, and so
    /// is, where there is no memory, what was put at a place whose value should go up.
    #[inline(always)]
    pub fn hand_over(
        &mut self,
        slots: &mut Slots,
        taker: Taker,
        ledger: &mut Ledger,
    ) -> Result<(), OutOfMemory>
        requires is_open { IsOpened slots.old self.old }
        requires may { MayHandOver taker slots.old self.old }
        requires complete { AtTop slots.old self.old (λ at. IsSome (value_of at.body)) }
        requires room { Room (tokens_here slots.old self.old) ledger.old }
        ensures handed { OnOk result ((plan : Plan) → IsOpen plan slots.old self.old
            → AtTop slots.old self.old (λ at. (v : Val) → value_of at.body ≡ Some v
            → IsOpenAt plan slots.new self.new (place_then taker (cursor_in slots.old self.old))
            (tree_then taker (cursor_in slots.old self.old) v
            (tree_in_slots slots.old self.old)))) }
        ensures places { OnOk result (StayPutAs taker (cursor_in slots.old self.old)
            (kid_here slots.old self.old) (kid_here slots.new self.new)) }
        ensures memory { AtTop slots.old self.old (λ at.
            takes_memory at.body ≡ false → IsOk result) }
        ensures marks { SameMarks slots.old slots.new }
        ensures stack { taker ≡ By.Itself → self.new ≡ self.old }
        ensures refused { OnErr result (taker ≡ By.Itself
            → Shows slots.new (heap_of slots.old)) }
        ensures ledger_kept { OnErr result (taker ≡ By.Itself → ledger.new ≡ ledger.old) }
        ensures conserved { Conserved (slots_occur slots.old) ledger.old
            (slots_occur slots.new) ledger.new }
    {
        let Some(place) = self.top_for(taker) else {
            unreachable!()
        };
        place.hand_over(slots, taker, ledger)
    }

    /// Deferred mode: the place on top, which is no item of a set and no part of a dynamic value,
    /// is stored as it is, and the builder works at the place above.
    pub fn leave(&mut self, slots: &mut Slots, store: &mut FrameStore) -> Result<(), OutOfMemory>
        requires is_open { IsOpened slots.old self.old }
        requires kept { IsKept store.old slots.old }
        requires below { is_root (cursor_in slots.old self.old) ≡ false }
        requires not_item { takes_at_end (tree_at (up (cursor_in slots.old self.old))
            (tree_in_slots slots.old self.old)) ≡ false }
        ensures left { OnOk result ((plan : Plan) → IsOpen plan slots.old self.old
            → IsOpenAt plan slots.new self.new (up (cursor_in slots.old self.old))
            (tree_in_slots slots.old self.old)) }
        ensures places { AllStayPut (kid_here slots.old self.old) (kid_here slots.new self.new) }
        ensures kept { IsKept store.new slots.new }
        ensures tokens { SameTokens slots.old slots.new }
        ensures slots_kept { OnErr result (slots.new ≡ slots.old) }
        ensures store_kept { OnErr result (store.new ≡ store.old) }
        ensures refused { OnErr result (self.new ≡ self.old) }
    {
        let Some(place) = self.top() else {
            unreachable!()
        };
        store.insert(slots, place)?;
        self.pop();
        Ok(())
    }
}
