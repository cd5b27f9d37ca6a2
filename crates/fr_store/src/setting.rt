//! A whole value at the place at which a builder works.
ghost use Rattle.fr_store.specs.Common.{IsKept, IsOpen, IsOpenAt, IsOpened, Plan, Room, RoseBy, StayPutButBeneath, StoresNoMore, changed_here, cursor_in, kid_here, tokens_here, whole};
ghost use Rattle.fr_shape.specs.View.{view};

use crate::{FrameStore, Stack};
use fr_frame::Slots;
use fr_shape::{Ledger, Value};

impl Stack {
    /// Puts a value at the place on top, in the stead of all that was put there and of all that is
    /// stored beneath it, whose tokens are released. Takes no memory.
    #[inline(always)]
    pub fn set(&self, slots: &mut Slots, store: &mut FrameStore, value: Value, ledger: &mut Ledger)
        requires is_open { IsOpened slots.old self.now }
        requires kept { IsKept store.old slots.old }
        requires room { Room (tokens_here slots.old self.now) ledger.old }
        ensures set { (plan : Plan) → IsOpen plan slots.old self.now
            → IsOpenAt plan slots.new self.now (cursor_in slots.old self.now)
            (changed_here (λ old. whole (view value)) slots.old self.now) }
        ensures places { StayPutButBeneath (cursor_in slots.old self.now)
            (kid_here slots.old self.now) (kid_here slots.new self.now) }
        ensures released { RoseBy (tokens_here slots.old self.now) ledger.old ledger.new }
        ensures kept { IsKept store.new slots.new }
        ensures marks { StoresNoMore slots.old slots.new }
    {
        let Some(place) = self.top() else {
            unreachable!()
        };
        store.prune(slots, place, ledger);
        place.put(slots, value, ledger);
    }
}
