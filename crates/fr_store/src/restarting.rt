//! Beginning anew at the place at which a builder works.
ghost use Rattle.std.specs.Prelude.{IsOk, ◌≡◌};
ghost use Rattle.fr_store.specs.Common.{Conserved, IsKept, IsOpen, IsOpenAt, IsOpened, Plan, MayHave, OnErr, OnOk, Room, RoseBy, StayPutButBeneath, StoresNoMore, as_tracker, base_of_tracker, begun, changed_here, cursor_in, holes, kid_here, slots_occur, tokens_here};

use crate::{FrameStore, Stack};
use fr_frame::{Slots, Tracker};
use fr_shape::{Ledger, OutOfMemory};

impl Stack {
    /// Begins the place on top anew, with so many children, none of them there yet: all that was
    /// put there and all that is stored beneath it is released. Where there is no memory for the
    /// children, some of it may be released. Without children it takes no memory.
    pub fn restart(
        &self,
        slots: &mut Slots,
        store: &mut FrameStore,
        tracker: Tracker,
        count: usize,
        ledger: &mut Ledger,
    ) -> Result<(), OutOfMemory>
        requires is_open { IsOpened slots.old self.now }
        requires kept { IsKept store.old slots.old }
        requires may_have { MayHave (as_tracker tracker) count }
        requires base { base_of_tracker (as_tracker tracker) ≡ 0 }
        requires room { Room (tokens_here slots.old self.now) ledger.old }
        ensures restarted { OnOk result ((plan : Plan) → IsOpen plan slots.old self.now
            → IsOpenAt plan slots.new self.now
            (cursor_in slots.old self.now)
            (changed_here (λ old. begun (as_tracker tracker) (holes count)) slots.old self.now)) }
        ensures places { OnOk result (StayPutButBeneath (cursor_in slots.old self.now)
            (kid_here slots.old self.now) (kid_here slots.new self.now)) }
        ensures released { OnOk result
            (RoseBy (tokens_here slots.old self.now) ledger.old ledger.new) }
        ensures memory { count ≡ 0 → IsOk result }
        ensures kept { IsKept store.new slots.new }
        ensures marks { StoresNoMore slots.old slots.new }
        ensures tokens { OnErr result (Conserved (slots_occur slots.old) ledger.old
            (slots_occur slots.new) ledger.new) }
    {
        let Some(place) = self.top() else {
            unreachable!()
        };
        store.prune(slots, place, ledger);
        place.restart(slots, tracker, count, ledger)
    }
}
