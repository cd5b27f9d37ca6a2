//! A pointer to a slice that is closed for further items or opened again.
ghost use Rattle.fr_store.specs.Common.{AllStayPut, IsOpen, IsOpenAt, IsOpened, Plan, SameMarks, SameTokens, as_tracker, changed_here, cursor_in, kid_here, tree_here};
ghost use Rattle.fr_store.specs.StackMoves.{begun_as, IsBegunSlice, IsSlice};

use crate::Stack;
use fr_frame::{Slots, Tracker};

impl Stack {
    /// Closes the open pointer to a slice on top, or opens a closed one, with the items that it
    /// has. Takes no memory.
    pub fn reform(&self, slots: &mut Slots, tracker: Tracker)
        requires is_open { IsOpened slots.old self.now }
        requires slice { IsBegunSlice (tree_here slots.old self.now) }
        requires tracker { IsSlice (as_tracker tracker) }
        ensures reformed { (plan : Plan) → IsOpen plan slots.old self.now → IsOpenAt plan slots.new
            self.now (cursor_in slots.old self.now)
            (changed_here (begun_as (as_tracker tracker)) slots.old self.now) }
        ensures places { AllStayPut (kid_here slots.old self.now) (kid_here slots.new self.now) }
        ensures tokens { SameTokens slots.old slots.new }
        ensures marks { SameMarks slots.old slots.new }
    {
        match self.top() {
            Some(place) => place.reform(slots, tracker),
            None => unreachable!(),
        }
    }
}
