//! Completing what lies beneath the place on top of the stack.
ghost use Rattle.fr_store.specs.Common.{Conserved, IsChecked, IsHeldUpHere, IsKept, IsOpen, IsSuited, IsWalk, OnOk, Room, StayPutButBeneath, cursor_in, kid_here, kid_on_top, root_shape, slots_occur, tokens_in, tree_in_slots};
ghost use Rattle.std.specs.Prelude.{IfErr, ◌≡◌, ◌⊎◌};
ghost use Rattle.fr_shape.specs.declared.error.ReflectErrorKind.{ReflectErrorKind as Kind};
ghost use Rattle.fr_frame.specs.Completing.{IsPlanFor};
ghost use Rattle.fr_store.specs.Beneath.{IsCompleteBeneath};

use crate::finishing::complete_in_turn;
use crate::listing::walk_beneath;
use crate::{FrameStore, Stack};
use fr_frame::{SlotId, Slots};
use fr_model::{law_closing, law_completes, law_failing};
use fr_plan::TypePlanCore;
use fr_shape::{Hooks, Ledger, ReflectErrorKind, ShapeTable, law_hooks};

impl FrameStore {
    /// The turns of all places of a walk over what lies beneath the place on top of the stack. Each
    /// is taken out of the store.
    fn complete_in_order_beneath<H: Hooks>(
        &mut self,
        slots: &mut Slots,
        stack: &Stack,
        walk: &[u32],
        table: &ShapeTable,
        plan: &TypePlanCore,
        hooks: &H,
        ledger: &mut Ledger,
    ) -> Result<(), ReflectErrorKind>
        requires checked { IsChecked table.now }
        requires plan { IsPlanFor table.now plan.now }
        requires is_open { IsOpen plan.now slots.old stack.now }
        requires kept { IsKept self.old slots.old }
        requires suits { IsSuited table.now (root_shape plan.now)
            (tree_in_slots slots.old stack.now) }
        requires room { Room (tokens_in slots.old stack.now) ledger.old }
        requires walk { IsWalk (kid_on_top slots.old stack.now) walk.now }
        ensures completed { OnOk result (IsCompleteBeneath (H.means hooks.now) table.now plan.now
            slots.old stack.now slots.new) }
        ensures others { OnOk result (StayPutButBeneath (cursor_in slots.old stack.now)
            (kid_here slots.old stack.now) (kid_here slots.new stack.now)) }
        ensures kept { OnOk result (IsKept self.new slots.new) }
        ensures why { IfErr result (λ kind. (kind ≡ Kind.OutOfMemory)
            ⊎ IsHeldUpHere (H.means hooks.now) table.now plan.now slots.old stack.now kind) }
        ensures conserved { Conserved (slots_occur slots.old) ledger.old
            (slots_occur slots.new) ledger.new }
    {
        law_closing();
        law_completes();
        law_failing();
        law_hooks::<H>();
        for place in walk {
            let place = SlotId(*place);
            match complete_in_turn(slots, stack, place, table, plan, hooks, ledger) {
                Ok(()) => self.remove(place),
                Err(kind) => return Err(kind),
            }
        }
        Ok(())
    }

    /// Completes all places that lie strictly beneath the one on top of the stack, the longest path
    /// first, then step by step, and nothing else: the place on top stays as it is, with its
    /// children there, or not there; but a conversion is whole then, with what is made of its
    /// source. What a set or a map has twice is released. The first place that fails gives the
    /// refusal. It takes as much time as there are children beneath the top, and the memory of a
    /// list of those in slots, besides what its hooks take.
    pub fn complete_beneath<H: Hooks>(
        &mut self,
        slots: &mut Slots,
        stack: &Stack,
        table: &ShapeTable,
        plan: &TypePlanCore,
        hooks: &H,
        ledger: &mut Ledger,
    ) -> Result<(), ReflectErrorKind>
        requires checked { IsChecked table.now }
        requires plan { IsPlanFor table.now plan.now }
        requires is_open { IsOpen plan.now slots.old stack.now }
        requires kept { IsKept self.old slots.old }
        requires suits { IsSuited table.now (root_shape plan.now)
            (tree_in_slots slots.old stack.now) }
        requires room { Room (tokens_in slots.old stack.now) ledger.old }
        ensures completed { OnOk result (IsCompleteBeneath (H.means hooks.now) table.now plan.now
            slots.old stack.now slots.new) }
        ensures others { OnOk result (StayPutButBeneath (cursor_in slots.old stack.now)
            (kid_here slots.old stack.now) (kid_here slots.new stack.now)) }
        ensures kept { OnOk result (IsKept self.new slots.new) }
        ensures why { IfErr result (λ kind. (kind ≡ Kind.OutOfMemory)
            ⊎ IsHeldUpHere (H.means hooks.now) table.now plan.now slots.old stack.now kind) }
        ensures conserved { Conserved (slots_occur slots.old) ledger.old
            (slots_occur slots.new) ledger.new }
    {
        let Ok(walk) = walk_beneath(slots, stack, self.alloc()) else {
            return Err(ReflectErrorKind::OutOfMemory);
        };
        self.complete_in_order_beneath(slots, stack, &walk, table, plan, hooks, ledger)
    }
}
