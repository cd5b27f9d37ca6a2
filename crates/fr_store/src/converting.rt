//! The end of a conversion's source in strict mode.
ghost use Rattle.fr_store.specs.Common.{AtTop, Conserved, IsChecked, IsOpen, IsSome, IsSuited, OnOk, Room, SameMarks, StayPutBut, Val, Some, cursor_in, false, is_begun_conversion, is_root, kid_here, root_shape, slots_occur, tokens_here, tree_in_slots, true, value_of};
ghost use Rattle.std.specs.Prelude.{IfErr, ◌≡◌, ◌⊎◌};
ghost use Rattle.fr_shape.specs.declared.error.ReflectErrorKind.{ReflectErrorKind as Kind};
ghost use Rattle.fr_frame.specs.Completing.{IsPlanFor};
ghost use Rattle.fr_store.specs.ConvertingSources.{tree_above, IsConvertedUp, IsRefusedUp};

use crate::Stack;
use fr_frame::Slots;
use fr_plan::{TypePlanCore, law_plan_lookups, law_plan_reach};
use fr_shape::{Hooks, Ledger, ReflectErrorKind, ShapeTable};

impl Stack {
    /// The value of the place on top, a source, is converted: the place above is whole with what
    /// the hook made of it, and the builder works there. Where the hook makes nothing of it, or
    /// there is no memory for the value, what was put at the source is released.
    pub fn convert<H: Hooks>(
        &mut self,
        slots: &mut Slots,
        table: &ShapeTable,
        plan: &TypePlanCore,
        hooks: &H,
        ledger: &mut Ledger,
    ) -> Result<(), ReflectErrorKind>
        requires checked { IsChecked table.now }
        requires plan { IsPlanFor table.now plan.now }
        requires is_open { IsOpen plan.now slots.old self.old }
        requires suits { IsSuited table.now (root_shape plan.now)
            (tree_in_slots slots.old self.old) }
        requires below { is_root (cursor_in slots.old self.old) ≡ false }
        requires source { is_begun_conversion (tree_above slots.old self.old) ≡ true }
        requires complete { AtTop slots.old self.old (λ at. IsSome (value_of at.body)) }
        requires room { Room (tokens_here slots.old self.old) ledger.old }
        ensures converted { OnOk result (AtTop slots.old self.old (λ at. (v : Val)
            → value_of at.body ≡ Some v → IsConvertedUp (H.means hooks.now) table.now plan.now
            slots.old self.old slots.new self.new v)) }
        ensures places { OnOk result (StayPutBut (cursor_in slots.old self.old)
            (kid_here slots.old self.old) (kid_here slots.new self.new)) }
        ensures marks { OnOk result (SameMarks slots.old slots.new) }
        ensures why { IfErr result (λ kind. (kind ≡ Kind.OutOfMemory)
            ⊎ AtTop slots.old self.old (λ at. (v : Val) → value_of at.body ≡ Some v
            → IsRefusedUp (H.means hooks.now) table.now plan.now slots.old self.old v kind)) }
        ensures conserved { Conserved (slots_occur slots.old) ledger.old
            (slots_occur slots.new) ledger.new }
    {
        law_plan_lookups();
        law_plan_reach();
        let Some(place) = self.pop() else {
            unreachable!()
        };
        place.convert(slots, table, plan, hooks, ledger)
    }
}
