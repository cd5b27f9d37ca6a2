//! The end of deferred mode: all that was left is completed, the deepest places first.
ghost use Rattle.fr_store.specs.Common.{Conserved, HasTurned, IfInUse, IsChecked, IsHeldUp, IsInUse, IsKept, IsLackingAt, IsOpen, IsSuited, IsWalk, KeepsTheRest, LacksHere, MayTurn, NothingStored, OnErr, OnOk, Room, RoseBy, StoppedByTurns, Walked, [], body_of, cursor_in, heap_of, root_shape, slots_occur, tokens_in, tree_in_slots, ℕ};
ghost use Rattle.std.specs.Prelude.{is_some, IfErr, ◌≡◌, ◌⊎◌};
ghost use Rattle.fr_shape.specs.declared.error.ReflectErrorKind.{ReflectErrorKind as Kind};
ghost use Rattle.fr_frame.specs.Completing.{IsPlanFor};
ghost use Rattle.fr_frame.specs.Converting.{conversion_over};
ghost use Rattle.fr_store.specs.Turning.{becomes_whole, kid_here, CameByTurns, FinishedHere, OpenStayPut};
ghost use Rattle.fr_store.specs.Turns.{IsFinished};

use crate::{FrameStore, Stack};
use fr_frame::{ItemsKind, PartialValue, SlotId, Slots, Taker, Tracker};
use fr_model::{law_closing, law_completes, law_failing};
use fr_plan::{TypePlanCore, law_plan_lookups, law_plan_reach};
use fr_shape::{Hooks, Ledger, OutOfMemory, ReflectErrorKind, ShapeTable, law_hooks};

/// Whether the place is the source of a conversion.
fn is_source(slots: &Slots, place: SlotId) -> bool
    ensures { result ≡ is_some (conversion_over (heap_of slots.now) place.0) }
{
    match place.conversion_above(slots) {
        Some(_) => true,
        None => false,
    }
}

/// The turn of a stored place that has no child in a slot: it is completed, and its value goes
/// into the place above; or it is the source of a conversion, and the place above is whole with
/// what that makes of its value. What a set or a map has twice is released. Where there is no
/// memory for the box that a begun option, result or pointer takes, also one to a slice, or for
/// putting a set, a map or a dynamic value together, or where the source isn't converted, what
/// was put at the place is released.
pub(crate) fn complete_in_turn<H: Hooks>(
    slots: &mut Slots,
    stack: &Stack,
    place: SlotId,
    table: &ShapeTable,
    plan: &TypePlanCore,
    hooks: &H,
    ledger: &mut Ledger,
) -> Result<(), ReflectErrorKind>
    requires checked { IsChecked table.now }
    requires plan { IsPlanFor table.now plan.now }
    requires is_open { IsOpen plan.now slots.old stack.now }
    requires suits { IsSuited table.now (root_shape plan.now) (tree_in_slots slots.old stack.now) }
    requires due { MayTurn slots.old stack.now place.0 }
    requires room { Room (tokens_in slots.old stack.now) ledger.old }
    ensures turned { OnOk result (HasTurned (H.means hooks.now) table.now plan.now
        slots.old stack.now slots.new place.0) }
    ensures rest { OnOk result (KeepsTheRest (H.means hooks.now) table.now plan.now
        slots.old stack.now slots.new) }
    ensures why { IfErr result (λ kind. (kind ≡ Kind.OutOfMemory)
        ⊎ IsLackingAt (H.means hooks.now) table.now plan.now slots.old stack.now place.0 kind) }
    ensures conserved { Conserved (slots_occur slots.old) ledger.old
        (slots_occur slots.new) ledger.new }
{
    law_closing();
    law_completes();
    law_plan_lookups();
    law_plan_reach();
    place.complete_by_defaults(slots, table, plan, hooks)?;
    if is_source(slots, place) {
        return place.convert(slots, table, plan, hooks, ledger);
    }
    match place.hand_over(slots, Taker::Above, ledger) {
        Ok(()) => Ok(()),
        Err(OutOfMemory) => Err(ReflectErrorKind::OutOfMemory),
    }
}

/// The turns of all places of a walk.
fn complete_in_order<H: Hooks>(
    slots: &mut Slots,
    stack: &Stack,
    walk: &[u32],
    table: &ShapeTable,
    plan: &TypePlanCore,
    hooks: &H,
    ledger: &mut Ledger,
) -> Result<(), ReflectErrorKind>
    requires checked { IsChecked table.now }
    requires plan { IsPlanFor table.now plan.now }
    requires is_open { IsOpen plan.now slots.old stack.now }
    requires suits { IsSuited table.now (root_shape plan.now) (tree_in_slots slots.old stack.now) }
    requires walk { IsWalk (kid_here slots.old stack.now) walk.now }
    requires room { Room (tokens_in slots.old stack.now) ledger.old }
    ensures walked { OnOk result (Walked (H.means hooks.now) table.now plan.now
        slots.old stack.now slots.new walk.now []) }
    ensures why { IfErr result (λ kind. (kind ≡ Kind.OutOfMemory)
        ⊎ IsHeldUp (H.means hooks.now) table.now plan.now slots.old stack.now kind) }
    ensures stopped { IfErr result (λ kind. (kind ≡ Kind.OutOfMemory)
        ⊎ StoppedByTurns (H.means hooks.now) table.now plan.now slots.old stack.now kind) }
    ensures conserved { Conserved (slots_occur slots.old) ledger.old
        (slots_occur slots.new) ledger.new }
{
    law_closing();
    law_completes();
    law_failing();
    law_hooks::<H>();
    for place in walk {
        let place = SlotId(*place);
        match complete_in_turn(slots, stack, place, table, plan, hooks, ledger) {
            Ok(()) => {}
            Err(kind) => return Err(kind),
        }
    }
    Ok(())
}

/// Whether a place becomes whole where the builder works, by what was put at it: it was only
/// entered, or is a closed pointer to a slice. A dynamic value that is begun stays so, as a list
/// does.
fn becomes_whole_by(partial: &PartialValue) -> bool
    ensures { result ≡ becomes_whole (body_of partial.now) }
{
    match partial {
        PartialValue::Entered | PartialValue::Begun(Tracker::Items(ItemsKind::ClosedSlice), _) =>
            true,
        _ => false,
    }
}

/// Whether the place becomes whole where the builder works.
fn becomes_whole(slots: &Slots, place: SlotId) -> bool
    requires { IsInUse slots.now place.0 }
    ensures { IfInUse slots.now place.0 (λ at. result ≡ becomes_whole at.body) }
{
    match slots.place(place) {
        Some(found) => becomes_whole_by(&found.partial),
        None => unreachable!(),
    }
}

/// Completes the place on top of the stack, nothing being stored. It stays begun where it is; one
/// that was only entered becomes whole, and so does a closed pointer to a slice.
fn complete_top<H: Hooks>(
    slots: &mut Slots,
    stack: &Stack,
    table: &ShapeTable,
    plan: &TypePlanCore,
    hooks: &H,
    ledger: &mut Ledger,
) -> Result<(), ReflectErrorKind>
    requires checked { IsChecked table.now }
    requires plan { IsPlanFor table.now plan.now }
    requires is_open { IsOpen plan.now slots.old stack.now }
    requires suits { IsSuited table.now (root_shape plan.now) (tree_in_slots slots.old stack.now) }
    requires strict { NothingStored slots.old }
    requires room { Room (tokens_in slots.old stack.now) ledger.old }
    ensures finished { OnOk result (FinishedHere (H.means hooks.now) table.now plan.now
        slots.old stack.now slots.new) }
    ensures strict { OnOk result (NothingStored slots.new) }
    ensures why { IfErr result (λ kind. (kind ≡ Kind.OutOfMemory)
        ⊎ LacksHere (H.means hooks.now) table.now plan.now slots.old stack.now kind) }
    ensures conserved { Conserved (slots_occur slots.old) ledger.old
        (slots_occur slots.new) ledger.new }
{
    law_completes();
    law_plan_lookups();
    law_plan_reach();
    let Some(top) = stack.top() else {
        unreachable!()
    };
    let whole = becomes_whole(slots, top);
    top.complete_by_defaults(slots, table, plan, hooks)?;
    if !whole {
        return Ok(());
    }
    match top.hand_over(slots, Taker::Itself, ledger) {
        Ok(()) => Ok(()),
        Err(OutOfMemory) => Err(ReflectErrorKind::OutOfMemory),
    }
}

impl FrameStore {
    /// Completes every stored place, and then the place on top of the stack. Where it can't be,
    /// each token is still there or was released.
    fn complete_all<H: Hooks>(
        &mut self,
        slots: &mut Slots,
        stack: &Stack,
        table: &ShapeTable,
        plan: &TypePlanCore,
        hooks: &H,
        ledger: &mut Ledger,
    ) -> Result<(), ReflectErrorKind>
        requires checked { IsChecked table.now }
        requires plan { IsPlanFor table.now plan.now }
        requires is_open { IsOpen plan.now slots.old stack.now }
        requires kept { IsKept self.old slots.old }
        requires suits { IsSuited table.now (root_shape plan.now)
            (tree_in_slots slots.old stack.now) }
        requires room { Room (tokens_in slots.old stack.now) ledger.old }
        ensures finished { OnOk result (IsFinished (H.means hooks.now) table.now plan.now
            slots.old stack.now slots.new stack.now) }
        ensures turns { OnOk result (CameByTurns (H.means hooks.now) table.now plan.now
            slots.old stack.now slots.new stack.now) }
        ensures strict { OnOk result (NothingStored slots.new) }
        ensures why { IfErr result (λ kind. (kind ≡ Kind.OutOfMemory)
            ⊎ IsHeldUp (H.means hooks.now) table.now plan.now slots.old stack.now kind) }
        ensures stopped { IfErr result (λ kind. (kind ≡ Kind.OutOfMemory)
            ⊎ StoppedByTurns (H.means hooks.now) table.now plan.now slots.old stack.now kind) }
        ensures empty { self.new ≡ [] }
        ensures conserved { Conserved (slots_occur slots.old) ledger.old
            (slots_occur slots.new) ledger.new }
    {
        law_failing();
        let walk = self.take_walk(slots, stack);
        match complete_in_order(slots, stack, &walk, table, plan, hooks, ledger) {
            Ok(()) => {}
            Err(kind) => return Err(kind),
        }
        match complete_top(slots, stack, table, plan, hooks, ledger) {
            Ok(()) => Ok(()),
            Err(kind) => Err(kind),
        }
    }

    /// Completes every stored place, the longest path first, then step by step, and then the place
    /// on top of the stack, which stays begun where it is, but a closed pointer to a slice. A
    /// conversion is whole as its source completes, also the one on top. What a set or a map has
    /// twice is released. The first place that fails gives the refusal, a source where it isn't
    /// converted; all is released then. Only templates, boxes for what options, results and
    /// pointers hold, sets, maps and dynamic values that are put together, and hooks that convert
    /// want memory.
    pub fn finish<H: Hooks>(
        &mut self,
        slots: &mut Slots,
        stack: &mut Stack,
        table: &ShapeTable,
        plan: &TypePlanCore,
        hooks: &H,
        ledger: &mut Ledger,
    ) -> Result<(), ReflectErrorKind>
        requires checked { IsChecked table.now }
        requires plan { IsPlanFor table.now plan.now }
        requires is_open { IsOpen plan.now slots.old stack.old }
        requires kept { IsKept self.old slots.old }
        requires suits { IsSuited table.now (root_shape plan.now) (tree_in_slots slots.old stack.old) }
        requires room { Room (tokens_in slots.old stack.old) ledger.old }
        ensures finished { OnOk result (IsFinished (H.means hooks.now) table.now plan.now
            slots.old stack.old slots.new stack.new) }
        ensures turns { OnOk result (CameByTurns (H.means hooks.now) table.now plan.now
            slots.old stack.old slots.new stack.new) }
        ensures strict { NothingStored slots.new }
        ensures empty { self.new ≡ [] }
        ensures conserved { OnOk result (Conserved (slots_occur slots.old) ledger.old
            (slots_occur slots.new) ledger.new) }
        ensures why { IfErr result (λ kind. (kind ≡ Kind.OutOfMemory)
            ⊎ IsHeldUp (H.means hooks.now) table.now plan.now slots.old stack.old kind) }
        ensures stopped { IfErr result (λ kind. (kind ≡ Kind.OutOfMemory)
            ⊎ StoppedByTurns (H.means hooks.now) table.now plan.now slots.old stack.old kind) }
        ensures stack { stack.new ≡ stack.old }
        ensures in_place { OnOk result (OpenStayPut (kid_here slots.old stack.old)
            (kid_here slots.new stack.new) (cursor_in slots.old stack.old)) }
        ensures emptied { OnErr result ((t : ℕ) → slots_occur slots.new t ≡ 0) }
        ensures released { OnErr result
            (RoseBy (tokens_in slots.old stack.old) ledger.old ledger.new) }
    {
        let result = self.complete_all(slots, stack, table, plan, hooks, ledger);
        match result {
            Ok(()) => Ok(()),
            Err(kind) => {
                let rest = std::mem::replace(slots, Slots::new(self.alloc()));
                rest.release(ledger);
                Err(kind)
            }
        }
    }
}
