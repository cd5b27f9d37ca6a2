//! Leaving a place: as it is, or completed, its value handed over; and the value of the root.
ghost use Rattle.std.specs.Prelude.{◌≡◌, ◌≢◌};
ghost use Rattle.fr_moves.specs.Common.{AreOpened, Plan, AreOpen, AtTop, Conserved, HoldsItsValue, IfErr, IfOk, IsAtWork, IsErr, IsMade, IsMeant, IsOk, IsSome, IsSound, MayReceive, Ok, OnErr, OnOk, Room, RoseBy, Rules, SameTokens, Some, Val, WhyNot, [], complete, cursor_tree, false, held_in, meant_by, mode_of, needs_none_by, occurs, site, strict, strict_column, takes_memory, top_place, top_shape, top_tree, true, value_of, view, ℕ};
ghost use Rattle.fr_shape.specs.declared.error.ReflectErrorKind.{ReflectErrorKind as Kind};
ghost use Rattle.fr_model.specs.Step.{leaves};
ghost use Rattle.fr_moves.specs.declared.moves.Move.{Move as Moves};
ghost use Rattle.fr_moves.specs.CompletedPlaces.{IsCompleted, IsHandedOver, IsPathThen, IsUncompleted, PassesValidators, RulesServe};
ghost use Rattle.fr_refusals.specs.Modes.{IsBelowStart};
ghost use Rattle.fr_moves.specs.Moving.{is_late_by};

use crate::kept_path::step_back;
use crate::moves::Rules;
use crate::parts::{Frames, Parts};
use fr_frame::Taker;
use fr_model::{law_paths, law_well};
use fr_path::Path;
use fr_plan::{TypePlanCore, law_plan_lookups, law_plan_reach};
use fr_shape::{Hooks, Ledger, OutOfMemory, ReflectErrorKind, Value, law_hooks};

/// Goes up from the place at which the builder works, which is left as it is.
#[inline(always)]
pub fn leave(parts: &mut Parts) -> Result<(), ReflectErrorKind>
    requires sound { IsSound parts.old }
    requires meant { IsMeant (site parts.old) Moves.Leave }
    ensures sound { OnOk result (IsSound parts.new) }
    ensures moved { IsMade parts.old parts.new (Ok (leaves (site parts.old).state)) result }
    ensures path { OnErr result (parts.new.path ≡ parts.old.path) }
    ensures tokens { (t : ℕ) → held_in parts.new.frames t ≡ held_in parts.old.frames t }
{
    law_paths();
    law_well();
    let frames = &mut parts.frames;
    let (slots, store) = (&mut frames.slots, &mut frames.store);
    match frames.stack.leave(slots, store) {
        Ok(()) => {
            step_back(&mut parts.path);
            parts.calls = parts.calls.saturating_add(1);
            Ok(())
        }
        Err(OutOfMemory) => Err(ReflectErrorKind::OutOfMemory),
    }
}

/// Completes the place on top by the rules of strict mode. Where that can't be, what was put is
/// still there.
fn complete_strictly<H: Hooks>(
    plan: &TypePlanCore,
    hooks: &H,
    frames: &mut Frames,
) -> Result<(), ReflectErrorKind>
    requires at_work { IsAtWork plan.now frames.old }
    requires strict { mode_of frames.old.mode ≡ strict }
    ensures completed { OnOk result (HoldsItsValue Rules.Strict (H.means hooks.now) plan.now
        frames.old frames.new) }
    ensures why { IfErr result (WhyNot (H.means hooks.now) frames.old.table.now
        (top_shape frames.old) (top_tree frames.old)) }
    ensures tokens { SameTokens frames.old.slots frames.new.slots }
{
    law_plan_lookups();
    law_plan_reach();
    let Some(top) = frames.stack.top() else {
        unreachable!()
    };
    top.fill_and_require_fields(&mut frames.slots, frames.table, plan, hooks)
}

/// Completes all that was left beneath the place on top, and then that, by the rules of the end of
/// deferred mode. Where that can't be, what was put is still there, but for what is released.
fn complete_wholly<H: Hooks>(
    plan: &TypePlanCore,
    hooks: &H,
    frames: &mut Frames,
    ledger: &mut Ledger,
) -> Result<(), ReflectErrorKind>
    requires at_work { IsAtWork plan.now frames.old }
    requires deferred { IsBelowStart (mode_of frames.old.mode) (top_place frames.old) }
    requires room { Room (held_in frames.old) ledger.old }
    ensures completed { OnOk result (HoldsItsValue Rules.Deferred (H.means hooks.now) plan.now
        frames.old frames.new) }
    ensures why { IfErr result (IsUncompleted Rules.Deferred (H.means hooks.now)
        frames.old.table.now (top_shape frames.old) (top_tree frames.old)) }
    ensures tokens { Conserved (held_in frames.old) ledger.old (held_in frames.new) ledger.new }
{
    law_plan_lookups();
    law_plan_reach();
    let table = frames.table;
    let (slots, stack) = (&mut frames.slots, &frames.stack);
    let store = &mut frames.store;
    match store.complete_beneath(slots, stack, table, plan, hooks, ledger) {
        Ok(()) => {}
        Err(kind) => return Err(kind),
    }
    let Some(top) = stack.top() else {
        unreachable!()
    };
    top.complete_by_defaults(slots, table, plan, hooks)
}

/// Completes the place on top by these rules.
#[inline(always)]
fn complete_top<H: Hooks>(
    plan: &TypePlanCore,
    hooks: &H,
    frames: &mut Frames,
    rules: Rules,
    ledger: &mut Ledger,
) -> Result<(), ReflectErrorKind>
    requires at_work { IsAtWork plan.now frames.old }
    requires serves { RulesServe rules (mode_of frames.old.mode) (top_place frames.old) }
    requires room { Room (held_in frames.old) ledger.old }
    ensures completed { OnOk result (HoldsItsValue rules (H.means hooks.now) plan.now
        frames.old frames.new) }
    ensures why { IfErr result (IsUncompleted rules (H.means hooks.now) frames.old.table.now
        (top_shape frames.old) (top_tree frames.old)) }
    ensures tokens { Conserved (held_in frames.old) ledger.old (held_in frames.new) ledger.new }
{
    match rules {
        Rules::Strict => complete_strictly(plan, hooks, frames),
        Rules::Deferred => complete_wholly(plan, hooks, frames, ledger),
    }
}

/// Hands over the value that the place on top holds. Where there is no memory, what was put at the
/// place may be released.
#[inline(always)]
fn hand_over(frames: &mut Frames, taker: Taker, ledger: &mut Ledger) -> Result<(), OutOfMemory>
    requires are_open { AreOpened frames.old }
    requires may { MayReceive taker frames.old }
    requires complete { AtTop frames.old.slots frames.old.stack (λ at. IsSome (value_of at.body)) }
    requires room { Room (held_in frames.old) ledger.old }
    ensures handed { OnOk result ((plan : Plan) → AreOpen plan frames.old
        → IsHandedOver taker plan frames.old frames.new) }
    ensures memory { AtTop frames.old.slots frames.old.stack
        (λ at. takes_memory at.body ≡ false → IsOk result) }
    ensures tokens { Conserved (held_in frames.old) ledger.old (held_in frames.new) ledger.new }
{
    let (slots, stack) = (&mut frames.slots, &mut frames.stack);
    stack.hand_over(slots, taker, ledger)
}

/// Completes the place on top by these rules, all that was left beneath it before where they are
/// those of deferred mode, and hands its value over. Where that can't be, what was put is still
/// there, but for what is released.
pub fn complete_here<H: Hooks>(
    plan: &TypePlanCore,
    hooks: &H,
    frames: &mut Frames,
    rules: Rules,
    taker: Taker,
    ledger: &mut Ledger,
) -> Result<(), ReflectErrorKind>
    requires at_work { IsAtWork plan.now frames.old }
    requires serves { RulesServe rules (mode_of frames.old.mode) (top_place frames.old) }
    requires may { MayReceive taker frames.old }
    requires room { Room (held_in frames.old) ledger.old }
    ensures completed { OnOk result (IsCompleted rules taker (H.means hooks.now) plan.now
        frames.old frames.new) }
    ensures why { IfErr result (IsUncompleted rules (H.means hooks.now) frames.old.table.now
        (top_shape frames.old) (top_tree frames.old)) }
    ensures tokens { Conserved (held_in frames.old) ledger.old (held_in frames.new) ledger.new }
{
    complete_top(plan, hooks, frames, rules, ledger)?;
    match hand_over(frames, taker, ledger) {
        Ok(()) => Ok(()),
        Err(OutOfMemory) => Err(ReflectErrorKind::OutOfMemory),
    }
}

/// The path of the place at which the builder works then: one step back where the value goes up.
#[inline(always)]
fn go_back(path: &mut Path, taker: Taker)
    ensures { IsPathThen taker path.old path.new }
{
    match taker {
        Taker::Above | Taker::Set => step_back(path),
        Taker::Itself => {}
    }
}

/// Completes the place at which the builder works, and hands its value over: where it goes up, so
/// does the builder.
#[inline(always)]
pub fn complete<H: Hooks>(
    parts: &mut Parts,
    hooks: &H,
    rules: Rules,
    taker: Taker,
    ledger: &mut Ledger,
) -> Result<(), ReflectErrorKind>
    requires sound { IsSound parts.old }
    requires meant { IsMeant (site parts.old) (Moves.Complete rules taker) }
    requires room { Room (held_in parts.old.frames) ledger.old }
    ensures sound { OnOk result (IsSound parts.new) }
    ensures moved { IsMade parts.old parts.new
        (meant_by (H.means hooks.now) (site parts.old) (Moves.Complete rules taker)) result }
    ensures path { OnErr result (parts.new.path ≡ parts.old.path) }
    ensures tokens { Conserved (held_in parts.old.frames) ledger.old
        (held_in parts.new.frames) ledger.new }
    ensures refused { is_late_by rules ≡ false
        → IsErr (meant_by (H.means hooks.now) (site parts.old) (Moves.Complete rules taker))
        → PassesValidators
        (meant_by (H.means hooks.now) (site parts.old) (Moves.Complete rules taker))
        → IfErr result (λ kind. kind ≢ Kind.OutOfMemory) }
    ensures memory { needs_none_by rules (cursor_tree (site parts.old).state) ≡ true
        → PassesValidators
        (meant_by (H.means hooks.now) (site parts.old) (Moves.Complete rules taker))
        → IfErr result (λ kind. kind ≢ Kind.OutOfMemory) }
{
    law_hooks::<H>();
    law_paths();
    law_well();
    let plan = parts.plan.core();
    match complete_here(plan, hooks, &mut parts.frames, rules, taker, ledger) {
        Ok(()) => {
            go_back(&mut parts.path, taker);
            parts.calls = parts.calls.saturating_add(1);
            Ok(())
        }
        Err(kind) => Err(kind),
    }
}

/// Takes out the value that the root holds. Where there is no memory for that, it is released.
#[inline(always)]
fn take_value(frames: &mut Frames, ledger: &mut Ledger) -> Result<Value, OutOfMemory>
    requires are_open { AreOpened frames.old }
    requires at_root { top_place frames.old ≡ [] }
    requires complete { AtTop frames.old.slots frames.old.stack (λ at. IsSome (value_of at.body)) }
    requires room { Room (held_in frames.old) ledger.old }
    ensures value { IfOk result (λ value. AtTop frames.old.slots frames.old.stack
        (λ at. (v : Val) → value_of at.body ≡ Some v → v ≡ view value)) }
    ensures memory { AtTop frames.old.slots frames.old.stack
        (λ at. takes_memory at.body ≡ false → IsOk result) }
    ensures conserved { IfOk result (λ value. Conserved (held_in frames.old) ledger.old
        (occurs (view value)) ledger.new) }
    ensures released { OnErr result (RoseBy (held_in frames.old) ledger.old ledger.new) }
{
    let Some(top) = frames.stack.top() else {
        unreachable!()
    };
    top.into_value(&mut frames.slots, ledger)
}

/// Completes the root, and gives its value out. Where that can't be, all is released.
pub fn take_root<H: Hooks>(
    plan: &TypePlanCore,
    hooks: &H,
    mut frames: Frames,
    ledger: &mut Ledger,
) -> Result<Value, ReflectErrorKind>
    requires at_work { IsAtWork plan.now frames }
    requires strict { mode_of frames.mode ≡ strict }
    requires at_root { top_place frames ≡ [] }
    requires room { Room (held_in frames) ledger.old }
    ensures value { IfOk result (λ value. complete strict_column (H.means hooks.now)
        frames.entry.table.now (top_shape frames.entry) (top_tree frames.entry)
        ≡ Some (view value)) }
    ensures conserved { IfOk result (λ value.
        Conserved (held_in frames.entry) ledger.old (occurs (view value)) ledger.new) }
    ensures why { IfErr result (WhyNot (H.means hooks.now) frames.entry.table.now
        (top_shape frames.entry) (top_tree frames.entry)) }
    ensures released { OnErr result (RoseBy (held_in frames.entry) ledger.old ledger.new) }
{
    match complete_strictly(plan, hooks, &mut frames) {
        Ok(()) => match take_value(&mut frames, ledger) {
            Ok(value) => Ok(value),
            Err(OutOfMemory) => Err(ReflectErrorKind::OutOfMemory),
        },
        Err(kind) => {
            frames.slots.release(ledger);
            Err(kind)
        }
    }
}
