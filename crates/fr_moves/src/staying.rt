//! What comes of the place at which the builder works, where it stays.
ghost use Rattle.std.specs.Prelude.{◌+◌, ◌≡◌, ◌≢◌};
ghost use Rattle.fr_moves.specs.Common.{Changed, Conserved, IfErr, IsAtWork, IsMade, IsMeant, IsOk, IsSound, MayStay, Ok, OnErr, OnOk, Room, carried_by, changed, cursor_tree, held_in, mode_of, shape_at, site, top_shape, top_tree, true};
ghost use Rattle.fr_shape.specs.declared.error.ReflectErrorKind.{ReflectErrorKind as Kind};
ghost use Rattle.fr_moves.specs.declared.moves.Move.{Move as Moves};
ghost use Rattle.fr_moves.specs.Moving.{needs_none_for, stays};

use crate::beginning::begin_variant;
use crate::dynamic_places::begin_parts;
use crate::moves::Change;
use crate::opening::open_here;
use crate::parts::{Frames, Parts};
use crate::putting::put_in_child;
use crate::slices::{begin_slice, close_slice};
use fr_model::{law_paths, law_well};
use fr_plan::TypePlanCore;
use fr_shape::{Ledger, OutOfMemory, ReflectErrorKind};

/// Changes the place on top. Where there is no memory, what isn't released is still there.
#[inline(always)]
fn change_top(
    plan: &TypePlanCore,
    frames: &mut Frames,
    change: Change,
    ledger: &mut Ledger,
) -> Result<(), OutOfMemory>
    requires at_work { IsAtWork plan.now frames.old }
    requires may { MayStay frames.old.table.now (top_shape frames.old)
        (top_tree frames.old) change }
    requires room { Room (λ t. held_in frames.old t + carried_by change t) ledger.old }
    ensures changed { OnOk result (Changed plan.now
        (changed frames.old.table.now (top_shape frames.old) (mode_of frames.old.mode)
        (top_tree frames.old) change) frames.old frames.new) }
    ensures memory { needs_none_for change (top_tree frames.old) ≡ true → IsOk result }
    ensures tokens { Conserved (λ t. held_in frames.old t + carried_by change t) ledger.old
        (held_in frames.new) ledger.new }
{
    match change {
        Change::Nothing => Ok(()),
        Change::Put(value) => {
            let (slots, store) = (&mut frames.slots, &mut frames.store);
            frames.stack.set(slots, store, value, ledger);
            Ok(())
        }
        Change::PutChild(i, opening, value) => {
            put_in_child(plan, frames, i, opening, value, ledger)
        }
        Change::Open(opening) => open_here(plan, frames, opening, ledger),
        Change::Select(chosen) => begin_variant(plan, frames, chosen, ledger),
        Change::Gather(parts) => begin_parts(plan, frames, parts, ledger),
        Change::OpenSlice => begin_slice(plan, frames, ledger),
        Change::CloseSlice => {
            close_slice(frames);
            Ok(())
        }
    }
}

/// The same of the place at which the builder works.
#[inline(always)]
pub fn stay(parts: &mut Parts, change: Change, ledger: &mut Ledger) -> Result<(), ReflectErrorKind>
    requires sound { IsSound parts.old }
    requires meant { IsMeant (site parts.old) (Moves.Stay change) }
    requires room { Room (λ t. held_in parts.old.frames t + carried_by change t) ledger.old }
    ensures sound { OnOk result (IsSound parts.new) }
    ensures moved { IsMade parts.old parts.new
        (Ok (stays (site parts.old).shapes (shape_at (site parts.old)) (site parts.old).state
        change)) result }
    ensures path { OnErr result (parts.new.path ≡ parts.old.path) }
    ensures tokens { Conserved (λ t. held_in parts.old.frames t + carried_by change t)
        ledger.old (held_in parts.new.frames) ledger.new }
    ensures memory { needs_none_for change (cursor_tree (site parts.old).state) ≡ true
        → IfErr result (λ kind. kind ≢ Kind.OutOfMemory) }
{
    law_paths();
    law_well();
    match change_top(parts.plan.core(), &mut parts.frames, change, ledger) {
        Ok(()) => {
            parts.calls = parts.calls.saturating_add(1);
            Ok(())
        }
        Err(OutOfMemory) => Err(ReflectErrorKind::OutOfMemory),
    }
}
