//! Converting a source, as it ends in strict mode.
ghost use Rattle.std.specs.Prelude.{◌≡◌, ◌≢◌};
ghost use Rattle.fr_moves.specs.Common.{Conserved, IfErr, IsAtWork, IsErr, IsMade, IsMeant, IsSound, OnErr, OnOk, Room, held_in, meant_by, mode_of, site, strict};
ghost use Rattle.fr_moves.specs.ConvertingMoves.{IsConverted, IsSourceOnTop, WhyUnconverted, shape_above, tree_above};
ghost use Rattle.fr_moves.specs.CompletedPlaces.{PassesValidators};
ghost use Rattle.fr_moves.specs.declared.moves.Move.{Move as Moves};
ghost use Rattle.fr_shape.specs.declared.error.ReflectErrorKind.{ReflectErrorKind as Kind};

use crate::ending::complete_here;
use crate::kept_path::step_back;
use crate::moves::Rules;
use crate::parts::{Frames, Parts};
use fr_frame::Taker;
use fr_model::{law_completes, law_paths, law_well};
use fr_plan::{TypePlanCore, law_plan_lookups, law_plan_reach};
use fr_shape::{Hooks, Ledger, ReflectErrorKind, law_hooks};

/// Completes the place on top, a source, by the rules of strict mode, and converts its value: what
/// the hook makes of that is the value of the place above, which is whole and on top then. Where that
/// can't be, what was put is still there, but for what is released.
fn convert_here<H: Hooks>(
    plan: &TypePlanCore,
    hooks: &H,
    frames: &mut Frames,
    ledger: &mut Ledger,
) -> Result<(), ReflectErrorKind>
    requires at_work { IsAtWork plan.now frames.old }
    requires strict { mode_of frames.old.mode ≡ strict }
    requires source { IsSourceOnTop frames.old }
    requires room { Room (held_in frames.old) ledger.old }
    ensures converted { OnOk result (IsConverted (H.means hooks.now) plan.now
        frames.old frames.new) }
    ensures why { IfErr result (WhyUnconverted (H.means hooks.now) frames.old.table.now
        (shape_above frames.old) (tree_above frames.old)) }
    ensures tokens { Conserved (held_in frames.old) ledger.old (held_in frames.new) ledger.new }
{
    law_hooks::<H>();
    law_completes();
    law_plan_lookups();
    law_plan_reach();
    law_well();
    match complete_here(plan, hooks, frames, Rules::Strict, Taker::Itself, ledger) {
        Ok(()) => {}
        Err(kind) => return Err(kind),
    }
    let table = frames.table;
    let (slots, stack) = (&mut frames.slots, &mut frames.stack);
    stack.convert(slots, table, plan, hooks, ledger)
}

/// The same of the place at which the builder works, which goes up to the place above.
#[inline(never)]
pub fn convert_up<H: Hooks>(
    parts: &mut Parts,
    hooks: &H,
    ledger: &mut Ledger,
) -> Result<(), ReflectErrorKind>
    requires sound { IsSound parts.old }
    requires meant { IsMeant (site parts.old) Moves.Convert }
    requires room { Room (held_in parts.old.frames) ledger.old }
    ensures sound { OnOk result (IsSound parts.new) }
    ensures moved { IsMade parts.old parts.new
        (meant_by (H.means hooks.now) (site parts.old) Moves.Convert) result }
    ensures path { OnErr result (parts.new.path ≡ parts.old.path) }
    ensures tokens { Conserved (held_in parts.old.frames) ledger.old
        (held_in parts.new.frames) ledger.new }
    ensures refused { IsErr (meant_by (H.means hooks.now) (site parts.old) Moves.Convert)
        → PassesValidators (meant_by (H.means hooks.now) (site parts.old) Moves.Convert)
        → IfErr result (λ kind. kind ≢ Kind.OutOfMemory) }
{
    law_hooks::<H>();
    law_paths();
    law_well();
    match convert_here(parts.plan.core(), hooks, &mut parts.frames, ledger) {
        Ok(()) => {
            step_back(&mut parts.path);
            parts.calls = parts.calls.saturating_add(1);
            Ok(())
        }
        Err(kind) => Err(kind),
    }
}
