//! Into deferred mode, and its end.
ghost use Rattle.std.specs.Prelude.{◌≡◌};
ghost use Rattle.fr_moves.specs.Common.{Conserved, IfErr, IsMade, IsMeant, IsSound, Ok, OnErr, OnOk, Room, deferred, held_in, length, meant_by, one_more_call, site};
ghost use Rattle.fr_moves.specs.declared.moves.Move.{Move as Moves};

use crate::parts::Parts;
use fr_model::{law_paths, law_well};
use fr_plan::law_plan_lookups;
use fr_refusals::Mode;
use fr_shape::{Hooks, Ledger, ReflectErrorKind, law_hooks};

/// From now on places that are left stay as they are. Takes no memory, and is never refused.
pub fn defer(parts: &mut Parts) -> Result<(), ReflectErrorKind>
    requires sound { IsSound parts.old }
    requires meant { IsMeant (site parts.old) Moves.Defer }
    ensures sound { OnOk result (IsSound parts.new) }
    ensures moved { IsMade parts.old parts.new (Ok (record (site parts.old).state {
      mode = deferred (length (site parts.old).state.cursor);
      calls = one_more_call (site parts.old).state.calls;
    })) result }
    ensures never { IfErr result (λ kind. ⊥) }
    ensures slots { parts.new.frames.slots ≡ parts.old.frames.slots }
{
    law_well();
    let start = parts.frames.stack.len() - 1;
    parts.frames.mode = Mode::Deferred(start);
    parts.calls = parts.calls.saturating_add(1);
    Ok(())
}

/// Completes all that was left, the longest path first, then step by step; then the place at which
/// the builder works, which stays begun where it is; and goes back to strict mode. Where that can't
/// be, all is released.
pub fn finish<H: Hooks>(
    parts: &mut Parts,
    hooks: &H,
    ledger: &mut Ledger,
) -> Result<(), ReflectErrorKind>
    requires sound { IsSound parts.old }
    requires meant { IsMeant (site parts.old) Moves.Finish }
    requires room { Room (held_in parts.old.frames) ledger.old }
    ensures sound { OnOk result (IsSound parts.new) }
    ensures moved { IsMade parts.old parts.new
        (meant_by (H.means hooks.now) (site parts.old) Moves.Finish) result }
    ensures path { OnErr result (parts.new.path ≡ parts.old.path) }
    ensures tokens { Conserved (held_in parts.old.frames) ledger.old
        (held_in parts.new.frames) ledger.new }
{
    law_hooks::<H>();
    law_paths();
    law_plan_lookups();
    law_well();
    let plan = parts.plan.core();
    let frames = &mut parts.frames;
    let (slots, stack) = (&mut frames.slots, &mut frames.stack);
    match frames
        .store
        .finish(slots, stack, frames.table, plan, hooks, ledger)
    {
        Ok(()) => {
            frames.mode = Mode::Strict;
            parts.calls = parts.calls.saturating_add(1);
            Ok(())
        }
        Err(kind) => Err(kind),
    }
}
