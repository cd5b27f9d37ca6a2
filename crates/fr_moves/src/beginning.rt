//! How the place at which the builder works comes to be begun: what of it is kept.
ghost use Rattle.std.specs.Prelude.{◌≡◌};
ghost use Rattle.fr_moves.specs.Common.{AreOpen, AreOpened, Plan, Changed, Conserved, IsAtWork, IsFullAs, IsOk, IsWholeWith, MayHave, OnOk, Room, as_fields, as_tracker, base_of_tracker, begun_by, def_of, held_in, is_begun, kept_so, top_shape, top_tree, true, unwrap_or, variant_anew};
ghost use Rattle.fr_refusals.specs.declared.beginning.Beginning.{Beginning as Onset};

use crate::parts::Frames;
use crate::placing::place_here;
use fr_frame::Tracker;
use fr_plan::TypePlanCore;
use fr_refusals::{Beginning, Chosen, beginning_so};
use fr_shape::{Ledger, OutOfMemory};

/// Begins the place on top so. One that starts anew has so many children, none of them there, and
/// all that was put there or is stored beneath it is released. A begun place that gets no children
/// takes no memory.
pub fn begin_so(
    frames: &mut Frames,
    beginning: Beginning,
    tracker: Tracker,
    count: usize,
    ledger: &mut Ledger,
) -> Result<(), OutOfMemory>
    requires are_open { AreOpened frames.old }
    requires may_have { MayHave (as_tracker tracker) count }
    requires base { base_of_tracker (as_tracker tracker) ≡ 0 }
    requires parts { beginning ≡ Onset.InPlace
        → IsWholeWith (as_tracker tracker) (top_tree frames.old) }
    requires room { Room (held_in frames.old) ledger.old }
    ensures changed { OnOk result ((plan : Plan) → AreOpen plan frames.old → Changed plan
        (begun_by beginning (as_tracker tracker) count) frames.old frames.new) }
    ensures memory { count ≡ 0 → is_begun (top_tree frames.old) ≡ true → IsOk result }
    ensures tokens { Conserved (held_in frames.old) ledger.old (held_in frames.new) ledger.new }
{
    let (slots, stack, store) = (&mut frames.slots, &frames.stack, &mut frames.store);
    match beginning {
        Beginning::AsItIs => Ok(()),
        Beginning::InPlace => stack.begin(slots, tracker, count),
        Beginning::Anew => stack.restart(slots, store, tracker, count, ledger),
    }
}

/// Begins the place on top, an enum, as this variant: one that is begun so stays as it is, and any
/// other starts anew.
pub fn begin_variant(
    plan: &TypePlanCore,
    frames: &mut Frames,
    chosen: Chosen,
    ledger: &mut Ledger,
) -> Result<(), OutOfMemory>
    requires at_work { IsAtWork plan.now frames.old }
    requires count { IsFullAs (def_of frames.old.table.now (top_shape frames.old))
        (as_fields (Some chosen.variant)) chosen.count }
    requires room { Room (held_in frames.old) ledger.old }
    ensures changed { OnOk result (Changed plan.now
        (λ old. unwrap_or (kept_so (as_fields (Some chosen.variant)) (top_tree frames.old))
        (variant_anew (def_of frames.old.table.now (top_shape frames.old)) chosen.variant))
        frames.old frames.new) }
    ensures tokens { Conserved (held_in frames.old) ledger.old (held_in frames.new) ledger.new }
{
    let tracker = Tracker::Fields(Some(chosen.variant));
    let beginning = beginning_so(&tracker, place_here(plan, frames).1);
    begin_so(frames, beginning, tracker, chosen.count, ledger)
}
