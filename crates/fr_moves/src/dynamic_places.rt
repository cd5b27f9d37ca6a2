//! A dynamic place that is begun as an array or as an object: it keeps the parts that it has, or
//! starts anew.
ghost use Rattle.std.specs.Prelude.{◌≡◌};
ghost use Rattle.fr_moves.specs.Common.{Changed, Conserved, IsAtWork, IsOk, OnOk, Room, anew_as, held_in, is_begun, kept_as, top_tree, true, unwrap_or};

use crate::beginning::begin_so;
use crate::parts::Frames;
use crate::placing::place_here;
use fr_plan::TypePlanCore;
use fr_refusals::{DynamicParts, beginning_as, tracker_with};
use fr_shape::{Ledger, OutOfMemory};

/// Begins the dynamic place on top with such parts: those that it has stay as they are. Where it
/// has none such, all that was put there and all that is stored beneath it is released. Only a
/// whole value takes memory for its parts.
pub fn begin_parts(
    plan: &TypePlanCore,
    frames: &mut Frames,
    parts: DynamicParts,
    ledger: &mut Ledger,
) -> Result<(), OutOfMemory>
    requires at_work { IsAtWork plan.now frames.old }
    requires room { Room (held_in frames.old) ledger.old }
    ensures changed { OnOk result (Changed plan.now
        (λ old. unwrap_or (kept_as parts (top_tree frames.old)) (anew_as parts))
        frames.old frames.new) }
    ensures memory { is_begun (top_tree frames.old) ≡ true → IsOk result }
    ensures tokens { Conserved (held_in frames.old) ledger.old (held_in frames.new) ledger.new }
{
    let beginning = beginning_as(parts, place_here(plan, frames).1);
    begin_so(frames, beginning, tracker_with(parts), 0, ledger)
}
