//! Pointers to slices: opened for items, and closed again.
ghost use Rattle.std.specs.Prelude.{◌≡◌};
ghost use Rattle.fr_moves.specs.Common.{AreOpen, AreOpened, Plan, Changed, Conserved, IsAtWork, OnOk, Room, SameTokens, closed_slice, held_in, is_open_slice, kept_slice, mode_of, slice_anew, top_tree, true, unwrap_or};

use crate::beginning::begin_so;
use crate::parts::Frames;
use crate::placing::place_here;
use fr_frame::{ItemsKind, Tracker};
use fr_plan::TypePlanCore;
use fr_refusals::{Beginning, keeps_items};
use fr_shape::{Ledger, OutOfMemory};

/// Opens the pointer on top for items: in deferred mode one that is begun so keeps those that it
/// has, and any other starts anew.
pub fn begin_slice(
    plan: &TypePlanCore,
    frames: &mut Frames,
    ledger: &mut Ledger,
) -> Result<(), OutOfMemory>
    requires at_work { IsAtWork plan.now frames.old }
    requires room { Room (held_in frames.old) ledger.old }
    ensures changed { OnOk result (Changed plan.now
        (λ old. unwrap_or (kept_slice (mode_of frames.old.mode) (top_tree frames.old)) slice_anew)
        frames.old frames.new) }
    ensures tokens { Conserved (held_in frames.old) ledger.old (held_in frames.new) ledger.new }
{
    let kept = keeps_items(frames.mode, place_here(plan, frames).1);
    if kept {
        frames
            .stack
            .reform(&mut frames.slots, Tracker::Items(ItemsKind::Slice));
        Ok(())
    } else {
        begin_so(
            frames,
            Beginning::Anew,
            Tracker::Items(ItemsKind::Slice),
            0,
            ledger,
        )
    }
}

/// Closes the open pointer to a slice on top for items; those that it has stay as they are. Takes
/// no memory.
pub fn close_slice(frames: &mut Frames)
    requires are_open { AreOpened frames.old }
    requires open_slice { is_open_slice (top_tree frames.old) ≡ true }
    ensures changed { (plan : Plan) → AreOpen plan frames.old
        → Changed plan closed_slice frames.old frames.new }
    ensures tokens { SameTokens frames.old.slots frames.new.slots }
{
    frames
        .stack
        .reform(&mut frames.slots, Tracker::Items(ItemsKind::ClosedSlice));
}
