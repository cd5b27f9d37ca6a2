//! Beginning the place on top as its definition tells: a list, an array, a set or a map.
ghost use Rattle.std.specs.Prelude.{◌≡◌};
ghost use Rattle.fr_moves.specs.Common.{Changed, Conserved, IsAtWork, IsOk, MayOpenAs, OnOk, Room, as_tracker, base_of_tracker, def_of, held_in, is_begun, is_begun_conversion, false, top_shape, top_tree, true};
ghost use Rattle.fr_moves.specs.Moving.{opened_here};
ghost use Rattle.fr_frame.specs.Kids.{MayHave};

use crate::beginning::begin_so;
use crate::parts::Frames;
use crate::placing::place_here;
use fr_frame::{Opening, is_begun};
use fr_plan::TypePlanCore;
use fr_refusals::{Beginning, is_conversion};
use fr_shape::{Ledger, OutOfMemory};

/// Begins the place on top as its definition tells, with so many children; of a whole one they have
/// their parts of its value. One that is begun stays as it is, and takes no memory, but for a
/// conversion, which starts anew.
pub fn open_here(
    plan: &TypePlanCore,
    frames: &mut Frames,
    opening: Opening,
    ledger: &mut Ledger,
) -> Result<(), OutOfMemory>
    requires at_work { IsAtWork plan.now frames.old }
    requires may_open { MayOpenAs (def_of frames.old.table.now (top_shape frames.old))
        (as_tracker opening.tracker) opening.count (top_tree frames.old) }
    requires may_have { MayHave (as_tracker opening.tracker) opening.count }
    requires base { base_of_tracker (as_tracker opening.tracker) ≡ 0 }
    requires room { Room (held_in frames.old) ledger.old }
    ensures changed { OnOk result (Changed plan.now
        (opened_here (def_of frames.old.table.now (top_shape frames.old))) frames.old frames.new) }
    ensures memory { is_begun (top_tree frames.old) ≡ true
        → is_begun_conversion (top_tree frames.old) ≡ false → IsOk result }
    ensures tokens { Conserved (held_in frames.old) ledger.old (held_in frames.new) ledger.new }
{
    let partial = place_here(plan, frames).1;
    let (begun, converts) = (is_begun(partial), is_conversion(partial));
    let (tracker, count) = (opening.tracker, opening.count);
    if converts {
        begin_so(frames, Beginning::Anew, tracker, count, ledger)
    } else if begun {
        Ok(())
    } else {
        frames.stack.begin(&mut frames.slots, tracker, count)
    }
}
