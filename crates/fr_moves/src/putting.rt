//! A value at a field or element that isn't entered for it.
ghost use Rattle.fr_moves.specs.Common.{AreOpened, Plan, AreOpen, Became, Changed, Conserved, Describes, IsAtWork, None, Ok, OnOk, Room, Val, [], def_of, false, field_refusal, held_in, is_begun_conversion, is_root, put_child, takes_at_end, tokens, top_place, top_shape, top_tree, tree_at, up, view, whole, whole_tree};
ghost use Rattle.std.specs.Prelude.{Err, ◌≡◌};

use crate::going::enter;
use crate::moves::child_way;
use crate::parts::Frames;
use crate::placing::place_here;
use fr_frame::{Opening, Taker};
use fr_plan::{TypePlanCore, law_plan_lookups, law_plan_reach};
use fr_refusals::Mode;
use fr_shape::{Ledger, OutOfMemory, Value};

/// Goes back from a whole place, whose value stays there.
fn leave_whole(frames: &mut Frames, ledger: &mut Ledger) -> Result<(), OutOfMemory>
    requires are_open { AreOpened frames.old }
    requires below { is_root (top_place frames.old) ≡ false }
    requires not_item { takes_at_end (tree_at (up (top_place frames.old))
        (whole_tree frames.old)) ≡ false }
    requires not_source { is_begun_conversion (tree_at (up (top_place frames.old))
        (whole_tree frames.old)) ≡ false }
    requires holds_value { (v : Val) × (top_tree frames.old ≡ whole v) }
    requires room { Room (held_in frames.old) ledger.old }
    ensures left { OnOk result ((plan : Plan) → AreOpen plan frames.old
        → Became plan (up (top_place frames.old)) (whole_tree frames.old) frames.old frames.new) }
    ensures tokens { Conserved (held_in frames.old) ledger.old (held_in frames.new) ledger.new }
{
    let (slots, stack) = (&mut frames.slots, &mut frames.stack);
    match frames.mode {
        Mode::Strict => {
            let Ok(()) = stack.hand_over(slots, Taker::Above, ledger) else {
                unreachable!()
            };
            Ok(())
        }
        Mode::Deferred(_) => stack.leave(slots, &mut frames.store),
    }
}

/// Puts a value without tokens at child `i` of the place on top, which may be entered, in the stead
/// of all that was put there and is stored beneath it. The place, which starts anew first where it
/// is a conversion, stays on top.
pub fn put_in_child(
    plan: &TypePlanCore,
    frames: &mut Frames,
    i: usize,
    opening: Opening,
    value: Value,
    ledger: &mut Ledger,
) -> Result<(), OutOfMemory>
    requires at_work { IsAtWork plan.now frames.old }
    requires opening { Describes frames.old.table.now (top_shape frames.old)
        (top_tree frames.old) opening }
    requires admitted { field_refusal (def_of frames.old.table.now (top_shape frames.old))
        (top_tree frames.old) i ≡ None }
    requires light { tokens (view value) ≡ [] }
    requires room { Room (held_in frames.old) ledger.old }
    ensures changed { OnOk result (Changed plan.now
        (put_child (def_of frames.old.table.now (top_shape frames.old)) i (view value))
        frames.old frames.new) }
    ensures tokens { Conserved (held_in frames.old) ledger.old (held_in frames.new) ledger.new }
{
    law_plan_lookups();
    law_plan_reach();
    let Ok(_) = u32::try_from(i) else {
        return Err(OutOfMemory);
    };
    let way = child_way(place_here(plan, frames).1, i, opening);
    enter(plan, frames, way, ledger)?;
    let (slots, store) = (&mut frames.slots, &mut frames.store);
    frames.stack.set(slots, store, value, ledger);
    leave_whole(frames, ledger)
}
