//! Going on to a child, whichever way.
ghost use Rattle.fr_moves.specs.Common.{AreOpen, AreOpened, Plan, Became, Conserved, IsAtWork, IsMade, IsMeant, IsSound, MayGo, Ok, OnErr, OnOk, Room, [], as_tracker, change_at, child_node, held_in, node_here, number_told, onward, shape_at, site, top_place, top_shape, top_tree, whole_tree};
ghost use Rattle.std.specs.Prelude.{◌<◌, ◌^◌, ◌∷◌, ◌++◌, ◌≡◌};
ghost use Rattle.fr_frame.specs.Kids.{entry_node_found, slice_item_found};
ghost use Rattle.fr_model.specs.Places.{is_key};
ghost use Rattle.fr_moves.specs.declared.moves.Move.{Move as Moves};
ghost use Rattle.fr_moves.specs.Moving.{gone, IsSourcedOn};
ghost use Rattle.fr_model.specs.Entering.{entered_on, number_on};

use crate::beginning::begin_so;
use crate::moves::Way;
use crate::parts::{Frames, Parts};
use fr_frame::{ChildWay, ContentKind, EntriesKind, ItemsKind, Tracker};
use fr_model::{law_paths, law_well};
use fr_plan::{NodeId, TypePlanCore, law_plan_lookups, law_plan_reach};
use fr_refusals::Beginning;
use fr_shape::{Ledger, OutOfMemory, ReflectErrorKind};

/// The plan's node of the place on top of the stack.
fn node_here(frames: &Frames) -> NodeId
    requires { AreOpened frames.now }
    ensures { (plan : Plan) → AreOpen plan frames.now
        → result ≡ node_here plan frames.now.slots frames.now.stack }
{
    let Some(top) = frames.stack.top() else {
        unreachable!()
    };
    match frames.slots.place(top) {
        Some(place) => place.node,
        None => unreachable!(),
    }
}

/// The plan's node of the items of the slice behind a pointer of this node.
fn slice_item(plan: &TypePlanCore, node: NodeId) -> Option<NodeId>
    ensures { result ≡ slice_item_found plan.now node }
{
    plan.list_item_node_id(plan.pointer_inner_node_id(node)?)
}

/// The plan's node of child `i` of a map of this node: of its keys, or of its values.
fn entry_node(plan: &TypePlanCore, node: NodeId, i: usize) -> Option<NodeId>
    ensures { result ≡ entry_node_found plan.now node (is_key i) }
{
    if i % 2 == 0 {
        plan.map_key_node_id(node)
    } else {
        plan.map_value_node_id(node)
    }
}

/// The plan's node of child `i` of a place of this node that is begun so.
#[inline]
fn child_node(plan: &TypePlanCore, node: NodeId, tracker: &Tracker, i: usize) -> NodeId
    ensures { result ≡ child_node plan.now node (as_tracker tracker.now) i }
{
    let found = match tracker {
        Tracker::Fields(None) => plan.struct_field_node_id(node, i),
        Tracker::Elements | Tracker::Items(ItemsKind::List) => plan.list_item_node_id(node),
        Tracker::Fields(Some(k)) => plan.enum_variant_field_node_id(node, *k as usize, i),
        Tracker::Content(ContentKind::Some) => plan.option_some_node_id(node),
        Tracker::Content(ContentKind::Ok) => plan.result_nodes_id(node).map(|sides| sides.0),
        Tracker::Content(ContentKind::Err) => plan.result_nodes_id(node).map(|sides| sides.1),
        Tracker::Content(ContentKind::Pointer) => plan.pointer_inner_node_id(node),
        Tracker::Content(ContentKind::Source(conversion)) => plan.own_node_id(conversion.source),
        Tracker::Items(ItemsKind::Slice | ItemsKind::ClosedSlice) => slice_item(plan, node),
        Tracker::Items(ItemsKind::Set) => plan.set_item_node_id(node),
        Tracker::Entries(EntriesKind::Map(_)) => entry_node(plan, node, i),
        Tracker::Items(ItemsKind::Array) | Tracker::Entries(EntriesKind::Object(_)) => Some(node),
    };
    match found {
        Some(child) => child,
        None => NodeId(0),
    }
}

/// Goes on to a child of the place on top. Where there is no memory, all that was put is still
/// there.
#[inline(always)]
pub fn enter(
    plan: &TypePlanCore,
    frames: &mut Frames,
    way: Way,
    ledger: &mut Ledger,
) -> Result<(), OutOfMemory>
    requires at_work { IsAtWork plan.now frames.old }
    requires may { MayGo frames.old.table.now (top_shape frames.old) (top_tree frames.old) way }
    requires sourced { IsSourcedOn plan.now way }
    requires small { number_told way < 2 ^ 32 }
    requires room { Room (held_in frames.old) ledger.old }
    ensures entered { OnOk result (Became plan.now
        (top_place frames.old
        ++ number_on (onward way.entry (top_tree frames.old)) (top_tree frames.old) ∷ [])
        (change_at (top_place frames.old) (entered_on frames.old.table.now (top_shape frames.old)
        (onward way.entry (top_tree frames.old))) (whole_tree frames.old)) frames.old frames.new) }
    ensures tokens { Conserved (held_in frames.old) ledger.old (held_in frames.new) ledger.new }
{
    law_plan_lookups();
    law_plan_reach();
    let above = node_here(frames);
    let table = frames.table;
    let (slots, stack, store) = (&mut frames.slots, &mut frames.stack, &mut frames.store);
    match way {
        Way::Child(i, opening) => {
            let node = child_node(plan, above, &opening.tracker, i);
            stack.begin(slots, opening.tracker, opening.count)?;
            stack.enter(slots, store, table, plan, node, ChildWay::Child(i as u32))
        }
        Way::Anew(i, opening) => {
            let node = child_node(plan, above, &opening.tracker, i);
            let (tracker, count) = (opening.tracker, opening.count);
            begin_so(frames, Beginning::Anew, tracker, count, ledger)?;
            let (slots, store) = (&mut frames.slots, &mut frames.store);
            frames
                .stack
                .enter(slots, store, table, plan, node, ChildWay::Child(i as u32))
        }
        Way::Item(opening) => {
            let node = child_node(plan, above, &opening.tracker, opening.count);
            stack.enter(slots, store, table, plan, node, ChildWay::Item)
        }
        Way::Key(opening) => {
            let node = child_node(plan, above, &opening.tracker, opening.count);
            stack.enter(slots, store, table, plan, node, ChildWay::Key)
        }
        Way::Value(opening) => {
            let node = child_node(plan, above, &opening.tracker, opening.count);
            stack.enter(
                slots,
                store,
                table,
                plan,
                node,
                ChildWay::Child(opening.count as u32),
            )
        }
        Way::Entry(key) => stack.enter(slots, store, table, plan, above, ChildWay::Entry(key)),
        Way::Content(tracker, beginning) => {
            let node = child_node(plan, above, &tracker, 0);
            begin_so(frames, beginning, tracker, 1, ledger)?;
            let (slots, store) = (&mut frames.slots, &mut frames.store);
            frames
                .stack
                .enter(slots, store, table, plan, node, ChildWay::Child(0))
        }
    }
}

/// Goes on to a child of the place at which the builder works. Where there is no memory, all that
/// was put is still there, and so is the path.
#[inline(always)]
pub fn go(parts: &mut Parts, way: Way, ledger: &mut Ledger) -> Result<(), ReflectErrorKind>
    requires sound { IsSound parts.old }
    requires meant { IsMeant (site parts.old) (Moves.Go way) }
    requires room { Room (held_in parts.old.frames) ledger.old }
    ensures sound { OnOk result (IsSound parts.new) }
    ensures moved { IsMade parts.old parts.new
        (Ok (gone (site parts.old).shapes (shape_at (site parts.old)) (site parts.old).state
        way.entry)) result }
    ensures path { OnErr result (parts.new.path ≡ parts.old.path) }
    ensures tokens { Conserved (held_in parts.old.frames) ledger.old
        (held_in parts.new.frames) ledger.new }
{
    match go_on(parts, way, ledger) {
        Ok(()) => Ok(()),
        Err(OutOfMemory) => Err(ReflectErrorKind::OutOfMemory),
    }
}

/// The same, with the one refusal that there is.
#[inline(always)]
fn go_on(parts: &mut Parts, way: Way, ledger: &mut Ledger) -> Result<(), OutOfMemory>
    requires sound { IsSound parts.old }
    requires meant { IsMeant (site parts.old) (Moves.Go way) }
    requires room { Room (held_in parts.old.frames) ledger.old }
    ensures sound { OnOk result (IsSound parts.new) }
    ensures moved { OnOk result (site parts.new ≡ record (site parts.old) {
      state =
          gone (site parts.old).shapes (shape_at (site parts.old)) (site parts.old).state way.entry;
    }) }
    ensures path { OnErr result (parts.new.path ≡ parts.old.path) }
    ensures tokens { Conserved (held_in parts.old.frames) ledger.old
        (held_in parts.new.frames) ledger.new }
{
    law_paths();
    law_plan_lookups();
    law_plan_reach();
    law_well();
    let step = way.step(parts.alloc)?;
    enter(parts.plan.core(), &mut parts.frames, way, ledger)?;
    parts.path.push(step)?;
    parts.calls = parts.calls.saturating_add(1);
    Ok(())
}
