//! What is put at one place, by itself.
ghost use Rattle.std.specs.Prelude.{◌+◌, ◌<◌, ◌≡◌};
ghost use Rattle.fr_frame.specs.Common.{Conserved, IfSome, IsGrowing, IsSetBody, IsSome, OnErr, OnOk, Room, RoseBy, Some, absent, added, added_entry, as_tracker, begun_body, body_occurs, body_of, cell_at, cells_occur, count_cells, def_of, given, is_begun_body, is_list_body, length, linked, occurs, opened, option_and_then, option_map, product, reformed, slice_get, slice_set, slot_of_cell, unlinked, vals_view, value_occurs, view, whole_body, with_cell, with_ended, ℕ};
ghost use Rattle.fr_shape.specs.Fills.{is_empty_struct};
ghost use Rattle.fr_model.specs.Trackers.{Tracker as TreeTracker};
ghost use Rattle.fr_frame.specs.Bodies.{fresh_body, IsMapBody, MayOpen};
ghost use Rattle.fr_values.specs.Cells.{held_value};
ghost use Rattle.fr_frame.specs.Growing.{grown, MayGrow};
ghost use Rattle.fr_frame.specs.declared.places.PartialValue.{PartialValue as Held};
ghost use Rattle.fr_frame.specs.declared.places.SlotId.{SlotId as Number};

use crate::object_entries::add_entry_for;
use crate::places::{Growth, PartialValue, SlotId, Tracker};
use crate::splitting::children_of;
use fr_shape::{Items, Ledger, OutOfMemory, ShapeId, ShapeTable, Value, release};
use fr_values::Children;
use std::alloc::Global;

/// The number of a child, where the place has it.
#[inline]
fn child_at(children: &Children, i: usize) -> Option<usize>
    ensures cell { slice_get children.now i ≡ option_and_then (slice_get children.now) result }
    ensures number { IfSome result (λ at. at ≡ i) }
    ensures inside { IfSome result (λ at. at < length children.now) }
{
    if i < children.len() { Some(i) } else { None }
}

/// The slot of child `i`, where there is that child, and it is in a slot.
fn slot_of_child(children: &Children, i: usize) -> Option<SlotId>
    ensures { option_map (λ (child : Number). child.0) result
        ≡ option_and_then slot_of_cell (slice_get children.now i) }
{
    children.slot(child_at(children, i)?).map(SlotId)
}

/// The slot of child `i`, where the place has that child, and has it in a slot.
pub(crate) fn slot_at(partial: &PartialValue, i: usize) -> Option<SlotId>
    ensures { option_map (λ (child : Number). child.0) result
        ≡ option_and_then slot_of_cell (cell_at (body_of partial.now) i) }
{
    match partial {
        PartialValue::Begun(_, children) => slot_of_child(children, i),
        PartialValue::Entered | PartialValue::Whole(_) => None,
    }
}

/// Puts child `i` into a slot, where there is that child and it is in none, and hands its value
/// out, if it was there.
fn link_child(children: &mut Children, i: u32, slot: SlotId) -> Option<Value>
    ensures linked { (tracker : TreeTracker) →
        begun_body tracker children.new ≡ linked slot.0 i (begun_body tracker children.old) }
    ensures taken { option_map view result ≡ held_value (slice_get children.old i) }
    ensures tokens { (t : ℕ) → cells_occur children.old t
        ≡ cells_occur children.new t + value_occurs (option_map view result) t }
{
    let at = child_at(children, i as usize)?;
    if children.slot(at).is_some() {
        return None;
    }
    children.place(at, slot.0)
}

/// Puts child `i` into a slot, where the place has it and it is in none, and hands its value out,
/// if it was there.
pub(crate) fn link(partial: &mut PartialValue, i: u32, slot: SlotId) -> Option<Value>
    ensures partial { body_of partial.new ≡ linked slot.0 i (body_of partial.old) }
    ensures taken { option_map view result ≡ held_value (cell_at (body_of partial.old) i) }
    ensures tokens { (t : ℕ) → body_occurs (body_of partial.old) t
        ≡ body_occurs (body_of partial.new) t + value_occurs (option_map view result) t }
{
    match partial {
        PartialValue::Begun(_, children) => link_child(children, i, slot),
        PartialValue::Entered | PartialValue::Whole(_) => None,
    }
}

/// Lets child `i` not be there, where it is in this slot.
fn unlink_child(children: &mut Children, i: u32, slot: SlotId)
    ensures unlinked { (tracker : TreeTracker) →
        begun_body tracker children.new ≡ unlinked slot.0 i (begun_body tracker children.old) }
    ensures tokens { (t : ℕ) → cells_occur children.new t ≡ cells_occur children.old t }
{
    let Some(at) = child_at(children, i as usize) else {
        return;
    };
    let Some(held) = children.slot(at) else {
        return;
    };
    if held == slot.0 {
        children.clear(at);
    }
}

/// Lets child `i` not be there, where it is in this slot.
pub(crate) fn unlink(partial: &mut PartialValue, i: u32, slot: SlotId)
    ensures partial { body_of partial.new ≡ unlinked slot.0 i (body_of partial.old) }
    ensures tokens { (t : ℕ) →
        body_occurs (body_of partial.new) t ≡ body_occurs (body_of partial.old) t }
{
    match partial {
        PartialValue::Begun(_, children) => unlink_child(children, i, slot),
        PartialValue::Entered | PartialValue::Whole(_) => {}
    }
}

/// Puts child `i`, which isn't there, there with this value.
fn put_at(children: &mut Children, i: u32, value: Value)
    requires { slice_get children.old i ≡ Some absent }
    ensures put { children.new ≡ slice_set children.old i (given (view value)) }
    ensures tokens { (t : ℕ) →
        cells_occur children.new t ≡ cells_occur children.old t + occurs (view value) t }
{
    match child_at(children, i as usize) {
        Some(at) => children.put(at, value),
        None => unreachable!(),
    }
}

/// Puts child `i` there with this value, where it wasn't there.
pub(crate) fn put_child(partial: &mut PartialValue, i: u32, value: Value)
    requires { cell_at (body_of partial.old) i ≡ Some absent }
    ensures partial { body_of partial.new
        ≡ with_cell (body_of partial.old) i (given (view value)) }
    ensures tokens { (t : ℕ) → body_occurs (body_of partial.new) t
        ≡ body_occurs (body_of partial.old) t + occurs (view value) t }
{
    match partial {
        PartialValue::Begun(_, children) => put_at(children, i, value),
        PartialValue::Entered | PartialValue::Whole(_) => unreachable!(),
    }
}

/// The product of these. Takes no memory.
fn product_of(values: Vec<Value>) -> Value
    ensures { view result ≡ product (vals_view values.items) }
{
    Value::Product(Items::from_vec(values))
}

/// Puts something at a place that was only entered, where there is nothing to let go.
pub(crate) fn put_first(partial: &mut PartialValue, first: PartialValue)
    requires { partial.old ≡ Held.Entered }
    ensures { partial.new ≡ first }
{
    std::mem::forget(std::mem::replace(partial, first));
}

/// Begins the place in its stead, with so many children. It stays as it was where there is no
/// memory for them.
pub(crate) fn open(
    alloc: Global,
    partial: &mut PartialValue,
    tracker: Tracker,
    count: usize,
) -> Result<(), OutOfMemory>
    requires { MayOpen (as_tracker tracker) (body_of partial.old) }
    ensures opened { OnOk result (body_of partial.new
        ≡ opened (as_tracker tracker) count (body_of partial.old)) }
    ensures refused { OnErr result (body_of partial.new ≡ body_of partial.old) }
    ensures tokens { (t : ℕ) →
        body_occurs (body_of partial.new) t ≡ body_occurs (body_of partial.old) t }
{
    match partial {
        PartialValue::Entered => {
            let children = Children::none_yet(alloc, count)?;
            put_first(partial, PartialValue::Begun(tracker, children));
            Ok(())
        }
        PartialValue::Whole(value) => {
            let (over, children) = children_of(alloc, tracker, value)?;
            // A call lets go what was there: assigned over, its drop would stand here.
            drop(std::mem::replace(partial, PartialValue::Begun(over, children)));
            Ok(())
        }
        PartialValue::Begun(..) => Ok(()),
    }
}

/// Whether a place is begun as a list or as a pointer to a slice.
pub(crate) fn is_list(partial: &PartialValue) -> bool
    ensures { result ≡ is_list_body (body_of partial.now) }
{
    match partial {
        PartialValue::Begun(tracker, _) => tracker.keeps_items(),
        PartialValue::Entered | PartialValue::Whole(_) => false,
    }
}

/// Whether a place is begun.
pub fn is_begun(partial: &PartialValue) -> bool
    ensures begun { result ≡ is_begun_body (body_of partial.now) }
{
    match partial {
        PartialValue::Begun(..) => true,
        PartialValue::Entered | PartialValue::Whole(_) => false,
    }
}

/// One child more at a begun place, behind the others, which isn't there yet.
fn add_child(alloc: Global, partial: &mut PartialValue) -> Result<(), OutOfMemory>
    requires { IsGrowing (body_of partial.old) }
    ensures added { OnOk result (body_of partial.new ≡ added (body_of partial.old)) }
    ensures refused { OnErr result (body_of partial.new ≡ body_of partial.old) }
    ensures tokens { (t : ℕ) →
        body_occurs (body_of partial.new) t ≡ body_occurs (body_of partial.old) t }
{
    match partial {
        PartialValue::Begun(_, children) => children.push(alloc),
        PartialValue::Entered | PartialValue::Whole(_) => unreachable!(),
    }
}

/// Two children more at a begun map, behind the others: a key and a value that aren't there yet.
fn add_entry(alloc: Global, partial: &mut PartialValue) -> Result<(), OutOfMemory>
    requires { IsMapBody (body_of partial.old) }
    ensures added { OnOk result (body_of partial.new ≡ added_entry (body_of partial.old)) }
    ensures refused { OnErr result (body_of partial.new ≡ body_of partial.old) }
    ensures tokens { (t : ℕ) →
        body_occurs (body_of partial.new) t ≡ body_occurs (body_of partial.old) t }
{
    match partial {
        PartialValue::Begun(_, children) => children.push_two(alloc),
        PartialValue::Entered | PartialValue::Whole(_) => unreachable!(),
    }
}

/// More at a begun place, behind the children that it has, and nothing there yet.
pub(crate) fn grow(
    alloc: Global,
    partial: &mut PartialValue,
    growth: Growth,
) -> Result<(), OutOfMemory>
    requires { MayGrow growth (body_of partial.old) }
    ensures grown { OnOk result (body_of partial.new ≡ grown growth (body_of partial.old)) }
    ensures refused { OnErr result (body_of partial.new ≡ body_of partial.old) }
    ensures tokens { (t : ℕ) →
        body_occurs (body_of partial.new) t ≡ body_occurs (body_of partial.old) t }
{
    match growth {
        Growth::Item => add_child(alloc, partial),
        Growth::Entry => add_entry(alloc, partial),
        Growth::EntryFor(key) => add_entry_for(alloc, partial, key),
    }
}

/// Lets child `i` of a begun set, which isn't there, go, and puts a value behind the others, unless
/// one of them is `same`: then it is released. Takes no memory.
pub(crate) fn end_child(partial: &mut PartialValue, i: u32, value: Value, ledger: &mut Ledger)
    requires set { IsSetBody (body_of partial.old) }
    requires absent { cell_at (body_of partial.old) i ≡ Some absent }
    requires room { Room (occurs (view value)) ledger.old }
    ensures ended { body_of partial.new ≡ with_ended i (view value) (body_of partial.old) }
    ensures conserved { Conserved (λ t. body_occurs (body_of partial.old) t + occurs (view value) t)
        ledger.old (body_occurs (body_of partial.new)) ledger.new }
{
    let PartialValue::Begun(_, children) = partial else {
        unreachable!()
    };
    match child_at(children, i as usize) {
        Some(at) => children.end_item(at, value, ledger),
        None => unreachable!(),
    }
}

/// How many children a place has, as far as it is begun.
pub(crate) fn count_children(partial: &PartialValue) -> usize
    ensures { result ≡ count_cells (body_of partial.now) }
{
    match partial {
        PartialValue::Begun(_, children) => children.len(),
        PartialValue::Entered | PartialValue::Whole(_) => 0,
    }
}

/// Lets a begun place be begun so instead, with the children that it has.
pub(crate) fn reform(partial: &mut PartialValue, tracker: Tracker)
    ensures partial { body_of partial.new ≡ reformed (as_tracker tracker) (body_of partial.old) }
    ensures tokens { (t : ℕ) →
        body_occurs (body_of partial.new) t ≡ body_occurs (body_of partial.old) t }
{
    match std::mem::replace(partial, PartialValue::Entered) {
        PartialValue::Begun(_, children) => {
            put_first(partial, PartialValue::Begun(tracker, children));
        }
        PartialValue::Whole(value) => put_first(partial, PartialValue::Whole(value)),
        PartialValue::Entered => {}
    }
}

/// Whether a shape is a struct without fields.
fn is_empty_struct(table: &ShapeTable, shape: ShapeId) -> bool
    ensures { result ≡ is_empty_struct (def_of table.now shape.0) }
{
    match table.get(shape) {
        Some(entry) => entry.def.is_empty_struct(),
        None => false,
    }
}

/// A place that is just entered.
pub(crate) fn fresh(alloc: Global, table: &ShapeTable, shape: ShapeId) -> PartialValue
    ensures { body_of result ≡ fresh_body (def_of table.now shape.0) }
{
    if is_empty_struct(table, shape) {
        PartialValue::Whole(product_of(Vec::new(alloc)))
    } else {
        PartialValue::Entered
    }
}

/// Records the tokens of children as released.
fn release_children(mut children: Children, ledger: &mut Ledger)
    requires { Room (cells_occur children) ledger.old }
    ensures { RoseBy (cells_occur children) ledger.old ledger.new }
{
    for i in 0..children.len() {
        match children.take(i) {
            Some(value) => release(value, ledger),
            None => {}
        }
    }
}

/// Records the tokens of what was put at a place as released.
pub(crate) fn release_partial(partial: PartialValue, ledger: &mut Ledger)
    requires { Room (body_occurs (body_of partial)) ledger.old }
    ensures { RoseBy (body_occurs (body_of partial)) ledger.old ledger.new }
{
    match partial {
        PartialValue::Entered => {}
        PartialValue::Whole(value) => release(value, ledger),
        PartialValue::Begun(_, children) => release_children(children, ledger),
    }
}
