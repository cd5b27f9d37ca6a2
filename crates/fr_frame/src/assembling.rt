//! The value of a place.
ghost use Rattle.std.specs.Prelude.{◌≡◌};
ghost use Rattle.fr_frame.specs.Common.{AreApart, Conserved, IfErr, IfOk, IsOk, IsSome, OnErr, OnOk, Room, RoseBy, Some, Val, as_tracker, begun_body, body_occurs, body_of, cells_occur, entries_in, entries_view, false, first, is_some, items_in, length, map_of, no_entries, no_vals, occurs, takes_memory, true, vals_occur, vals_view, value_of, view, whole_body};
ghost use Rattle.fr_shape.specs.Val.{list_of, set_of};
ghost use Rattle.fr_model.specs.Complete.{value_as};
ghost use Rattle.fr_frame.specs.Bodies.{around_as, boxed_as, boxes, gathers, is_around};

use crate::partial_values::{put_first, release_partial};
use crate::places::{ContentKind, EntriesKind, ItemsKind, PartialValue, Tracker};
use fr_shape::{Items, Ledger, OutOfMemory, Value};
use fr_values::{Base, ChildValues, Children, array_of, distinct_items, merge_entries, object_of};
use std::alloc::Global;

/// The list of these. Takes no memory.
fn list_of(values: Vec<Value>) -> Value
    ensures { view result ≡ list_of (vals_view values.items) }
{
    Value::List(Items::from_vec(values))
}

/// The value that is made of those of the children of a place that is begun so, where that holds no
/// box and isn't put together anew. Takes no memory.
fn value_of_parts(tracker: &Tracker, values: Vec<Value>) -> Value
    requires no_box { boxes (as_tracker tracker.now) ≡ false }
    requires as_it_is { gathers (as_tracker tracker.now) ≡ false }
    ensures { view result ≡ value_as (as_tracker tracker.now) (vals_view values.items) }
{
    match tracker {
        Tracker::Fields(None) | Tracker::Elements => Value::Product(Items::from_vec(values)),
        Tracker::Fields(Some(k)) => Value::Variant(*k, Items::from_vec(values)),
        Tracker::Items(ItemsKind::List) => list_of(values),
        Tracker::Content(_) | Tracker::Entries(_) => unreachable!(),
        Tracker::Items(ItemsKind::Slice | ItemsKind::ClosedSlice) => unreachable!(),
        Tracker::Items(ItemsKind::Set | ItemsKind::Array) => unreachable!(),
    }
}

/// The only one of these.
fn only(mut values: Vec<Value>) -> Value
    requires { length values.items ≡ 1 }
    ensures { vals_view values.items ≡ first (view result) no_vals }
{
    match values.pop() {
        Some(value) => value,
        None => unreachable!(),
    }
}

/// What the box of a place that is begun so holds: the value of its one child, or the list of a
/// slice's items. Takes no memory.
fn value_in_box(tracker: &Tracker, values: Vec<Value>) -> Value
    requires boxes { boxes (as_tracker tracker.now) ≡ true }
    requires one { is_around (as_tracker tracker.now) ≡ true → length values.items ≡ 1 }
    ensures { view result ≡ boxed_as (as_tracker tracker.now) (vals_view values.items) }
{
    match tracker {
        Tracker::Content(_) => only(values),
        Tracker::Items(ItemsKind::Slice | ItemsKind::ClosedSlice) => list_of(values),
        Tracker::Items(ItemsKind::List | ItemsKind::Set | ItemsKind::Array) => unreachable!(),
        Tracker::Fields(_) | Tracker::Elements | Tracker::Entries(_) => unreachable!(),
    }
}

/// The value of a place that is begun so, whose box holds this. Takes no memory.
fn value_of_box(tracker: &Tracker, held: Box<Value>) -> Value
    requires { boxes (as_tracker tracker.now) ≡ true }
    ensures { view result ≡ around_as (as_tracker tracker.now) (view held.value) }
{
    match tracker {
        Tracker::Content(ContentKind::Some) => Value::Some(held),
        Tracker::Content(ContentKind::Ok) => Value::Ok(held),
        Tracker::Content(ContentKind::Err) => Value::Err(held),
        Tracker::Content(ContentKind::Pointer) => Value::Ptr(held),
        Tracker::Content(ContentKind::Source(_)) => Box::into_inner(held),
        Tracker::Items(ItemsKind::Slice | ItemsKind::ClosedSlice) => Value::Ptr(held),
        Tracker::Items(ItemsKind::List | ItemsKind::Set | ItemsKind::Array) => unreachable!(),
        Tracker::Fields(_) | Tracker::Elements | Tracker::Entries(_) => unreachable!(),
    }
}

/// The set of those of these values that aren't `same` as an earlier one, which are released.
/// Without memory they are handed back.
fn set_of(
    alloc: Global,
    parts: ChildValues,
    base: Base,
    ledger: &mut Ledger,
) -> Result<Value, ChildValues>
    requires base { AreApart base parts }
    requires room { Room (vals_occur (vals_view parts)) ledger.old }
    ensures value { IfOk result (λ v.
        view v ≡ set_of (items_in no_vals (vals_view parts))) }
    ensures conserved { IfOk result (λ v. Conserved (vals_occur (vals_view parts)) ledger.old
        (occurs (view v)) ledger.new) }
    ensures handed_back { IfErr result (λ back. back ≡ parts) }
    ensures ledger_kept { OnErr result (ledger.new ≡ ledger.old) }
{
    match distinct_items(alloc, parts, base.items(), ledger) {
        Ok(items) => Ok(Value::Set(Items::from_vec(items))),
        Err(back) => Err(back),
    }
}

/// The map of these entries. Takes no memory.
fn of_entries(entries: Vec<(Value, Value)>) -> Value
    ensures { view result ≡ map_of (entries_view entries.items) }
{
    Value::Map(Items::from_vec(entries))
}

/// The map of these keys and values, which take turns. A key that comes again takes the new value;
/// the new key and the old value are released. Without memory they are handed back.
fn map_of(
    alloc: Global,
    parts: ChildValues,
    base: Base,
    ledger: &mut Ledger,
) -> Result<Value, ChildValues>
    requires base { AreApart base parts }
    requires room { Room (vals_occur (vals_view parts)) ledger.old }
    ensures value { IfOk result (λ v.
        view v ≡ map_of (entries_in no_entries (vals_view parts))) }
    ensures conserved { IfOk result (λ v. Conserved (vals_occur (vals_view parts)) ledger.old
        (occurs (view v)) ledger.new) }
    ensures handed_back { IfErr result (λ back. back ≡ parts) }
    ensures ledger_kept { OnErr result (ledger.new ≡ ledger.old) }
{
    match merge_entries(alloc, parts, base.entries(), ledger) {
        Ok(entries) => Ok(of_entries(entries)),
        Err(back) => Err(back),
    }
}

/// The value that is put together anew of those of the children of a place that is begun so.
/// Without memory they are handed back, and the tracker stays.
fn value_gathered(
    alloc: Global,
    tracker: &mut Tracker,
    parts: ChildValues,
    base: Base,
    ledger: &mut Ledger,
) -> Result<Value, ChildValues>
    requires base { AreApart base parts }
    requires gathers { gathers (as_tracker tracker.old) ≡ true }
    requires room { Room (vals_occur (vals_view parts)) ledger.old }
    ensures value { IfOk result (λ v.
        view v ≡ value_as (as_tracker tracker.old) (vals_view parts)) }
    ensures conserved { IfOk result (λ v. Conserved (vals_occur (vals_view parts)) ledger.old
        (occurs (view v)) ledger.new) }
    ensures tracker_kept { OnErr result (as_tracker tracker.new ≡ as_tracker tracker.old) }
    ensures handed_back { IfErr result (λ back. back ≡ parts) }
    ensures ledger_kept { OnErr result (ledger.new ≡ ledger.old) }
{
    match tracker {
        Tracker::Items(ItemsKind::Set) => set_of(alloc, parts, base, ledger),
        Tracker::Items(ItemsKind::Array) => array_of(alloc, parts, ledger),
        Tracker::Entries(EntriesKind::Map(_)) => map_of(alloc, parts, base, ledger),
        Tracker::Entries(EntriesKind::Object(keys)) => object_of(alloc, keys, parts, ledger),
        Tracker::Items(ItemsKind::List | ItemsKind::Slice | ItemsKind::ClosedSlice) => {
            unreachable!()
        }
        Tracker::Fields(_) | Tracker::Elements | Tracker::Content(_) => unreachable!(),
    }
}

/// The value of a place that is begun with each child there, which holds no box. Without memory the
/// children are handed back, and the tracker stays.
fn value_of_children(
    alloc: Global,
    tracker: &mut Tracker,
    children: Children,
    ledger: &mut Ledger,
) -> Result<Value, Children>
    requires no_box { boxes (as_tracker tracker.old) ≡ false }
    requires there { IsSome (value_of (begun_body (as_tracker tracker.old) children)) }
    requires room { Room (cells_occur children) ledger.old }
    ensures value { IfOk result (λ v.
        value_of (begun_body (as_tracker tracker.old) children) ≡ Some (view v)) }
    ensures memory { gathers (as_tracker tracker.old) ≡ false → IsOk result }
    ensures conserved { IfOk result (λ v. Conserved (cells_occur children) ledger.old
        (occurs (view v)) ledger.new) }
    ensures tracker_kept { OnErr result (as_tracker tracker.new ≡ as_tracker tracker.old) }
    ensures handed_back { IfErr result (λ back. back ≡ children) }
    ensures ledger_kept { OnErr result (ledger.new ≡ ledger.old) }
{
    let (parts, given, base) = children.into_parts();
    if !tracker.gathers() {
        return Ok(value_of_parts(tracker, parts.into_values()));
    }
    match value_gathered(alloc, tracker, parts, base, ledger) {
        Ok(value) => Ok(value),
        Err(back) => Err(Children::of_parts(alloc, back, given, base)),
    }
}

/// The value of a place that is begun with each child there, which holds this box. Takes no memory.
fn value_made(tracker: &Tracker, children: Children, mut held: Box<Value>) -> Value
    requires boxes { boxes (as_tracker tracker.now) ≡ true }
    requires there { IsSome (value_of (begun_body (as_tracker tracker.now) children)) }
    ensures { value_of (begun_body (as_tracker tracker.now) children) ≡ Some (view result) }
{
    // A call lets go what was there: assigned over, its drop would stand here, variant by variant.
    drop(std::mem::replace(&mut *held, value_in_box(tracker, children.into_values())));
    value_of_box(tracker, held)
}

/// The value of a place that is begun with each child there. Without memory the children are handed
/// back, and the tracker stays.
fn value_of_begun(
    alloc: Global,
    tracker: &mut Tracker,
    children: Children,
    ledger: &mut Ledger,
) -> Result<Value, Children>
    requires there { IsSome (value_of (begun_body (as_tracker tracker.old) children)) }
    requires room { Room (cells_occur children) ledger.old }
    ensures value { IfOk result (λ v.
        value_of (begun_body (as_tracker tracker.old) children) ≡ Some (view v)) }
    ensures memory { takes_memory (begun_body (as_tracker tracker.old) children) ≡ false
        → IsOk result }
    ensures conserved { IfOk result (λ v. Conserved (cells_occur children) ledger.old
        (occurs (view v)) ledger.new) }
    ensures tracker_kept { OnErr result (as_tracker tracker.new ≡ as_tracker tracker.old) }
    ensures handed_back { IfErr result (λ back. back ≡ children) }
    ensures ledger_kept { OnErr result (ledger.new ≡ ledger.old) }
{
    if !tracker.boxes() {
        return value_of_children(alloc, tracker, children, ledger);
    }
    match Box::new(alloc, Value::Unit) {
        Ok(spare) => Ok(value_made(tracker, children, spare)),
        Err(_) => Err(children),
    }
}

/// The value of a place that is whole, or begun with each child there. Without memory the place is
/// handed back.
fn value_or_back(
    alloc: Global,
    partial: PartialValue,
    ledger: &mut Ledger,
) -> Result<Value, PartialValue>
    requires there { IsSome (value_of (body_of partial)) }
    requires room { Room (body_occurs (body_of partial)) ledger.old }
    ensures value { IfOk result (λ v. value_of (body_of partial) ≡ Some (view v)) }
    ensures memory { takes_memory (body_of partial) ≡ false → IsOk result }
    ensures conserved { IfOk result (λ v. Conserved (body_occurs (body_of partial)) ledger.old
        (occurs (view v)) ledger.new) }
    ensures handed_back { IfErr result (λ back. body_of back ≡ body_of partial) }
    ensures ledger_kept { OnErr result (ledger.new ≡ ledger.old) }
{
    match partial {
        PartialValue::Whole(value) => Ok(value),
        PartialValue::Begun(mut tracker, children) => {
            match value_of_begun(alloc, &mut tracker, children, ledger) {
                Ok(value) => Ok(value),
                Err(back) => Err(PartialValue::Begun(tracker, back)),
            }
        }
        PartialValue::Entered => unreachable!(),
    }
}

/// The value of a place that is whole, or begun with each child there. Where there is no memory for
/// making it, what was put at the place is released. Most places are whole, so that way is short.
pub(crate) fn value_of(
    alloc: Global,
    partial: PartialValue,
    ledger: &mut Ledger,
) -> Result<Value, OutOfMemory>
    requires there { IsSome (value_of (body_of partial)) }
    requires room { Room (body_occurs (body_of partial)) ledger.old }
    ensures value { IfOk result (λ v. value_of (body_of partial) ≡ Some (view v)) }
    ensures memory { takes_memory (body_of partial) ≡ false → IsOk result }
    ensures conserved { IfOk result (λ v. Conserved (body_occurs (body_of partial)) ledger.old
        (occurs (view v)) ledger.new) }
    ensures released { OnErr result
        (RoseBy (body_occurs (body_of partial)) ledger.old ledger.new) }
{
    if let PartialValue::Whole(value) = partial {
        return Ok(value);
    }
    match value_or_back(alloc, partial, ledger) {
        Ok(value) => Ok(value),
        Err(back) => {
            release_partial(back, ledger);
            Err(OutOfMemory)
        }
    }
}

/// Lets a place that is whole, or begun with each child there, be whole with its value. It stays as
/// it was where there is no memory for making it.
pub(crate) fn make_whole(
    alloc: Global,
    partial: &mut PartialValue,
    ledger: &mut Ledger,
) -> Result<(), OutOfMemory>
    requires there { IsSome (value_of (body_of partial.old)) }
    requires room { Room (body_occurs (body_of partial.old)) ledger.old }
    ensures whole { OnOk result ((v : Val) → value_of (body_of partial.old) ≡ Some v
        → body_of partial.new ≡ whole_body v) }
    ensures memory { takes_memory (body_of partial.old) ≡ false → IsOk result }
    ensures refused { OnErr result (body_of partial.new ≡ body_of partial.old) }
    ensures conserved { Conserved (body_occurs (body_of partial.old)) ledger.old
        (body_occurs (body_of partial.new)) ledger.new }
    ensures ledger_kept { OnErr result (ledger.new ≡ ledger.old) }
{
    if let PartialValue::Whole(_) = partial {
        return Ok(());
    }
    let before = std::mem::replace(partial, PartialValue::Entered);
    match value_or_back(alloc, before, ledger) {
        Ok(value) => {
            put_first(partial, PartialValue::Whole(value));
            Ok(())
        }
        Err(back) => {
            put_first(partial, back);
            Err(OutOfMemory)
        }
    }
}
