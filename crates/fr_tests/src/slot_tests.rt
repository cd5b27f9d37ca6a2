//! Which slot a place is entered into: one that was freed serves again, and an item that has
//! completed keeps its own until its list holds another value. No token is in the slots of these
//! tests, so each release has its room in the ledger.
ghost use Rattle.std.specs.Prelude.{◌≡◌, ◌<◌, ℕ, true, false, length, IsSome, Some};
ghost use Rattle.fr_shape.specs.Tokens.{occurs};
ghost use Rattle.fr_shape.specs.View.{view};
ghost use Rattle.fr_model.specs.Trackers.{as_items, ItemsKind as TreeItemsKind};
ghost use Rattle.fr_frame.specs.Bodies.{value_of, IsGrowing, MayOpen};
ghost use Rattle.fr_values.specs.Cells.{placed};
ghost use Rattle.fr_frame.specs.Changes.{IfInUse, IsInUse};
ghost use Rattle.fr_frame.specs.Heap.{body_of, heap_of, held_by, slots_occur};
ghost use Rattle.fr_frame.specs.Outlines.{is_list_body};

use crate::texts::{ledger, planned, table_of};
use fr_frame::{ChildWay, FrameOwner, ItemsKind, PartialValue, SlotId, Slots, Taker, Tracker};
use fr_plan::{NodeId, TypePlanCore};
use fr_shape::{Items, Ledger, ShapeTable, Value};
use fr_store::FrameStore;
use std::process::Abort;

/// A number and a list of them.
const LIST: &str = r#"[{"name":"u32","def":"u32"},{"name":"Numbers","def":{"list":0}}]"#;

/// The plan's node of the list's items.
fn item_node(rt: &impl Abort, plan: &TypePlanCore) -> NodeId
    ensures inside { result.0 < length plan.now.nodes }
{
    let Some(node) = plan.list_item_node_id(plan.root_id()) else {
        panic!(rt; "no node of items");
    };
    assert!(rt; (node.0 as usize) < plan.node_count());
    node
}

/// Whether a place is just entered or holds a list, so that it can be begun as one.
fn opens_as_list(partial: &PartialValue) -> bool
    ensures opens { result ≡ true → MayOpen (as_items TreeItemsKind.List) (body_of partial.now) }
    ensures plain { result ≡ true → is_list_body (body_of partial.now) ≡ false }
{
    matches!(
        partial,
        PartialValue::Entered | PartialValue::Whole(Value::List(_))
    )
}

/// Whether a place is begun as a list, which takes more items.
fn takes_items(partial: &PartialValue) -> bool
    ensures { result ≡ true → IsGrowing (body_of partial.now) }
{
    matches!(
        partial,
        PartialValue::Begun(Tracker::Items(ItemsKind::List), _)
    )
}

/// Whether a place holds a value.
fn is_whole(partial: &PartialValue) -> bool
    ensures whole { result ≡ true → IsSome (value_of (body_of partial.now)) }
    ensures plain { result ≡ true → is_list_body (body_of partial.now) ≡ false }
{
    matches!(partial, PartialValue::Whole(_))
}

/// Ends the test where no place is in the slot.
fn check_used(rt: &impl Abort, slots: &Slots, id: SlotId)
    ensures { IsInUse slots.now id.0 }
{
    assert!(rt; slots.place(id).is_some());
}

/// Ends the test where the place in the slot can't be begun as a list.
fn check_opens(rt: &impl Abort, slots: &Slots, id: SlotId)
    ensures { IfInUse slots.now id.0 (λ at. MayOpen (as_items TreeItemsKind.List) at.body) }
{
    let Some(place) = slots.place(id) else {
        panic!(rt; "no place");
    };
    assert!(rt; opens_as_list(&place.partial));
}

/// Ends the test where the place in the slot takes no items.
fn check_takes_items(rt: &impl Abort, slots: &Slots, id: SlotId)
    ensures { IfInUse slots.now id.0 (λ at. IsGrowing at.body) }
{
    let Some(place) = slots.place(id) else {
        panic!(rt; "no place");
    };
    assert!(rt; takes_items(&place.partial));
}

/// Ends the test where the place in the slot holds no value.
fn check_whole(rt: &impl Abort, slots: &Slots, id: SlotId)
    ensures { IfInUse slots.now id.0 (λ at. IsSome (value_of at.body)) }
{
    let Some(place) = slots.place(id) else {
        panic!(rt; "no place");
    };
    assert!(rt; is_whole(&place.partial));
}

/// Ends the test where the owner of the place in the slot doesn't have it there.
fn check_owned(rt: &impl Abort, slots: &Slots, id: SlotId)
    ensures { IfInUse slots.now id.0 (λ at.
        held_by (heap_of slots.now) at.owner ≡ Some (placed id.0)) }
{
    let Some(place) = slots.place(id) else {
        panic!(rt; "no place");
    };
    let FrameOwner::Child(list, number) = &place.owner else {
        panic!(rt; "a root");
    };
    let Some(found) = list.child(slots, *number) else {
        panic!(rt; "no slot of the child");
    };
    assert!(rt; found.0 == id.0);
}

/// A place of the plan's root, which is entered into a slot.
fn enter_root(rt: &impl Abort, table: &ShapeTable, plan: &TypePlanCore, slots: &mut Slots) -> SlotId
    requires { (t : ℕ) → slots_occur slots.old t ≡ 0 }
    ensures { (t : ℕ) → slots_occur slots.new t ≡ 0 }
{
    match slots.enter(table, plan, plan.root_id(), FrameOwner::Root) {
        Ok(id) => id,
        Err(_) => panic!(rt; "no memory"),
    }
}

/// Takes the place out of its slot.
fn release(rt: &impl Abort, slots: &mut Slots, id: SlotId, ledger: &mut Ledger)
    requires { (t : ℕ) → slots_occur slots.old t ≡ 0 }
    ensures { (t : ℕ) → slots_occur slots.new t ≡ 0 }
{
    check_used(rt, slots, id);
    id.release_frame(slots, ledger);
}

/// Begins the place in the slot as a list.
fn begin_list(rt: &impl Abort, slots: &mut Slots, id: SlotId)
    requires { (t : ℕ) → slots_occur slots.old t ≡ 0 }
    ensures { (t : ℕ) → slots_occur slots.new t ≡ 0 }
{
    check_opens(rt, slots, id);
    match id.begin(slots, Tracker::Items(ItemsKind::List), 0) {
        Ok(()) => {}
        Err(_) => panic!(rt; "no memory"),
    }
}

/// The next item of the list in this slot, which is entered into a slot of its own.
fn enter_item(
    rt: &impl Abort,
    table: &ShapeTable,
    plan: &TypePlanCore,
    slots: &mut Slots,
    list: SlotId,
) -> SlotId
    requires { (t : ℕ) → slots_occur slots.old t ≡ 0 }
    ensures { (t : ℕ) → slots_occur slots.new t ≡ 0 }
{
    check_takes_items(rt, slots, list);
    match slots.enter_child(table, plan, item_node(rt, plan), list, ChildWay::Item) {
        Ok(id) => id,
        Err(_) => panic!(rt; "no memory"),
    }
}

/// Puts a value without tokens at the place in the slot.
fn put(rt: &impl Abort, slots: &mut Slots, id: SlotId, value: Value, ledger: &mut Ledger)
    requires none { (t : ℕ) → slots_occur slots.old t ≡ 0 }
    requires value { (t : ℕ) → occurs (view value) t ≡ 0 }
    ensures { (t : ℕ) → slots_occur slots.new t ≡ 0 }
{
    check_used(rt, slots, id);
    id.put(slots, value, ledger);
}

/// Hands the value of the place in the slot to its owner.
fn hand_up(rt: &impl Abort, slots: &mut Slots, id: SlotId, ledger: &mut Ledger)
    requires { (t : ℕ) → slots_occur slots.old t ≡ 0 }
    ensures { (t : ℕ) → slots_occur slots.new t ≡ 0 }
{
    check_whole(rt, slots, id);
    check_owned(rt, slots, id);
    match id.hand_over(slots, Taker::Above, ledger) {
        Ok(()) => {}
        Err(_) => panic!(rt; "no memory"),
    }
}

/// The slot of the list's next item, which is entered, is given a number and completes.
fn complete_item(
    rt: &impl Abort,
    table: &ShapeTable,
    plan: &TypePlanCore,
    slots: &mut Slots,
    list: SlotId,
    ledger: &mut Ledger,
) -> SlotId
    requires { (t : ℕ) → slots_occur slots.old t ≡ 0 }
    ensures { (t : ℕ) → slots_occur slots.new t ≡ 0 }
{
    let item = enter_item(rt, table, plan, slots, list);
    put(rt, slots, item, Value::Nat(7), ledger);
    hand_up(rt, slots, item, ledger);
    item
}

#[test]
fn a_slot_that_was_freed_serves_again(rt: HostRuntime) {
    let table = table_of(&rt, rt.alloc(), LIST);
    let plan = planned(&rt, rt.alloc(), &table);
    let mut ledger = ledger(&rt, rt.alloc(), 1);
    let mut slots = Slots::new(rt.alloc());
    let first = enter_root(&rt, &table, &plan, &mut slots);
    let second = enter_root(&rt, &table, &plan, &mut slots);
    assert!(&rt; first.0 != second.0);
    release(&rt, &mut slots, first, &mut ledger);
    let third = enter_root(&rt, &table, &plan, &mut slots);
    assert!(&rt; third.0 == first.0);
}

#[test]
fn an_item_keeps_its_slot(rt: HostRuntime) {
    let table = table_of(&rt, rt.alloc(), LIST);
    let plan = planned(&rt, rt.alloc(), &table);
    let mut ledger = ledger(&rt, rt.alloc(), 1);
    let mut slots = Slots::new(rt.alloc());
    let list = enter_root(&rt, &table, &plan, &mut slots);
    begin_list(&rt, &mut slots, list);
    let first = complete_item(&rt, &table, &plan, &mut slots, list, &mut ledger);
    let second = enter_item(&rt, &table, &plan, &mut slots, list);
    assert!(&rt; second.0 != first.0);
}

#[test]
fn slots_of_items_serve_again(rt: HostRuntime) {
    let table = table_of(&rt, rt.alloc(), LIST);
    let plan = planned(&rt, rt.alloc(), &table);
    let mut ledger = ledger(&rt, rt.alloc(), 1);
    let mut slots = Slots::new(rt.alloc());
    let list = enter_root(&rt, &table, &plan, &mut slots);
    begin_list(&rt, &mut slots, list);
    let first = complete_item(&rt, &table, &plan, &mut slots, list, &mut ledger);
    let empty = Value::List(Items::new(rt.alloc()));
    put(&rt, &mut slots, list, empty, &mut ledger);
    begin_list(&rt, &mut slots, list);
    let next = enter_item(&rt, &table, &plan, &mut slots, list);
    assert!(&rt; next.0 == first.0);
}

/// A child that was only entered isn't stored, and one that was never entered isn't either.
#[test]
fn a_child_that_was_not_left_is_not_stored(rt: HostRuntime) {
    let table = table_of(&rt, rt.alloc(), LIST);
    let plan = planned(&rt, rt.alloc(), &table);
    let mut slots = Slots::new(rt.alloc());
    let list = enter_root(&rt, &table, &plan, &mut slots);
    begin_list(&rt, &mut slots, list);
    let _item = enter_item(&rt, &table, &plan, &mut slots, list);
    let store = FrameStore::new(rt.alloc());
    assert!(&rt; store.is_empty());
    for child in 0..2u32 {
        assert!(&rt; !store.contains(&slots, list, child));
    }
}
