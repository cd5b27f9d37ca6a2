//! Taking a value apart into those of the children that it has at a place that is begun.
ghost use Rattle.std.specs.Prelude.{◌+◌, ◌≡◌};
ghost use Rattle.fr_frame.specs.Common.{HoldsNothingTwice, IfOk, IfSome, IsSome, OnErr, Some, as_content, as_entries, as_tracker, cells_of_vals, entries_of, entries_view, dynamic_in, length, map_of, member_vals, option_map, parts_of, set_items_of, view};
ghost use Rattle.fr_shape.specs.declared.value.Value.{Value as Taken};
ghost use Rattle.fr_model.specs.Contents.{content_of};
ghost use Rattle.fr_model.specs.Dynamics.{members_of_object, object_keys};
ghost use Rattle.fr_model.specs.Places.{base_in, items_of};
ghost use Rattle.fr_model.specs.Step.{parts_as};
ghost use Rattle.fr_model.specs.Trackers.{ContentKind as TreeContentKind, EntriesKind as TreeEntriesKind};
ghost use Rattle.fr_model.specs.Tree.{over_base};

use crate::places::{ContentKind, EntriesKind, ItemsKind, Tracker};
use fr_shape::{Items, OutOfMemory, Value};
use fr_values::{Base, Children, elements_of, members_of};
use std::alloc::Global;

/// Puts a value back from which all was taken, so there is nothing to let go.
fn put_back(value: &mut Value, back: Value)
    requires { value.old ≡ Taken.Unit }
    ensures { value.new ≡ back }
{
    std::mem::forget(std::mem::replace(value, back));
}

/// Takes the parts out of a product. It stays as it was where there is no memory for them.
fn children_of_product(alloc: Global, value: &mut Value) -> Result<Children, OutOfMemory>
    requires { IsSome (parts_of (view value.old)) }
    ensures parts { IfOk result (λ children.
        option_map cells_of_vals (parts_of (view value.old)) ≡ Some children) }
    ensures refused { OnErr result (view value.new ≡ view value.old) }
{
    let Value::Product(items) = std::mem::replace(value, Value::Unit) else {
        unreachable!()
    };
    match Children::all_there(alloc, items.into_vec(), Base::none()) {
        Ok(children) => Ok(children),
        Err(values) => {
            put_back(value, Value::Product(Items::from_vec(values)));
            Err(OutOfMemory)
        }
    }
}

/// Takes the items out of a list. It stays as it was where there is no memory for them.
fn children_of_list(alloc: Global, value: &mut Value) -> Result<Children, OutOfMemory>
    requires { IsSome (items_of (view value.old)) }
    ensures parts { IfOk result (λ children.
        option_map cells_of_vals (items_of (view value.old)) ≡ Some children) }
    ensures refused { OnErr result (view value.new ≡ view value.old) }
{
    let Value::List(items) = std::mem::replace(value, Value::Unit) else {
        unreachable!()
    };
    match Children::all_there(alloc, items.into_vec(), Base::none()) {
        Ok(children) => Ok(children),
        Err(values) => {
            put_back(value, Value::List(Items::from_vec(values)));
            Err(OutOfMemory)
        }
    }
}

/// Takes the items out of a set. It stays as it was where there is no memory for them.
fn children_of_set(alloc: Global, value: &mut Value) -> Result<Children, OutOfMemory>
    requires items { IsSome (set_items_of (view value.old)) }
    requires apart { HoldsNothingTwice (view value.old) }
    ensures parts { IfOk result (λ children.
        option_map cells_of_vals (set_items_of (view value.old)) ≡ Some children) }
    ensures refused { OnErr result (view value.new ≡ view value.old) }
{
    let Value::Set(items) = std::mem::replace(value, Value::Unit) else {
        unreachable!()
    };
    let base = Base::of_items(items.len());
    match Children::all_there(alloc, items.into_vec(), base) {
        Ok(children) => Ok(children),
        Err(values) => {
            put_back(value, Value::Set(Items::from_vec(values)));
            Err(OutOfMemory)
        }
    }
}

/// How many entries a map has.
fn count_entries(value: &Value) -> usize
    requires { IsSome (entries_of (view value.now)) }
    ensures { IfSome (entries_of (view value.now)) (λ vs.
        result + result ≡ length (cells_of_vals vs)) }
{
    match value {
        Value::Map(entries) => entries.len(),
        _ => unreachable!(),
    }
}

/// The entries of a map. Takes no memory.
fn entries_of(value: Value) -> Vec<(Value, Value)>
    requires { IsSome (entries_of (view value)) }
    ensures { view value ≡ map_of (entries_view result.items) }
{
    let Value::Map(entries) = value else {
        unreachable!()
    };
    entries.into_vec()
}

/// Takes keys and values, in turn, out of a map, and tells that it is begun over its entries. It
/// stays as it was where there is no memory for them, or where they are too many to be numbered.
fn children_of_map(alloc: Global, value: &mut Value) -> Result<(Tracker, Children), OutOfMemory>
    requires entries { IsSome (entries_of (view value.old)) }
    requires apart { HoldsNothingTwice (view value.old) }
    ensures over { IfOk result (λ made.
        as_tracker made.0 ≡ as_entries (TreeEntriesKind.Map (base_in (view value.old)))) }
    ensures parts { IfOk result (λ made.
        option_map cells_of_vals (entries_of (view value.old)) ≡ Some made.1) }
    ensures refused { OnErr result (view value.new ≡ view value.old) }
{
    let Ok(base) = u32::try_from(count_entries(value)) else {
        return Err(OutOfMemory);
    };
    let entries = entries_of(std::mem::replace(value, Value::Unit));
    match Children::of_entries(alloc, entries, base) {
        Ok(children) => Ok((Tracker::Entries(EntriesKind::Map(base)), children)),
        Err(back) => {
            put_back(value, Value::Map(Items::from_vec(back)));
            Err(OutOfMemory)
        }
    }
}

/// Takes the content out of a whole `Some`. Takes no memory.
fn content_of(value: Value) -> Value
    requires { IsSome (content_of (view value)) }
    ensures { content_of (view value) ≡ Some (view result) }
{
    match value {
        Value::Some(held) => Box::into_inner(held),
        _ => unreachable!(),
    }
}

/// Takes the content out of a whole `Some`. It stays as it was where there is no memory for it.
fn children_of_some(alloc: Global, value: &mut Value) -> Result<Children, OutOfMemory>
    requires { IsSome (content_of (view value.old)) }
    ensures parts { IfOk result (λ children. option_map cells_of_vals
        (parts_as (as_content TreeContentKind.Some) (view value.old)) ≡ Some children) }
    ensures refused { OnErr result (view value.new ≡ view value.old) }
{
    let mut children = Children::none_yet(alloc, 1)?;
    children.put(0, content_of(std::mem::replace(value, Value::Unit)));
    Ok(children)
}

/// Takes keys and values of its entries out of a dynamic object, and tells that it is begun under
/// these keys. It stays as it was where there is no memory for them.
fn children_of_object(alloc: Global, value: &mut Value) -> Result<(Tracker, Children), OutOfMemory>
    requires { IsSome (members_of_object (dynamic_in (view value.old))) }
    ensures over { IfOk result (λ made. as_tracker made.0
        ≡ as_entries (TreeEntriesKind.Object (object_keys (view value.old)))) }
    ensures parts { IfOk result (λ made. option_map cells_of_vals
        (option_map member_vals (members_of_object (dynamic_in (view value.old))))
        ≡ Some made.1) }
    ensures refused { OnErr result (view value.new ≡ view value.old) }
{
    let (keys, children) = members_of(alloc, value)?;
    Ok((Tracker::Entries(EntriesKind::Object(keys)), children))
}

/// Takes the values of its children out of a value that has some, as children that are all there,
/// and tells as what it is begun with them: a map over the entries that it has, an object under its
/// keys. The value stays where there is no memory for them.
pub(crate) fn children_of(
    alloc: Global,
    tracker: Tracker,
    value: &mut Value,
) -> Result<(Tracker, Children), OutOfMemory>
    requires parts { IsSome (parts_as (as_tracker tracker) (view value.old)) }
    requires apart { HoldsNothingTwice (view value.old) }
    ensures over { IfOk result (λ made.
        as_tracker made.0 ≡ over_base (as_tracker tracker) (view value.old)) }
    ensures parts { IfOk result (λ made.
        option_map cells_of_vals (parts_as (as_tracker tracker) (view value.old)) ≡ Some made.1) }
    ensures refused { OnErr result (view value.new ≡ view value.old) }
{
    match tracker {
        Tracker::Fields(None) => Ok((tracker, children_of_product(alloc, value)?)),
        Tracker::Elements => Ok((tracker, children_of_product(alloc, value)?)),
        Tracker::Content(ContentKind::Some) => Ok((tracker, children_of_some(alloc, value)?)),
        Tracker::Items(ItemsKind::List) => Ok((tracker, children_of_list(alloc, value)?)),
        Tracker::Items(ItemsKind::Set) => Ok((tracker, children_of_set(alloc, value)?)),
        Tracker::Items(ItemsKind::Array) => Ok((tracker, elements_of(alloc, value)?)),
        Tracker::Entries(EntriesKind::Map(_)) => children_of_map(alloc, value),
        Tracker::Entries(EntriesKind::Object(_)) => children_of_object(alloc, value),
        Tracker::Fields(Some(_)) => unreachable!(),
        Tracker::Content(
            ContentKind::Ok | ContentKind::Err | ContentKind::Pointer | ContentKind::Source(_),
        ) => unreachable!(),
        Tracker::Items(ItemsKind::Slice | ItemsKind::ClosedSlice) => unreachable!(),
    }
}
