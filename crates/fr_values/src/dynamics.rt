//! Putting dynamic arrays and objects together, and taking them apart.
ghost use Rattle.fr_values.specs.Common.{Conserved, IfErr, IfOk, IsSome, OnErr, Room, RoseBy, Some, [], absent, cells_of_vals, dyn, dyn_view, dynamic_in, element_vals, length, member_keys, member_vals, names_of, occurs, option_map, vals_occur, vals_view, view};
ghost use Rattle.std.specs.Prelude.{replicate, vec_capacity, ◌≡◌, ◌≤◌};
ghost use Rattle.fr_shape.specs.Val.{dyn_array, dyn_object};
ghost use Rattle.fr_shape.specs.View.{dynamics_view, members_view};
ghost use Rattle.fr_model.specs.Dynamics.{dynamics_in, members_in, elements_in, members_of_object, object_keys};

use crate::child_values::ChildValues;
use crate::children::Children;
use crate::keys::{Keys, text_of};
use fr_shape::{Dyn, Items, Ledger, OutOfMemory, Text, Value, release};
use std::alloc::Global;

/// The dynamic value that a value is. Any other value counts as none, and is released.
fn dynamic_in(value: Value, ledger: &mut Ledger) -> Dyn
    requires room { Room (occurs (view value)) ledger.old }
    ensures dynamic { dyn_view result ≡ dynamic_in (view value) }
    ensures released { RoseBy (occurs (view value)) ledger.old ledger.new }
{
    match value {
        Value::Dyn(dynamic) => dynamic,
        other => {
            release(other, ledger);
            Dyn::Null
        }
    }
}

/// The elements that these values make. Takes no memory.
fn put_elements(mut elements: Vec<Dyn>, values: Vec<Value>, ledger: &mut Ledger) -> Vec<Dyn>
    requires empty { elements.items ≡ [] }
    requires space { length values.items ≤ vec_capacity elements }
    requires room { Room (vals_occur (vals_view values.items)) ledger.old }
    ensures elements { dynamics_view result.items ≡ dynamics_in (vals_view values.items) }
    ensures released { RoseBy (vals_occur (vals_view values.items)) ledger.old ledger.new }
{
    let mut rest = values.into_iter();
    while let Some(value) = rest.next() {
        elements.push_reserved(dynamic_in(value, ledger));
    }
    elements
}

/// The array of these elements. Takes no memory.
fn array_with(elements: Vec<Dyn>) -> Value
    ensures { view result ≡ dyn (dyn_array (dynamics_view elements.items)) }
{
    Value::Dyn(Dyn::Array(Items::from_vec(elements)))
}

/// The dynamic array of these values. Those that aren't dynamic count as none, and are released.
/// Without memory all are handed back.
pub fn array_of(
    alloc: Global,
    values: ChildValues,
    ledger: &mut Ledger,
) -> Result<Value, ChildValues>
    requires room { Room (vals_occur (vals_view values)) ledger.old }
    ensures value { IfOk result (λ v.
        view v ≡ dyn (dyn_array (dynamics_in (vals_view values)))) }
    ensures conserved { IfOk result (λ v. Conserved (vals_occur (vals_view values)) ledger.old
        (occurs (view v)) ledger.new) }
    ensures handed_back { IfErr result (λ back. back ≡ values) }
    ensures ledger_kept { OnErr result (ledger.new ≡ ledger.old) }
{
    let Ok(elements) = Vec::with_capacity(alloc, values.len()) else {
        return Err(values);
    };
    Ok(array_with(put_elements(elements, values.into_values(), ledger)))
}

/// The entries that these names and values make: each value under its name, as far as there are
/// both. What is left of the values is released. Takes no memory.
fn put_members(
    mut members: Vec<(Text, Dyn)>,
    names: Vec<Value>,
    values: Vec<Value>,
    ledger: &mut Ledger,
) -> Vec<(Text, Dyn)>
    requires empty { members.items ≡ [] }
    requires space { length names.items ≤ vec_capacity members }
    requires room { Room (vals_occur (vals_view values.items)) ledger.old }
    ensures members { members_view result.items
        ≡ members_in (names_of names.items) (vals_view values.items) }
    ensures released { RoseBy (vals_occur (vals_view values.items)) ledger.old ledger.new }
{
    let mut names_left = names.into_iter();
    let mut rest = values.into_iter();
    while let Some(value) = rest.next() {
        let dynamic = dynamic_in(value, ledger);
        if let Some(name) = names_left.next() {
            members.push_reserved((text_of(name), dynamic));
        }
    }
    members
}

/// The object of these entries. Takes no memory.
fn object_with(members: Vec<(Text, Dyn)>) -> Value
    ensures { view result ≡ dyn (dyn_object (members_view members.items)) }
{
    Value::Dyn(Dyn::Object(Items::from_vec(members)))
}

/// The dynamic object of these keys and values, without the keys that have no value. Values that
/// aren't dynamic count as none; they and those beyond the keys are released. Without memory the
/// keys stay, and the values are handed back.
pub fn object_of(
    alloc: Global,
    keys: &mut Keys,
    values: ChildValues,
    ledger: &mut Ledger,
) -> Result<Value, ChildValues>
    requires room { Room (vals_occur (vals_view values)) ledger.old }
    ensures value { IfOk result (λ v.
        view v ≡ dyn (dyn_object (members_in keys.old (vals_view values)))) }
    ensures conserved { IfOk result (λ v. Conserved (vals_occur (vals_view values)) ledger.old
        (occurs (view v)) ledger.new) }
    ensures keys_kept { OnErr result (keys.new ≡ keys.old) }
    ensures handed_back { IfErr result (λ back. back ≡ values) }
    ensures ledger_kept { OnErr result (ledger.new ≡ ledger.old) }
{
    let Ok(members) = Vec::with_capacity(alloc, keys.len()) else {
        return Err(values);
    };
    let names = std::mem::replace(keys, Keys::none()).into_names(alloc);
    Ok(object_with(put_members(members, names, values.into_values(), ledger)))
}

/// Puts elements at children, of which there are as many. Takes no memory.
fn enter_elements(children: &mut Children, elements: Vec<Dyn>)
    requires { length elements.items ≡ length children.old }
    ensures { children.new ≡ cells_of_vals (element_vals (dynamics_view elements.items)) }
{
    let mut rest = elements.into_iter();
    let mut i = 0;
    while let Some(element) = rest.next() {
        children.put(i, Value::Dyn(element));
        i += 1;
    }
}

/// Takes the elements out of a dynamic array. It stays as it was where there is no memory for them.
pub fn elements_of(alloc: Global, value: &mut Value) -> Result<Children, OutOfMemory>
    requires { IsSome (elements_in (dynamic_in (view value.old))) }
    ensures parts { IfOk result (λ children.
        option_map cells_of_vals
        (option_map element_vals (elements_in (dynamic_in (view value.old)))) ≡ Some children) }
    ensures refused { OnErr result (view value.new ≡ view value.old) }
{
    let Value::Dyn(Dyn::Array(items)) = std::mem::replace(value, Value::Unit) else {
        unreachable!()
    };
    let elements = items.into_vec();
    let Ok(mut children) = Children::none_yet(alloc, elements.len()) else {
        *value = array_with(elements);
        return Err(OutOfMemory);
    };
    enter_elements(&mut children, elements);
    Ok(children)
}

/// Puts the values of entries at children, of which there are as many. Takes no memory.
fn enter_members(children: &mut Children, members: Vec<(Text, Dyn)>)
    requires { length members.items ≡ length children.old }
    ensures { children.new ≡ cells_of_vals (member_vals (members_view members.items)) }
{
    let mut rest = members.into_iter();
    let mut i = 0;
    while let Some(member) = rest.next() {
        children.put(i, Value::Dyn(member.1));
        i += 1;
    }
}

/// Copies of the names of these entries, as keys.
fn keys_of(alloc: Global, members: &[(Text, Dyn)]) -> Result<Keys, OutOfMemory>
    ensures { IfOk result (λ keys. keys ≡ member_keys (members_view members.now)) }
{
    let mut keys = Keys::none();
    for member in members {
        let name = Text::new(alloc, member.0.as_str())?;
        keys.push(alloc, name)?;
    }
    Ok(keys)
}

/// The keys of these entries, and as many children, none of them there yet.
fn keys_and_room(alloc: Global, members: &[(Text, Dyn)]) -> Result<(Keys, Children), OutOfMemory>
    ensures keys { IfOk result (λ made. made.0 ≡ member_keys (members_view members.now)) }
    ensures room { IfOk result (λ made. made.1 ≡ replicate (length members.now) absent) }
{
    let keys = keys_of(alloc, members)?;
    let children = Children::none_yet(alloc, members.len())?;
    Ok((keys, children))
}

/// Takes the keys and the values of its entries out of a dynamic object. It stays as it was where
/// there is no memory for them.
pub fn members_of(alloc: Global, value: &mut Value) -> Result<(Keys, Children), OutOfMemory>
    requires { IsSome (members_of_object (dynamic_in (view value.old))) }
    ensures keys { IfOk result (λ made. made.0 ≡ object_keys (view value.old)) }
    ensures parts { IfOk result (λ made.
        option_map cells_of_vals
        (option_map member_vals (members_of_object (dynamic_in (view value.old)))) ≡ Some made.1) }
    ensures refused { OnErr result (view value.new ≡ view value.old) }
{
    let Value::Dyn(Dyn::Object(items)) = std::mem::replace(value, Value::Unit) else {
        unreachable!()
    };
    let members = items.into_vec();
    let Ok((keys, mut children)) = keys_and_room(alloc, members.as_slice()) else {
        *value = object_with(members);
        return Err(OutOfMemory);
    };
    enter_members(&mut children, members);
    Ok((keys, children))
}
