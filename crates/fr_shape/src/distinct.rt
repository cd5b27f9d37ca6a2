//! Tests that no item, key or name comes twice.
ghost use Rattle.std.specs.Prelude.{◌≡◌, map, IfOk};
ghost use Rattle.std.specs.List.{list_any, list_all};
ghost use Rattle.std.specs.Str.{bytes_eq};
ghost use Rattle.fr_shape.specs.View.{view, vals_view, entries_view, dyn_view, dynamics_view, members_view};
ghost use Rattle.fr_shape.specs.Same.{is_among, none_twice, keys};
ghost use Rattle.fr_shape.specs.Fits.{keys_once, all_keys_once, members_keys_once};
ghost use Rattle.fr_shape.specs.Distinct.{distinct};

use crate::contents::ByContents;
use crate::repeated::{are_distinct, is_long};
use crate::{Dyn, Items, OutOfMemory, Text, Value, same};

/// Whether no two of the values are `same`.
pub(crate) fn none_twice(values: &Items<Value>) -> bool
    ensures { result ≡ none_twice (vals_view values.now) }
{
    if is_long(values.len()) {
        if let Ok(apart) = many_apart(values) {
            return apart;
        }
    }
    few_apart(values.as_slice())
}

/// The same, by the order of values.
fn many_apart(values: &Items<Value>) -> Result<bool, OutOfMemory>
    ensures { IfOk result (λ apart. apart ≡ none_twice (vals_view values.now)) }
{
    let mut keys = Vec::with_capacity(values.alloc(), values.len())?;
    for value in values.as_slice() {
        keys.push(ByContents(value))?;
    }
    are_distinct(values.alloc(), keys.as_slice())
}

/// The same, each pair compared.
fn few_apart(values: &[Value]) -> bool
    ensures { result ≡ none_twice (vals_view values.now) }
{
    for (i, value) in values.iter().enumerate() {
        if is_among(value, &values[i + 1..]) {
            return false;
        }
    }
    true
}

fn is_among(value: &Value, values: &[Value]) -> bool
    ensures { result ≡ is_among (view value.now) (vals_view values.now) }
{
    for other in values {
        if same(value, other) {
            return true;
        }
    }
    false
}

/// Whether no two of the entries' keys are `same`.
pub(crate) fn no_key_twice(entries: &Items<(Value, Value)>) -> bool
    ensures { result ≡ none_twice (keys (entries_view entries.now)) }
{
    if is_long(entries.len()) {
        if let Ok(apart) = many_keys_apart(entries) {
            return apart;
        }
    }
    few_keys_apart(entries.as_slice())
}

/// The same, by the order of values.
fn many_keys_apart(entries: &Items<(Value, Value)>) -> Result<bool, OutOfMemory>
    ensures { IfOk result (λ apart. apart ≡ none_twice (keys (entries_view entries.now))) }
{
    let mut keys = Vec::with_capacity(entries.alloc(), entries.len())?;
    for entry in entries.as_slice() {
        keys.push(ByContents(&entry.0))?;
    }
    are_distinct(entries.alloc(), keys.as_slice())
}

/// The same, each pair compared.
fn few_keys_apart(entries: &[(Value, Value)]) -> bool
    ensures { result ≡ none_twice (keys (entries_view entries.now)) }
{
    for (i, entry) in entries.iter().enumerate() {
        if is_key(&entry.0, &entries[i + 1..]) {
            return false;
        }
    }
    true
}

fn is_key(key: &Value, entries: &[(Value, Value)]) -> bool
    ensures { result ≡ is_among (view key.now) (keys (entries_view entries.now)) }
{
    for entry in entries {
        if same(key, &entry.0) {
            return true;
        }
    }
    false
}

/// Whether no object in it has a key twice.
#[cycle(keys_once)]
pub(crate) fn keys_once(d: &Dyn) -> bool
    ensures { result ≡ keys_once (dyn_view d.now) }
{
    match d {
        Dyn::Array(items) => all_keys_once(items),
        Dyn::Object(members) => members_keys_once(members),
        Dyn::Null | Dyn::Bool(_) | Dyn::Int(_) | Dyn::Nat(_) | Dyn::Text(_) | Dyn::Bytes(_) => true,
    }
}

#[cycle(keys_once)]
fn all_keys_once(items: &Items<Dyn>) -> bool
    ensures { result ≡ all_keys_once (dynamics_view items.now) }
{
    for item in items.as_slice() {
        if !keys_once(item) {
            return false;
        }
    }
    true
}

#[cycle(keys_once)]
#[tactic(auto, using(crate::proofs::KeysApart::members_split))]
fn members_keys_once(members: &Items<(Text, Dyn)>) -> bool
    ensures { result ≡ members_keys_once (members_view members.now) }
{
    names_apart(members) && values_keys_once(members)
}

#[cycle(keys_once)]
fn values_keys_once(members: &Items<(Text, Dyn)>) -> bool
    ensures { result ≡ list_all (λ m. keys_once (dyn_view m.1)) members.now }
{
    for member in members.as_slice() {
        if !keys_once(&member.1) {
            return false;
        }
    }
    true
}

/// Whether no two members have one key.
fn names_apart(members: &Items<(Text, Dyn)>) -> bool
    ensures { result ≡ distinct bytes_eq (map (λ m. m.0) members.now) }
{
    if is_long(members.len()) {
        if let Ok(apart) = many_names_apart(members) {
            return apart;
        }
    }
    few_names_apart(members.as_slice())
}

/// The same, by the order of names.
fn many_names_apart(members: &Items<(Text, Dyn)>) -> Result<bool, OutOfMemory>
    ensures { IfOk result (λ apart. apart ≡ distinct bytes_eq (map (λ m. m.0) members.now)) }
{
    let mut names = Vec::with_capacity(members.alloc(), members.len())?;
    for member in members.as_slice() {
        names.push(member.0.as_str())?;
    }
    are_distinct(members.alloc(), names.as_slice())
}

/// The same, each pair compared.
fn few_names_apart(members: &[(Text, Dyn)]) -> bool
    ensures { result ≡ distinct bytes_eq (map (λ m. m.0) members.now) }
{
    for i in 0..members.len() {
        if has_name(&members[i].0, &members[i + 1..]) {
            return false;
        }
    }
    true
}

fn has_name(name: &Text, members: &[(Text, Dyn)]) -> bool
    ensures { result ≡ list_any (bytes_eq name.now) (map (λ m. m.0) members.now) }
{
    for member in members {
        if *name == member.0 {
            return true;
        }
    }
    false
}
