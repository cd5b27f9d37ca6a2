//! The entries of a map and the items of a set, of values that came one after the other.
ghost use Rattle.fr_values.specs.Common.{Conserved, IfErr, IfOk, OnErr, Room, [], both, entries_in, entries_occur, entries_view, entry_place, entry_places, first_keys, into_iter_items, into_iter_len, item_place, item_places, items_in, length, no_entries, no_vals, none_twice, occurs, parts_of_entries, true, vals_occur, vals_view, view, with_entry_in, with_item_in};
ghost use Rattle.std.specs.Prelude.{◌*◌, take, vec_len, vec_capacity, ◌++◌, ◌+◌, ◌<◌, ◌∷◌, ◌≡◌, ◌≤◌};

use crate::child_values::ChildValues;
use crate::key_places::{KeyedParts, places_of_keys};
use fr_model::law_gathering;
use fr_shape::{Ledger, Value, release};
use std::alloc::Global;
use std::mem;
use std::vec::IntoIter;

/// The entries that keys and values make that come in turn, of which so many are known to have
/// distinct keys. A key that comes again keeps its place and takes the new value; the new key and
/// the old value are released, and so is a last key that has no value. Without memory the parts are
/// handed back.
pub fn merge_entries(
    alloc: Global,
    parts: ChildValues,
    base: usize,
    ledger: &mut Ledger,
) -> Result<Vec<(Value, Value)>, ChildValues>
    requires within { 2 * base ≤ length parts }
    requires distinct { none_twice (first_keys base (vals_view parts)) ≡ true }
    requires room { Room (vals_occur (vals_view parts)) ledger.old }
    ensures merged { IfOk result (λ entries.
        entries_view entries.items ≡ entries_in no_entries (vals_view parts)) }
    ensures conserved { IfOk result (λ entries.
        Conserved (vals_occur (vals_view parts)) ledger.old
        (entries_occur (entries_view entries.items)) ledger.new) }
    ensures handed_back { IfErr result (λ back. back ≡ parts) }
    ensures ledger_kept { OnErr result (ledger.new ≡ ledger.old) }
{
    let (held, new) = parts.as_slices();
    let Ok(places) = places_of_keys(alloc, KeyedParts::Entries(held, new), base) else {
        return Err(parts);
    };
    let (mut entries, values) = match parts.into_entries(base) {
        Ok(split) => split,
        Err(back) => return Err(back),
    };
    let mut rest = values.into_iter();
    take_entries(&mut entries, &mut rest, base);
    law_gathering();
    Ok(put_entries(entries, rest, places.as_slice(), ledger))
}

/// Takes entries as they come, until there are so many.
fn take_entries(entries: &mut Vec<(Value, Value)>, rest: &mut IntoIter<Value>, count: usize)
    requires fewer { length entries.old.items ≤ count }
    requires space { count ≤ vec_capacity entries.old }
    requires within { 2 * count ≤ 2 * length entries.old.items + into_iter_len rest.old }
    requires counted { into_iter_len rest.old ≡ length (into_iter_items rest.old) }
    ensures taken { parts_of_entries entries.old.items ++ into_iter_items rest.old
        ≡ parts_of_entries entries.new.items ++ into_iter_items rest.new }
    ensures count { length entries.new.items ≡ count }
    ensures counted { into_iter_len rest.new ≡ length (into_iter_items rest.new) }
    ensures capacity { vec_capacity entries.new ≡ vec_capacity entries.old }
{
    for _taken in entries.len()..count {
        let key = next_part(rest);
        let value = next_part(rest);
        entries.push_reserved((key, value));
    }
}

/// The next of some parts that aren't all taken.
fn next_part(rest: &mut IntoIter<Value>) -> Value
    requires { 0 < into_iter_len rest.old }
    ensures items { into_iter_items rest.old ≡ result ∷ into_iter_items rest.new }
    ensures len { into_iter_len rest.new + 1 ≡ into_iter_len rest.old }
{
    match rest.next() {
        Some(part) => part,
        None => unreachable!(),
    }
}

/// Puts entries in at their places, one after the other.
fn put_entries(
    mut entries: Vec<(Value, Value)>,
    mut rest: IntoIter<Value>,
    places: &[usize],
    ledger: &mut Ledger,
) -> Vec<(Value, Value)>
    requires counted { into_iter_len rest ≡ length (into_iter_items rest) }
    requires space { 2 * vec_len entries + into_iter_len rest ≤ 2 * vec_capacity entries + 1 }
    requires placed { places.now
        ≡ entry_places (entries_view entries.items) (vals_view (into_iter_items rest)) }
    requires room { Room (both (entries_occur (entries_view entries.items))
        (vals_occur (vals_view (into_iter_items rest)))) ledger.old }
    ensures merged { entries_view result.items
        ≡ entries_in (entries_view entries.items) (vals_view (into_iter_items rest)) }
    ensures conserved { Conserved (both (entries_occur (entries_view entries.items))
        (vals_occur (vals_view (into_iter_items rest)))) ledger.old
        (entries_occur (entries_view result.items)) ledger.new }
{
    let mut i = 0;
    while let Some(key) = rest.next() {
        let Some(value) = rest.next() else {
            release(key, ledger);
            break;
        };
        put_entry(&mut entries, places[i], key, value, ledger);
        i += 1;
    }
    entries
}

/// Puts one entry in: at the place of an equal key in place of its value, else behind the others.
fn put_entry(
    entries: &mut Vec<(Value, Value)>,
    place: usize,
    key: Value,
    value: Value,
    ledger: &mut Ledger,
)
    requires placed { place ≡ entry_place (entries_view entries.old.items) (view key) }
    requires space { vec_len entries.old < vec_capacity entries.old }
    requires room { Room (both (occurs (view key)) (entries_occur (entries_view entries.old.items)))
        ledger.old }
    ensures put { entries_view entries.new.items
        ≡ with_entry_in (entries_view entries.old.items) (view key) (view value) }
    ensures conserved { Conserved
        (both (both (occurs (view key)) (occurs (view value)))
        (entries_occur (entries_view entries.old.items))) ledger.old
        (entries_occur (entries_view entries.new.items)) ledger.new }
    ensures one_more { vec_len entries.new ≤ vec_len entries.old + 1 }
    ensures no_less { vec_capacity entries.old ≤ vec_capacity entries.new }
{
    if place < entries.len() {
        let entry = &mut entries[place];
        let old = mem::replace(&mut entry.1, value);
        release(key, ledger);
        release(old, ledger);
    } else {
        entries.push_reserved((key, value));
    }
}

/// The items that values make that come one after the other, of which so many are known to be
/// distinct: one that is `same` as an earlier one is released. Without memory they are handed back.
pub fn distinct_items(
    alloc: Global,
    parts: ChildValues,
    base: usize,
    ledger: &mut Ledger,
) -> Result<Vec<Value>, ChildValues>
    requires within { base ≤ length parts }
    requires distinct { none_twice (vals_view (take base parts)) ≡ true }
    requires room { Room (vals_occur (vals_view parts)) ledger.old }
    ensures distinct { IfOk result (λ kept.
        vals_view kept.items ≡ items_in no_vals (vals_view parts)) }
    ensures conserved { IfOk result (λ kept.
        Conserved (vals_occur (vals_view parts)) ledger.old
        (vals_occur (vals_view kept.items)) ledger.new) }
    ensures handed_back { IfErr result (λ back. back ≡ parts) }
    ensures ledger_kept { OnErr result (ledger.new ≡ ledger.old) }
{
    let mut items = parts.into_values();
    let Ok(places) = places_of_keys(alloc, KeyedParts::Items(items.as_slice()), base) else {
        return Err(ChildValues::of_values(items));
    };
    let Ok(new) = items.split_off(base) else {
        return Err(ChildValues::of_values(items));
    };
    law_gathering();
    Ok(keep_items(items, new, places.as_slice(), ledger))
}

/// Keeps the items that are new, one after the other.
fn keep_items(
    mut kept: Vec<Value>,
    items: Vec<Value>,
    places: &[usize],
    ledger: &mut Ledger,
) -> Vec<Value>
    requires space { vec_len kept + length items.items ≤ vec_capacity kept }
    requires placed { places.now
        ≡ item_places (vals_view kept.items) (vals_view items.items) }
    requires room { Room (both (vals_occur (vals_view kept.items))
        (vals_occur (vals_view items.items))) ledger.old }
    ensures distinct { vals_view result.items
        ≡ items_in (vals_view kept.items) (vals_view items.items) }
    ensures conserved { Conserved (both (vals_occur (vals_view kept.items))
        (vals_occur (vals_view items.items))) ledger.old
        (vals_occur (vals_view result.items)) ledger.new }
{
    let mut rest = items.into_iter();
    let mut i = 0;
    while let Some(item) = rest.next() {
        keep_item(&mut kept, places[i], item, ledger);
        i += 1;
    }
    kept
}

/// Keeps one item, unless an equal one is there.
fn keep_item(kept: &mut Vec<Value>, place: usize, item: Value, ledger: &mut Ledger)
    requires placed { place ≡ item_place (vals_view kept.old.items) (view item) }
    requires space { vec_len kept.old < vec_capacity kept.old }
    requires room { Room (occurs (view item)) ledger.old }
    ensures kept { vals_view kept.new.items ≡ with_item_in (vals_view kept.old.items) (view item) }
    ensures conserved { Conserved
        (both (occurs (view item)) (vals_occur (vals_view kept.old.items))) ledger.old
        (vals_occur (vals_view kept.new.items)) ledger.new }
    ensures one_more { vec_len kept.new ≤ vec_len kept.old + 1 }
    ensures no_less { vec_capacity kept.old ≤ vec_capacity kept.new }
{
    if place < kept.len() {
        release(item, ledger);
    } else {
        kept.push_reserved(item);
    }
}
