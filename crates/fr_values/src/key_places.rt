//! At which place each key stands that comes to others, among the distinct ones of them.
ghost use Rattle.std.specs.Prelude.{None, OnOk, Some, drop, if◌then◌else◌, length, slice_get, take, ◌≡◌, ◌≤◌, ◌<◌};
ghost use Rattle.fr_values.specs.Common.{ByContents, HasKeys, IfOk, Knows, keys_among, option_or, place, place_known, places_of, same, view};

use fr_shape::{ByContents, OutOfMemory, Value};
use std::alloc::Global;
use std::collections::{BTreeMap, BTreeSet};

/// So many keys are sooner compared one by one with each other key than sorted.
const FEW: usize = 8;

/// The keys among some values: the items of a set are keys themselves; a map has entries, each with
/// a key, and behind them the parts of more, of which each second one is a value.
#[derive(Clone, Copy)]
pub(crate) enum KeyedParts<'a> {
    Items(&'a [Value]),
    Entries(&'a [(Value, Value)], &'a [Value]),
}

impl<'a> KeyedParts<'a> {
    /// How many they are. A last part that has no value is no key.
    fn len(self) -> usize
        ensures { result ≡ length (keys_among self.entry) }
    {
        match self {
            KeyedParts::Items(items) => items.len(),
            KeyedParts::Entries(entries, parts) => entries.len() + parts.len() / 2,
        }
    }

    /// The key of this number.
    fn key(self, number: usize) -> ByContents<'a>
        requires { number < length (keys_among self) }
        ensures { slice_get (keys_among self.entry) number ≡ Some (view result.0.now) }
    {
        match self {
            KeyedParts::Items(items) => ByContents(&items[number]),
            KeyedParts::Entries(entries, parts) => {
                if number < entries.len() {
                    ByContents(&entries[number].0)
                } else {
                    ByContents(&parts[2 * (number - entries.len())])
                }
            }
        }
    }

    /// The first of so many keys that equals this one.
    fn first_place(self, count: usize, key: ByContents<'_>) -> Option<usize>
        requires { count ≤ length (keys_among self) }
        ensures { result ≡ place same (take count (keys_among self.entry)) (view key.entry.0.now) }
    {
        for i in 0..count {
            if self.key(i) == key {
                return Some(i);
            }
        }
        None
    }
}

/// The places that the keys from number `base` on have among those before it.
fn known_places(
    alloc: Global,
    keys: KeyedParts<'_>,
    base: usize,
) -> Result<BTreeMap<ByContents<'_>, usize>, OutOfMemory>
    requires { base ≤ length (keys_among keys) }
    ensures { IfOk result (λ known.
        Knows known (drop base (keys_among keys.entry)) (take base (keys_among keys.entry))) }
{
    if base.min(keys.len() - base) <= FEW {
        few_places(alloc, keys, base)
    } else {
        many_places(alloc, keys, base)
    }
}

/// The same, each new key compared with those before.
fn few_places(
    alloc: Global,
    keys: KeyedParts<'_>,
    base: usize,
) -> Result<BTreeMap<ByContents<'_>, usize>, OutOfMemory>
    requires { base ≤ length (keys_among keys) }
    ensures { IfOk result (λ known.
        Knows known (drop base (keys_among keys.entry)) (take base (keys_among keys.entry))) }
{
    let mut known = BTreeMap::new(alloc);
    for i in 0..keys.len() - base {
        let key = keys.key(base + i);
        if let Some(place) = keys.first_place(base, key) {
            known.insert(key, place)?;
        }
    }
    Ok(known)
}

/// The same, each key before looked up among the new ones.
fn many_places(
    alloc: Global,
    keys: KeyedParts<'_>,
    base: usize,
) -> Result<BTreeMap<ByContents<'_>, usize>, OutOfMemory>
    requires { base ≤ length (keys_among keys) }
    ensures { IfOk result (λ known.
        Knows known (drop base (keys_among keys.entry)) (take base (keys_among keys.entry))) }
{
    let new = new_keys(alloc, keys, base)?;
    let mut known = BTreeMap::new(alloc);
    for i in 0..base {
        let key = keys.key(i);
        if new.contains(&key) {
            keep_first(&mut known, key, i)?;
        }
    }
    Ok(known)
}

/// The keys from number `base` on, in order.
fn new_keys(
    alloc: Global,
    keys: KeyedParts<'_>,
    base: usize,
) -> Result<BTreeSet<ByContents<'_>>, OutOfMemory>
    requires { base ≤ length (keys_among keys) }
    ensures { IfOk result (λ new. HasKeys new (drop base (keys_among keys.entry))) }
{
    let mut new = BTreeSet::new(alloc);
    for i in 0..keys.len() - base {
        new.insert(keys.key(base + i))?;
    }
    Ok(new)
}

/// Takes the place of a key down, unless there is one of an equal key.
fn keep_first<'a>(
    known: &mut BTreeMap<ByContents<'a>, usize>,
    key: ByContents<'a>,
    place: usize,
) -> Result<(), OutOfMemory>
    ensures { OnOk result ((q : ByContents) → place_known known.new q
        ≡ option_or (place_known known.old q)
        (if same (view key.entry.0.now) (view q.0.now) then Some place else None)) }
{
    if !known.contains_key(&key) {
        known.insert(key, place)?;
    }
    Ok(())
}

/// For each key from number `base` on its place among the distinct ones, in the order in which they
/// come.
pub(crate) fn places_of_keys(
    alloc: Global,
    keys: KeyedParts<'_>,
    base: usize,
) -> Result<Vec<usize>, OutOfMemory>
    requires { base ≤ length (keys_among keys) }
    ensures { IfOk result (λ places. places.items
        ≡ places_of same (take base (keys_among keys.entry)) (drop base (keys_among keys.entry))) }
{
    let count = keys.len() - base;
    if count == 0 {
        return Ok(Vec::new(alloc));
    }
    let mut known = known_places(alloc, keys, base)?;
    let mut places = Vec::with_capacity(alloc, count)?;
    let mut next = base;
    for i in 0..count {
        let key = keys.key(base + i);
        // Most keys are new, so each is put in at once, and one that was there gets its place back.
        let before = known.insert(key, next)?;
        let place = match before {
            Some(place) => {
                known.insert(key, place)?;
                place
            }
            None => {
                next += 1;
                next - 1
            }
        };
        places.push(place)?;
    }
    Ok(places)
}
