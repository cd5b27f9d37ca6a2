//! Looking into JSON objects, and for floats.
ghost use Rattle.std.specs.Prelude.{◌≡◌, map, option_map};
ghost use Rattle.serde_json.specs.Find.{get};
ghost use Rattle.serde_json.specs.View.{view as data_of, items_view, members_view};
ghost use Rattle.serde_json.specs.Written.{has_float as data_has_float, items_have_float, members_have_float};
ghost use Rattle.fr_doc.specs.Keys.{is_among, has_no_other, object_of as object_form, only_member as only_member_form};
ghost use Rattle.fr_doc.specs.Reading.{Reads};

use crate::fault::ReadError;
use crate::read_error::{Broken, FormError};
use serde_json::{Map, Value as Json};

/// Whether an object has no other keys than these. It may lack some of them.
pub fn has_only(members: &Map<String, Json>, keys: &[&str]) -> bool
    ensures only { result
        ≡ has_no_other (members_view members.now.entries) (map (λ key. key.now) keys.now) }
{
    for (key, _) in members.iter() {
        if !is_one_of(key.as_str(), keys) {
            return false;
        }
    }
    true
}

fn is_one_of(key: &str, keys: &[&str]) -> bool
    ensures { result ≡ is_among key.now (map (λ other. other.now) keys.now) }
{
    for other in keys {
        if key == *other {
            return true;
        }
    }
    false
}

/// An object that has no other keys than these. It may lack some of them.
#[tactic(auto, unfolding(crate::specs::Keys::object_of))]
pub fn object_of<'j>(json: &'j Json, keys: &[&str]) -> Result<&'j Json, FormError>
    ensures { Reads (λ object. data_of object.now)
        (object_form (map (λ key. key.now) keys.now) (data_of json.now)) result }
{
    let members = json.as_object().ok_or(Broken)?;
    if !has_only(members, keys) {
        return Err(ReadError::Fault(Broken));
    }
    Ok(json)
}

/// What stands under a key that has to be there.
pub fn required<'j>(json: &'j Json, key: &str) -> Result<&'j Json, FormError>
    ensures { Reads (λ inner. data_of inner.now) (get key.now (data_of json.now)) result }
{
    json.get(key).ok_or(ReadError::Fault(Broken))
}

/// The key of an object that has no other, and what stands under it.
#[tactic(auto, unfolding(crate::specs::Keys::only_member))]
pub fn only_member(members: &Map<String, Json>) -> Option<(&str, &Json)>
    ensures { option_map (λ entry. (entry.0.now, data_of entry.1.now)) result
        ≡ only_member_form (members_view members.now.entries) }
{
    let mut entries = members.iter();
    let (Some((key, inner)), None) = (entries.next(), entries.next()) else {
        return None;
    };
    Some((key.as_str(), inner))
}

/// Whether a number in it is neither an `i64` nor a `u64`.
#[inline]
#[cycle(float)]
pub fn has_float(json: &Json) -> bool
    ensures has_float { result ≡ data_has_float (data_of json.now) }
{
    match json {
        Json::Number(number) => number.is_f64(),
        Json::Array(items) => items_hold_float(items),
        Json::Object(members) => members_hold_float(members),
        Json::Null | Json::Bool(_) | Json::String(_) => false,
    }
}

// The loops stand by themselves, so that the test of a leaf is small enough to be part of them.
#[inline(never)]
#[cycle(float)]
fn items_hold_float(items: &Vec<Json>) -> bool
    ensures { result ≡ items_have_float (items_view items.now.items) }
{
    for item in items {
        if has_float(item) {
            return true;
        }
    }
    false
}

#[inline(never)]
#[cycle(float)]
fn members_hold_float(members: &Map<String, Json>) -> bool
    ensures { result ≡ members_have_float (members_view members.now.entries) }
{
    for (_, member) in members.iter() {
        if has_float(member) {
            return true;
        }
    }
    false
}
