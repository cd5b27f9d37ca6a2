//! Reading a dynamic shape's values.
ghost use Rattle.std.specs.Prelude.{◌≡◌, map, IfOk};
ghost use Rattle.serde_json.specs.View.{view as data_of, items_view, members_view};
ghost use Rattle.fr_shape.specs.View.{dyn_view, dynamics_of, members_of};
ghost use Rattle.fr_doc.specs.DynForms.{bytes_form, dyn_form, dynamics_form, dyn_one_key_form, dyn_object_form, dyn_member_form};
ghost use Rattle.fr_doc.specs.Reading.{Reads, member_view};

use crate::fault::ReadError;
use crate::numerals::{byte_of, small_int_of};
use crate::read_error::{Broken, FormError};
use crate::tag::{DynTag, find_dyn_tag};
use fr_shape::{Dyn, Items, OutOfMemory, Text};
use serde_json::{Map, Value as Json};
use std::alloc::Global;

/// The bytes that JSON stands for, an array of numbers from 0 to 255, or None where it is no such
/// array.
pub fn bytes_of(alloc: Global, json: &Json) -> Result<Option<Items<u8>>, OutOfMemory>
    ensures form { IfOk result (λ found. found ≡ bytes_form (data_of json.now)) }
{
    match read_bytes(alloc, json) {
        Ok(bytes) => Ok(Some(bytes)),
        Err(ReadError::Fault(Broken)) => Ok(None),
        Err(ReadError::Memory) => Err(OutOfMemory),
    }
}

/// The same, where anything else is an error.
fn read_bytes(alloc: Global, json: &Json) -> Result<Items<u8>, FormError>
    ensures { Reads (λ bytes. bytes) (bytes_form (data_of json.now)) result }
{
    let Json::Array(items) = json else {
        return Err(ReadError::Fault(Broken));
    };
    let mut bytes = Items::new(alloc);
    for item in items {
        bytes.push(byte_of(item).ok_or(Broken)?)?;
    }
    Ok(bytes)
}

/// The dynamic value of a form.
#[cycle(dynamic)]
pub fn read_dyn(alloc: Global, json: &Json) -> Result<Dyn, FormError>
    ensures { Reads dyn_view (dyn_form (data_of json.now)) result }
{
    match json {
        Json::Null => Ok(Dyn::Null),
        Json::Bool(b) => Ok(Dyn::Bool(*b)),
        Json::Number(number) => match number.as_u64() {
            Some(n) => Ok(Dyn::Nat(n)),
            None => Err(ReadError::Fault(Broken)),
        },
        Json::String(text) => Ok(Dyn::Text(Text::new(alloc, text.as_str())?)),
        Json::Array(items) => Ok(Dyn::Array(read_dyns(alloc, items)?)),
        Json::Object(members) => read_tagged_dyn(alloc, members),
    }
}

/// An object of exactly one key.
#[cycle(dynamic)]
fn read_tagged_dyn(alloc: Global, members: &Map<String, Json>) -> Result<Dyn, FormError>
    ensures { Reads dyn_view (dyn_one_key_form (members_view members.now.entries)) result }
{
    let mut entries = members.iter();
    let (Some((key, inner)), None) = (entries.next(), entries.next()) else {
        return Err(ReadError::Fault(Broken));
    };
    match find_dyn_tag(key.as_str()) {
        Some(DynTag::Int) => match small_int_of(inner) {
            Some(n) => Ok(Dyn::Int(n)),
            None => Err(ReadError::Fault(Broken)),
        },
        Some(DynTag::Bytes) => Ok(Dyn::Bytes(read_bytes(alloc, inner)?)),
        Some(DynTag::Object) => Ok(Dyn::Object(read_dyn_members(alloc, inner)?)),
        None => Err(ReadError::Fault(Broken)),
    }
}

#[cycle(dynamic)]
fn read_dyns(alloc: Global, items: &Vec<Json>) -> Result<Items<Dyn>, FormError>
    ensures { Reads (λ ds. dynamics_of (map dyn_view ds))
        (dynamics_form (items_view items.now.items)) result }
{
    let mut dyns = Items::new(alloc);
    for item in items {
        dyns.push(read_dyn(alloc, item)?)?;
    }
    Ok(dyns)
}

/// The entries of a dynamic object.
#[cycle(dynamic)]
fn read_dyn_members(alloc: Global, json: &Json) -> Result<Items<(Text, Dyn)>, FormError>
    ensures { Reads (λ ms. members_of (map member_view ms))
        (dyn_object_form (data_of json.now)) result }
{
    let Json::Array(items) = json else {
        return Err(ReadError::Fault(Broken));
    };
    let mut members = Items::new(alloc);
    for item in items {
        members.push(read_dyn_member(alloc, item)?)?;
    }
    Ok(members)
}

/// A key and the value under it.
#[cycle(dynamic)]
fn read_dyn_member(alloc: Global, json: &Json) -> Result<(Text, Dyn), FormError>
    ensures { Reads member_view (dyn_member_form (data_of json.now)) result }
{
    let Json::Array(items) = json else {
        return Err(ReadError::Fault(Broken));
    };
    let mut items = items.iter();
    let (Some(key), Some(inner), None) = (items.next(), items.next(), items.next()) else {
        return Err(ReadError::Fault(Broken));
    };
    let Json::String(key) = key else {
        return Err(ReadError::Fault(Broken));
    };
    let dynamic = read_dyn(alloc, inner)?;
    Ok((Text::new(alloc, key.as_str())?, dynamic))
}
