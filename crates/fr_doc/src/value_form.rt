//! Reading values.
ghost use Rattle.std.specs.Prelude.{◌≡◌, map, option_map, IfOk};
ghost use Rattle.serde_json.specs.View.{view as data_of, items_view, members_view};
ghost use Rattle.fr_shape.specs.View.{view, vals_of, entries_of};
ghost use Rattle.fr_doc.specs.Reading.{Reads, entry_view};
ghost use Rattle.fr_doc.specs.ValueForms.{value_form, one_key_form, vals_form, list_form, variant_form, map_form, entry_form};

use crate::dyn_form::read_dyn;
use crate::fault::ReadError;
use crate::numerals::{char_of, count_of, int_of, nat_of};
use crate::read_error::{Broken, FormError};
use crate::tag::{Tag, find_tag};
use fr_shape::{Items, OutOfMemory, Text, Value};
use serde_json::{Map, Value as Json};
use std::alloc::Global;

/// The value that JSON stands for, or None where its form is broken.
pub fn value_of(alloc: Global, json: &Json) -> Result<Option<Value>, OutOfMemory>
    ensures form { IfOk result (λ found. option_map view found ≡ value_form (data_of json.now)) }
{
    match read_value(alloc, json) {
        Ok(value) => Ok(Some(value)),
        Err(ReadError::Fault(Broken)) => Ok(None),
        Err(ReadError::Memory) => Err(OutOfMemory),
    }
}

/// The same, where a broken form is an error.
#[cycle(value)]
pub fn read_value(alloc: Global, json: &Json) -> Result<Value, FormError>
    ensures { Reads view (value_form (data_of json.now)) result }
{
    match json {
        Json::Null => Ok(Value::None),
        Json::Bool(b) => Ok(Value::Bool(*b)),
        Json::Number(number) => match number.as_u128() {
            Some(n) => Ok(Value::Nat(n)),
            None => Err(ReadError::Fault(Broken)),
        },
        Json::String(text) => Ok(Value::Text(Text::new(alloc, text.as_str())?)),
        Json::Array(items) => Ok(Value::Product(read_values(alloc, items)?)),
        Json::Object(members) => read_tagged(alloc, members),
    }
}

/// An object of exactly one key.
#[cycle(value)]
fn read_tagged(alloc: Global, members: &Map<String, Json>) -> Result<Value, FormError>
    ensures { Reads view (one_key_form (members_view members.now.entries)) result }
{
    let mut entries = members.iter();
    let (Some((key, inner)), None) = (entries.next(), entries.next()) else {
        return Err(ReadError::Fault(Broken));
    };
    match find_tag(key.as_str()).ok_or(Broken)? {
        Tag::Nat => Ok(Value::Nat(nat_of(inner).ok_or(Broken)?)),
        Tag::Int => Ok(Value::Int(int_of(inner).ok_or(Broken)?)),
        Tag::Char => Ok(Value::Char(char_of(inner).ok_or(Broken)?)),
        Tag::Token => Ok(Value::Token(count_of(inner).ok_or(Broken)?)),
        Tag::Variant => read_variant(alloc, inner),
        Tag::Some => Ok(Value::Some(Box::new(alloc, read_value(alloc, inner)?)?)),
        Tag::Ok => Ok(Value::Ok(Box::new(alloc, read_value(alloc, inner)?)?)),
        Tag::Err => Ok(Value::Err(Box::new(alloc, read_value(alloc, inner)?)?)),
        Tag::Pointer => Ok(Value::Ptr(Box::new(alloc, read_value(alloc, inner)?)?)),
        Tag::List => Ok(Value::List(read_list(alloc, inner)?)),
        Tag::Set => Ok(Value::Set(read_list(alloc, inner)?)),
        Tag::Map => Ok(Value::Map(read_map(alloc, inner)?)),
        Tag::Dynamic => Ok(Value::Dyn(read_dyn(alloc, inner)?)),
    }
}

#[cycle(value)]
fn read_values(alloc: Global, items: &Vec<Json>) -> Result<Items<Value>, FormError>
    ensures { Reads (λ vs. vals_of (map view vs)) (vals_form (items_view items.now.items)) result }
{
    let mut values = Items::new(alloc);
    for item in items {
        values.push(read_value(alloc, item)?)?;
    }
    Ok(values)
}

/// An array of values.
#[cycle(value)]
fn read_list(alloc: Global, json: &Json) -> Result<Items<Value>, FormError>
    ensures { Reads (λ vs. vals_of (map view vs)) (list_form (data_of json.now)) result }
{
    match json {
        Json::Array(items) => read_values(alloc, items),
        _ => Err(ReadError::Fault(Broken)),
    }
}

/// A variant's number and its fields.
#[cycle(value)]
fn read_variant(alloc: Global, json: &Json) -> Result<Value, FormError>
    ensures { Reads view (variant_form (data_of json.now)) result }
{
    let Json::Array(items) = json else {
        return Err(ReadError::Fault(Broken));
    };
    let mut items = items.iter();
    let (Some(index), Some(fields), None) = (items.next(), items.next(), items.next()) else {
        return Err(ReadError::Fault(Broken));
    };
    let Some(index) = count_of(index) else {
        return Err(ReadError::Fault(Broken));
    };
    Ok(Value::Variant(index, read_list(alloc, fields)?))
}

/// The entries of a map.
#[cycle(value)]
fn read_map(alloc: Global, json: &Json) -> Result<Items<(Value, Value)>, FormError>
    ensures { Reads (λ es. entries_of (map entry_view es)) (map_form (data_of json.now)) result }
{
    let Json::Array(items) = json else {
        return Err(ReadError::Fault(Broken));
    };
    let mut entries = Items::new(alloc);
    for item in items {
        entries.push(read_entry(alloc, item)?)?;
    }
    Ok(entries)
}

/// A key and the value under it.
#[cycle(value)]
fn read_entry(alloc: Global, json: &Json) -> Result<(Value, Value), FormError>
    ensures { Reads entry_view (entry_form (data_of json.now)) result }
{
    let Json::Array(items) = json else {
        return Err(ReadError::Fault(Broken));
    };
    let mut items = items.iter();
    let (Some(key), Some(inner), None) = (items.next(), items.next(), items.next()) else {
        return Err(ReadError::Fault(Broken));
    };
    let key = read_value(alloc, key)?;
    Ok((key, read_value(alloc, inner)?))
}
