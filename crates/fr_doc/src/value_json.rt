//! Printing values.
ghost use Rattle.std.specs.Prelude.{◌≡◌, map, IfOk};
ghost use Rattle.serde_json.specs.Data.{array};
ghost use Rattle.serde_json.specs.View.{view as data_of};
ghost use Rattle.fr_shape.specs.View.{view, vals_view, entries_view};
ghost use Rattle.fr_doc.specs.Printed.{under, pair, nat_data, int_data, value_data, vals_data, entries_data};

use crate::dyn_json::print_dyn;
use crate::json_parts::{print_char, print_int, print_nat, print_pair, tagged};
use fr_shape::{Items, OutOfMemory, Value};
use serde_json::Value as Json;
use std::alloc::{AllocError, Global};

/// The JSON of a value. It holds no float.
pub fn json_of(alloc: Global, value: &Value) -> Result<Json, OutOfMemory>
    ensures form { IfOk result (λ json. data_of json ≡ value_data (view value.now)) }
{
    print_value(alloc, value).map_err(|_| OutOfMemory)
}

#[cycle(print)]
fn print_value(alloc: Global, value: &Value) -> Result<Json, AllocError>
    ensures { IfOk result (λ json. data_of json ≡ value_data (view value.now)) }
{
    match value {
        Value::Unit | Value::None => Ok(Json::Null),
        Value::Bool(b) => Ok(Json::Bool(*b)),
        Value::Char(c) => print_char(alloc, *c),
        Value::Int(z) => print_int(alloc, *z),
        Value::Nat(n) => print_nat(alloc, *n),
        Value::Text(text) => Json::try_from_str(alloc, text.as_str()),
        Value::Token(t) => tagged(alloc, "t", Json::from(*t)),
        Value::Product(fields) => print_values(alloc, fields),
        Value::Variant(i, fields) => {
            let fields = print_values(alloc, fields)?;
            tagged(alloc, "v", print_pair(alloc, Json::from(*i), fields)?)
        }
        Value::Some(inner) => tagged(alloc, "s", print_value(alloc, inner)?),
        Value::Ok(inner) => tagged(alloc, "ok", print_value(alloc, inner)?),
        Value::Err(inner) => tagged(alloc, "err", print_value(alloc, inner)?),
        Value::List(items) => tagged(alloc, "l", print_values(alloc, items)?),
        Value::Map(entries) => tagged(alloc, "m", print_entries(alloc, entries)?),
        Value::Set(items) => tagged(alloc, "e", print_values(alloc, items)?),
        Value::Ptr(inner) => tagged(alloc, "p", print_value(alloc, inner)?),
        Value::Dyn(inner) => tagged(alloc, "d", print_dyn(alloc, inner)?),
    }
}

/// The values as an array.
#[cycle(print)]
fn print_values(alloc: Global, values: &Items<Value>) -> Result<Json, AllocError>
    ensures { IfOk result (λ json. data_of json ≡ array (vals_data (vals_view values.now))) }
{
    let mut items = Vec::new(alloc);
    for value in values.as_slice() {
        items.push(print_value(alloc, value)?)?;
    }
    Ok(Json::Array(items))
}

/// A map's entries as an array of pairs.
#[cycle(print)]
fn print_entries(alloc: Global, entries: &Items<(Value, Value)>) -> Result<Json, AllocError>
    ensures { IfOk result (λ json. data_of json ≡ array (entries_data (entries_view entries.now))) }
{
    let mut items = Vec::new(alloc);
    for (key, value) in entries.as_slice() {
        let key = print_value(alloc, key)?;
        let value = print_value(alloc, value)?;
        items.push(print_pair(alloc, key, value)?)?;
    }
    Ok(Json::Array(items))
}
