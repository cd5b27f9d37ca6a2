//! Printing a dynamic shape's values.
ghost use Rattle.std.specs.Prelude.{◌≡◌, codes, IfOk};
ghost use Rattle.serde_json.specs.Data.{array};
ghost use Rattle.serde_json.specs.View.{view as data_of};
ghost use Rattle.fr_shape.specs.View.{dyn_view, dynamics_of, members_of};
ghost use Rattle.fr_doc.specs.Printed.{bytes_data, dyn_data, dynamics_data, dyn_members_data};
ghost use Rattle.fr_doc.specs.Reading.{member_view};
ghost use Rattle.std.specs.Prelude.{map};

use crate::json_parts::{print_pair, tagged};
use fr_shape::{Dyn, Items, Text};
use serde_json::Value as Json;
use std::alloc::{AllocError, Global};

/// The JSON of a dynamic value.
#[cycle(print_dyn)]
pub fn print_dyn(alloc: Global, value: &Dyn) -> Result<Json, AllocError>
    ensures { IfOk result (λ json. data_of json ≡ dyn_data (dyn_view value.now)) }
{
    match value {
        Dyn::Null => Ok(Json::Null),
        Dyn::Bool(b) => Ok(Json::Bool(*b)),
        Dyn::Int(z) => tagged(alloc, "i", Json::from(*z)),
        Dyn::Nat(n) => Ok(Json::from(*n)),
        Dyn::Text(text) => Json::try_from_str(alloc, text.as_str()),
        Dyn::Bytes(bytes) => tagged(alloc, "b", print_bytes(alloc, bytes.as_slice())?),
        Dyn::Array(items) => print_dyns(alloc, items),
        Dyn::Object(members) => tagged(alloc, "o", print_members(alloc, members)?),
    }
}

/// The bytes as an array of numbers.
fn print_bytes(alloc: Global, bytes: &[u8]) -> Result<Json, AllocError>
    ensures { IfOk result (λ json. data_of json ≡ array (bytes_data bytes.now)) }
{
    let mut items = Vec::new(alloc);
    for byte in bytes {
        items.push(Json::from(*byte))?;
    }
    Ok(Json::Array(items))
}

/// The values as an array.
#[cycle(print_dyn)]
fn print_dyns(alloc: Global, values: &Items<Dyn>) -> Result<Json, AllocError>
    ensures { IfOk result (λ json. data_of json
        ≡ array (dynamics_data (dynamics_of (map dyn_view values.now)))) }
{
    let mut items = Vec::new(alloc);
    for value in values.as_slice() {
        items.push(print_dyn(alloc, value)?)?;
    }
    Ok(Json::Array(items))
}

/// An object's entries as an array of pairs.
#[cycle(print_dyn)]
fn print_members(alloc: Global, members: &Items<(Text, Dyn)>) -> Result<Json, AllocError>
    ensures { IfOk result (λ json. data_of json
        ≡ array (dyn_members_data (members_of (map member_view members.now)))) }
{
    let mut items = Vec::new(alloc);
    for (key, value) in members.as_slice() {
        let key = Json::try_from_str(alloc, key.as_str())?;
        let value = print_dyn(alloc, value)?;
        items.push(print_pair(alloc, key, value)?)?;
    }
    Ok(Json::Array(items))
}
