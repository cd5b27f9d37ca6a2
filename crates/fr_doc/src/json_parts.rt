//! The small pieces that printed values are made of.
ghost use Rattle.std.specs.Prelude.{◌≡◌, codes, IfOk};
ghost use Rattle.std.specs.Char.{encode_utf8};
ghost use Rattle.serde_json.specs.Data.{string};
ghost use Rattle.serde_json.specs.View.{view as data_of};
ghost use Rattle.fr_doc.specs.Printed.{under, pair, nat_data, int_data};

use serde_json::{Map, Value as Json};
use std::alloc::{AllocError, Global};

/// An object of one key.
pub fn tagged(alloc: Global, key: &str, inner: Json) -> Result<Json, AllocError>
    ensures { IfOk result (λ json. data_of json ≡ under key.now (data_of inner)) }
{
    let mut members = Map::new(alloc);
    let key = String::from_str(alloc, key)?;
    drop(members.insert(key, inner)?);
    Ok(Json::Object(members))
}

/// An array of two.
pub fn print_pair(alloc: Global, a: Json, b: Json) -> Result<Json, AllocError>
    ensures { IfOk result (λ json. data_of json ≡ pair (data_of a) (data_of b)) }
{
    let mut items = Vec::new(alloc);
    items.push(a)?;
    items.push(b)?;
    Ok(Json::Array(items))
}

/// A text of one character, under its key.
pub fn print_char(alloc: Global, c: char) -> Result<Json, AllocError>
    ensures { IfOk result (λ json. data_of json ≡ under (codes "c") (string (encode_utf8 c))) }
{
    let mut text = String::new(alloc);
    text.push(c)?;
    tagged(alloc, "c", Json::String(text))
}

/// A number of 64 bits as itself, a larger one as its digits.
pub fn print_nat(alloc: Global, n: u128) -> Result<Json, AllocError>
    ensures { IfOk result (λ json. data_of json ≡ nat_data n) }
{
    match u64::try_from(n) {
        Ok(small) => Ok(Json::from(small)),
        Err(_) => tagged(alloc, "n", Json::String(format!(in alloc; "{n}")?)),
    }
}

/// A number of 64 bits as itself, any other as its digits, each under its key.
pub fn print_int(alloc: Global, z: i128) -> Result<Json, AllocError>
    ensures { IfOk result (λ json. data_of json ≡ int_data z) }
{
    match i64::try_from(z) {
        Ok(small) => tagged(alloc, "i", Json::from(small)),
        Err(_) => tagged(alloc, "i", Json::String(format!(in alloc; "{z}")?)),
    }
}
