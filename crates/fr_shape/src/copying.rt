//! Copies of values that hold no token.
ghost use Rattle.std.specs.Prelude.{◌≡◌, [], map, IfOk};
ghost use Rattle.fr_shape.specs.View.{view, entry_view, dyn_view, member_view};
ghost use Rattle.fr_shape.specs.Tokens.{tokens};

use crate::{Dyn, Items, OutOfMemory, Text, Value};
use std::alloc::Global;

/// An equal value.
pub fn clone_template(alloc: Global, v: &Value) -> Result<Value, OutOfMemory>
    requires no_token { tokens (view v.now) ≡ [] }
    ensures copy { IfOk result (λ w. view w ≡ view v.now) }
{
    copy_value(alloc, v)
}

#[cycle(copying)]
fn copy_value(alloc: Global, v: &Value) -> Result<Value, OutOfMemory>
    ensures { IfOk result (λ w. view w ≡ view v.now) }
{
    Ok(match v {
        Value::Unit => Value::Unit,
        Value::Bool(b) => Value::Bool(*b),
        Value::Char(c) => Value::Char(*c),
        Value::Int(z) => Value::Int(*z),
        Value::Nat(n) => Value::Nat(*n),
        Value::Text(text) => Value::Text(Text::new(alloc, text.as_str())?),
        Value::Token(token) => Value::Token(*token),
        Value::Product(values) => Value::Product(copy_values(alloc, values)?),
        Value::Variant(i, values) => Value::Variant(*i, copy_values(alloc, values)?),
        Value::None => Value::None,
        Value::Some(inner) => Value::Some(copy_boxed(alloc, inner)?),
        Value::Ok(inner) => Value::Ok(copy_boxed(alloc, inner)?),
        Value::Err(inner) => Value::Err(copy_boxed(alloc, inner)?),
        Value::List(values) => Value::List(copy_values(alloc, values)?),
        Value::Map(entries) => Value::Map(copy_entries(alloc, entries)?),
        Value::Set(values) => Value::Set(copy_values(alloc, values)?),
        Value::Ptr(inner) => Value::Ptr(copy_boxed(alloc, inner)?),
        Value::Dyn(d) => Value::Dyn(copy_dyn(alloc, d)?),
    })
}

#[cycle(copying)]
fn copy_boxed(alloc: Global, v: &Value) -> Result<Box<Value>, OutOfMemory>
    ensures { IfOk result (λ w. view w.value ≡ view v.now) }
{
    Ok(Box::new(alloc, copy_value(alloc, v)?)?)
}

#[cycle(copying)]
fn copy_values(alloc: Global, values: &Items<Value>) -> Result<Items<Value>, OutOfMemory>
    ensures { IfOk result (λ copies. map view copies ≡ map view values.now) }
{
    let mut copies = Items::new(alloc);
    for value in values.as_slice() {
        copies.push(copy_value(alloc, value)?)?;
    }
    Ok(copies)
}

#[cycle(copying)]
fn copy_entries(
    alloc: Global,
    entries: &Items<(Value, Value)>,
) -> Result<Items<(Value, Value)>, OutOfMemory>
    ensures { IfOk result (λ copies. map entry_view copies ≡ map entry_view entries.now) }
{
    let mut copies = Items::new(alloc);
    for entry in entries.as_slice() {
        let key = copy_value(alloc, &entry.0)?;
        let value = copy_value(alloc, &entry.1)?;
        copies.push((key, value))?;
    }
    Ok(copies)
}

#[cycle(copying_dynamic)]
fn copy_dyn(alloc: Global, d: &Dyn) -> Result<Dyn, OutOfMemory>
    ensures { IfOk result (λ e. dyn_view e ≡ dyn_view d.now) }
{
    Ok(match d {
        Dyn::Null => Dyn::Null,
        Dyn::Bool(b) => Dyn::Bool(*b),
        Dyn::Int(z) => Dyn::Int(*z),
        Dyn::Nat(n) => Dyn::Nat(*n),
        Dyn::Text(text) => Dyn::Text(Text::new(alloc, text.as_str())?),
        Dyn::Bytes(bytes) => Dyn::Bytes(copy_bytes(alloc, bytes)?),
        Dyn::Array(items) => Dyn::Array(copy_items(alloc, items)?),
        Dyn::Object(members) => Dyn::Object(copy_members(alloc, members)?),
    })
}

fn copy_bytes(alloc: Global, bytes: &Items<u8>) -> Result<Items<u8>, OutOfMemory>
    ensures { IfOk result (λ copy. copy ≡ bytes.now) }
{
    Ok(Items::from_vec(bytes.as_slice().to_vec(alloc)?))
}

#[cycle(copying_dynamic)]
fn copy_items(alloc: Global, items: &Items<Dyn>) -> Result<Items<Dyn>, OutOfMemory>
    ensures { IfOk result (λ copies. map dyn_view copies ≡ map dyn_view items.now) }
{
    let mut copies = Items::new(alloc);
    for item in items.as_slice() {
        copies.push(copy_dyn(alloc, item)?)?;
    }
    Ok(copies)
}

#[cycle(copying_dynamic)]
fn copy_members(
    alloc: Global,
    members: &Items<(Text, Dyn)>,
) -> Result<Items<(Text, Dyn)>, OutOfMemory>
    ensures { IfOk result (λ copies. map member_view copies ≡ map member_view members.now) }
{
    let mut copies = Items::new(alloc);
    for member in members.as_slice() {
        let key = Text::new(alloc, member.0.as_str())?;
        let item = copy_dyn(alloc, &member.1)?;
        copies.push((key, item))?;
    }
    Ok(copies)
}
