//! Whether tokens stand in a value.
ghost use Rattle.std.specs.Prelude.{◌≡◌};
ghost use Rattle.fr_shape.specs.Lists.{is_nil};
ghost use Rattle.fr_shape.specs.Tokens.{entries_tokens, tokens, vals_tokens};
ghost use Rattle.fr_shape.specs.View.{entries_view, vals_view, view};

use fr_shape::{Items, Value};

/// Whether no token stands in a value.
#[cycle(tokenless)]
pub fn is_tokenless(value: &Value) -> bool
    ensures { result ≡ is_nil (tokens (view value.now)) }
{
    match value {
        Value::Token(_) => false,
        Value::Product(values)
        | Value::Variant(_, values)
        | Value::List(values)
        | Value::Set(values) => are_tokenless(values),
        Value::Some(inner) | Value::Ok(inner) | Value::Err(inner) | Value::Ptr(inner) => {
            is_tokenless(inner)
        }
        Value::Map(entries) => are_entries_tokenless(entries),
        Value::Unit
        | Value::Bool(_)
        | Value::Char(_)
        | Value::Int(_)
        | Value::Nat(_)
        | Value::Text(_)
        | Value::None
        | Value::Dyn(_) => true,
    }
}

/// Whether none stands in any of these.
#[cycle(tokenless)]
fn are_tokenless(values: &Items<Value>) -> bool
    ensures { result ≡ is_nil (vals_tokens (vals_view values.now)) }
{
    for value in values.as_slice() {
        if !is_tokenless(value) {
            return false;
        }
    }
    true
}

/// Whether none stands in any key or value of these.
#[cycle(tokenless)]
fn are_entries_tokenless(entries: &Items<(Value, Value)>) -> bool
    ensures { result ≡ is_nil (entries_tokens (entries_view entries.now)) }
{
    for entry in entries.as_slice() {
        if !is_tokenless(&entry.0) || !is_tokenless(&entry.1) {
            return false;
        }
    }
    true
}
