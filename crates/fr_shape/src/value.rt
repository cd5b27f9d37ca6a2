//! Values, whatever their shape. Which of them fit a shape is said by the definition of "fits".
ghost use Rattle.std.specs.Prelude.{◌≡◌};
ghost use Rattle.fr_shape.specs.Lists.{is_nil};
ghost use Rattle.fr_shape.specs.Tokens.{entries_tokens, tokens, vals_tokens};
ghost use Rattle.fr_shape.specs.View.{entries_view, vals_view, view};

use crate::{Items, Text};

/// A value of some shape. `Unit` fits no shape: it is a placeholder. A `Token` stands for a value
/// that the library can't see into, and that has to be released once.
#[derive(Drop)]
pub enum Value {
    Unit,
    Bool(bool),
    Char(char),
    Int(i128),
    Nat(u128),
    Text(Text),
    Token(u32),
    Product(Items<Value>),
    Variant(u32, Items<Value>),
    None,
    Some(Box<Value>),
    Ok(Box<Value>),
    Err(Box<Value>),
    List(Items<Value>),
    Map(Items<(Value, Value)>),
    Set(Items<Value>),
    Ptr(Box<Value>),
    Dyn(Dyn),
}

impl Value {
    /// Whether no token stands in it. It looks at each part of the value once.
    #[cycle(holds_no_token)]
    pub fn holds_no_token(&self) -> bool
        ensures none { result ≡ is_nil (tokens (view self.now)) }
    {
        match self {
            Value::Token(_) => false,
            Value::Product(values)
            | Value::Variant(_, values)
            | Value::List(values)
            | Value::Set(values) => hold_no_token(values),
            Value::Some(inner) | Value::Ok(inner) | Value::Err(inner) | Value::Ptr(inner) => {
                inner.holds_no_token()
            }
            Value::Map(entries) => entries_hold_no_token(entries),
            Value::Unit
            | Value::Bool(_)
            | Value::Char(_)
            | Value::Int(_)
            | Value::Nat(_)
            | Value::Text(_)
            | Value::None
            | Value::Dyn(_) => true,
        }
    }
}

#[cycle(holds_no_token)]
#[tactic(auto, using(crate::proofs::Faults::is_nil_append))]
fn hold_no_token(values: &Items<Value>) -> bool
    ensures { result ≡ is_nil (vals_tokens (vals_view values.now)) }
{
    for value in values.as_slice() {
        if !value.holds_no_token() {
            return false;
        }
    }
    true
}

#[cycle(holds_no_token)]
#[tactic(auto, using(crate::proofs::Faults::is_nil_append))]
fn entries_hold_no_token(entries: &Items<(Value, Value)>) -> bool
    ensures { result ≡ is_nil (entries_tokens (entries_view entries.now)) }
{
    for entry in entries.as_slice() {
        if !entry.0.holds_no_token() || !entry.1.holds_no_token() {
            return false;
        }
    }
    true
}

/// A value of a dynamic shape.
#[derive(Drop)]
pub enum Dyn {
    Null,
    Bool(bool),
    Int(i64),
    Nat(u64),
    Text(Text),
    Bytes(Items<u8>),
    Array(Items<Dyn>),
    Object(Items<(Text, Dyn)>),
}
