//! Values that are numbers.
ghost use Rattle.std.specs.Prelude.{◌≡◌};
ghost use Rattle.std.specs.Option.{option_map};
ghost use Rattle.fr_shape.specs.View.{view};
ghost use Rattle.fr_shape.specs.Validators.{integer_in};
ghost use Rattle.fr_rules.specs.Validators.{whole};

use fr_shape::Value;

/// A number that a value is.
#[derive(Drop)]
pub(crate) enum Number {
    Int(i128),
    Nat(u128),
}

/// The number that a value is, if it is one.
pub(crate) fn integer_in(value: &Value) -> Option<Number>
    ensures { option_map whole result ≡ integer_in (view value.now) }
{
    match value {
        Value::Int(z) => Some(Number::Int(*z)),
        Value::Nat(n) => Some(Number::Nat(*n)),
        Value::Unit | Value::Bool(_) | Value::Char(_) | Value::Text(_) | Value::Token(_) => None,
        Value::Product(_) | Value::Variant(..) | Value::None | Value::Some(_) => None,
        Value::Ok(_) | Value::Err(_) | Value::Ptr(_) | Value::Dyn(_) => None,
        Value::List(_) | Value::Map(_) | Value::Set(_) => None,
    }
}
