//! Defaults as a table holds them.
ghost use Rattle.std.specs.Prelude.{◌≡◌};
ghost use Rattle.fr_shape.specs.View.{view};

use crate::Value;
use std::marker::Model;

/// A value that is copied wherever its default is taken. Contracts see what it shows, so two tables
/// that say the same are seen as the same table, wherever their values lie. In a checked table it
/// fits its shape and holds no token.
#[derive(Drop)]
pub struct Template {
    value: Value,
}

impl Model for Template {
    ghost use Rattle.fr_shape.specs.View.{view as plain};
    ghost use Rattle.fr_shape.specs.Code.{val_code};
    ghost use Rattle.fr_shape.specs.Val.{Val};

    ghost Value = { Val };

    ghost coded = { val_code };

    ghost view = { λ t. plain t.value };
}

impl Template {
    /// The template that shows this value. Takes no memory.
    pub fn new(value: Value) -> Template
        ensures value { result ≡ view value }
    {
        Template { value }
    }

    /// The value that it shows, to be copied or compared.
    pub fn value(&self) -> &Value
        ensures value { view result.now ≡ self.now }
    {
        &self.value
    }
}
