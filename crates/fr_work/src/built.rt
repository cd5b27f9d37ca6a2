//! What a builder built.
ghost use Rattle.std.specs.Prelude.{◌≡◌};
ghost use Rattle.fr_work.specs.Common.{view};

use fr_shape::Value;
use std::marker::Model;

/// A built value, and how many calls of the builder made it. `Partial::build` alone makes one.
#[derive(Drop)]
pub struct Built {
    pub(crate) value: Value,
    pub(crate) calls: u32,
}

impl Model for Built {
    ghost use Rattle.fr_shape.specs.View.{view as plain};
    ghost use Rattle.fr_work.specs.BuiltValue.{BuiltValue, built_value_code};

    ghost Value = { BuiltValue };

    ghost coded = { built_value_code };

    ghost view = { λ b. record { value = plain b.value; calls = b.calls } };
}

impl Built {
    /// The value, which stays here.
    pub fn value(&self) -> &Value
        ensures value { view result.now ≡ self.now.value }
    {
        &self.value
    }

    /// The value alone.
    pub fn into_value(self) -> Value
        ensures value { view result ≡ self.value }
    {
        let Built { value, .. } = self;
        value
    }

    /// How many calls of the builder succeeded before `build`, up to 4294967295, where the number
    /// stays.
    pub fn calls(&self) -> u32
        ensures calls { result ≡ self.now.calls }
    {
        self.calls
    }
}
