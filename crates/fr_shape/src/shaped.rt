//! A value together with the number of its shape.
ghost use Rattle.std.specs.Prelude.{◌≡◌, true};
ghost use Rattle.fr_shape.specs.View.{view};
ghost use Rattle.fr_shape.specs.Fits.{fits};

use crate::{ShapeId, ShapeTable, Value};
use std::marker::Model;

/// A value and the number of a shape that it fits.
#[derive(Drop)]
pub struct Shaped {
    shape: ShapeId,
    value: Value,
}

impl Model for Shaped {
    ghost use Rattle.fr_shape.specs.View.{view as plain};
    ghost use Rattle.fr_shape.specs.ShapedValue.{ShapedValue, shaped_value_code};

    ghost Value = { ShapedValue };

    ghost coded = { shaped_value_code };

    ghost view = { λ s. record { shape = s.shape.0; value = plain s.value } };
}

impl Shaped {
    /// The two together. `table` is what the number counts in; nothing of it is kept.
    pub fn new(table: &ShapeTable, shape: ShapeId, value: Value) -> Shaped
        requires fits { fits table.now shape.0 (view value) ≡ true }
        ensures shape { result.shape ≡ shape.0 }
        ensures value { result.value ≡ view value }
    {
        Shaped { shape, value }
    }

    /// The number of the shape.
    pub fn shape(&self) -> ShapeId
        ensures shape { result.0 ≡ self.now.shape }
    {
        self.shape
    }

    /// The value, which fits the shape.
    pub fn value(&self) -> &Value
        ensures value { view result.now ≡ self.now.value }
    {
        &self.value
    }

    /// The value alone.
    pub fn into_value(self) -> Value
        ensures value { view result ≡ self.value }
    {
        let Shaped { value, .. } = self;
        value
    }
}
