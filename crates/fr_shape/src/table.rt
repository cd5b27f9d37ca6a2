//! The table of all shapes, which ids are numbers in.
ghost use Rattle.std.specs.Prelude.{◌≡◌, ◌↔◌, ◌≤◌, length, slice_get, IsNone, OnSome};
ghost use Rattle.std.specs.List.{find};
ghost use Rattle.std.specs.Option.{option_copied};
ghost use Rattle.std.specs.Str.{bytes_eq};
ghost use Rattle.fr_shape.specs.Fills.{preset_of};
ghost use Rattle.fr_shape.specs.Look.{field_at};
ghost use Rattle.fr_shape.specs.Named.{named_field};

use crate::{Def, Field, FieldRef, Items, Shape, ShapeId, Template};
use std::alloc::Global;
use std::marker::Model;

/// A table of shapes. Contracts see the list of them.
#[derive(Drop)]
pub struct ShapeTable {
    shapes: Items<Shape>,
}

impl Model for ShapeTable {
    ghost use Rattle.std.specs.Prelude.{List};
    ghost use Rattle.std.specs.Coded.{coded_list};
    ghost use Rattle.fr_shape.specs.declared.shape.Shape.{Shape};
    ghost use Rattle.fr_shape.specs.contracts.shape.Shape as shape;

    ghost Value = { List Shape };

    ghost coded = { coded_list shape.the_row.coded };

    ghost view = { λ t. t.shapes };
}

impl ShapeTable {
    /// The table of these shapes. Takes no memory; `alloc` is what later calls would allocate from.
    pub fn new(_alloc: Global, shapes: Items<Shape>) -> ShapeTable
        ensures shapes { result ≡ shapes }
    {
        ShapeTable { shapes }
    }

    /// How many shapes there are.
    pub fn len(&self) -> usize
        ensures count { result ≡ length self.now }
    {
        self.shapes.len()
    }

    /// The shape of this number.
    pub fn get(&self, id: ShapeId) -> Option<&Shape>
        ensures value { option_copied result ≡ slice_get self.now id.0 }
        ensures none { IsNone result ↔ (length self.now ≤ id.0) }
    {
        self.shapes.get(id.0 as usize)
    }

    /// All shapes, in the order of their numbers.
    pub fn as_slice(&self) -> &[Shape]
        ensures shapes { result.now ≡ self.now }
    {
        self.shapes.as_slice()
    }

    pub(crate) fn shapes(&self) -> &Items<Shape>
        ensures { result.now ≡ self.now }
    {
        &self.shapes
    }

    /// The template of a shape's default, if it has one.
    pub fn preset(&self, id: ShapeId) -> Option<&Template>
        ensures template { option_copied result ≡ preset_of self.now id.0 }
    {
        self.get(id)?.preset.as_ref()
    }

    /// The field meant, of a struct or of a variant.
    pub fn field(&self, f: FieldRef) -> Option<&Field>
        ensures field { option_copied result ≡ field_at self.now f }
    {
        let shape = self.get(f.shape)?;
        match (&shape.def, f.variant) {
            (Def::Struct(described), None) => described.fields.get(f.index as usize),
            (Def::Enum(described), Some(variant)) => {
                described
                    .variants
                    .get(variant as usize)?
                    .fields
                    .get(f.index as usize)
            }
            (Def::Struct(_), Some(_)) | (Def::Enum(_), None) => None,
            (
                Def::Scalar(_)
                | Def::Str
                | Def::Opaque
                | Def::Option(_)
                | Def::Result(_, _)
                | Def::List(_)
                | Def::Map(_, _)
                | Def::Set(_)
                | Def::Array(_, _)
                | Def::Pointer(_)
                | Def::Slice(_)
                | Def::Dynamic
                | Def::Undefined
                | Def::Other,
                _,
            ) => None,
        }
    }

    /// A struct's field by the name that it was declared with: the one that `begin_field` of the
    /// name enters. No field is found by its `rename` or `alias`.
    pub fn field_named(&self, shape: ShapeId, name: &str) -> Option<&Field>
        ensures field { option_copied result ≡ named_field self.now shape.0 name.now }
    {
        let Def::Struct(described) = &self.get(shape)?.def else {
            return None;
        };
        first_declared(described.fields.as_slice(), name)
    }
}

/// The first field that is declared under this name.
fn first_declared<'a>(fields: &'a [Field], name: &str) -> Option<&'a Field>
    ensures { option_copied result ≡ find (λ field. bytes_eq field.name name.now) fields.now }
{
    fields.iter().find(|field| field.name.as_str() == name)
}
