//! Shapes of which nothing is said but what their types say: a line for each type of a table.
ghost use Rattle.std.specs.Prelude.{◌≡◌, IfOk, Some};
ghost use Rattle.fr_shape.specs.Describing.{scalar_name, scalar_shape, opaque_shape, struct_shape, struct_with, tuple_shape, enum_shape, option_shape, result_shape, list_shape, map_shape, set_shape, array_shape, box_shape, dynamic_shape, named_fields, numbered_fields, variant_kind, numbered_variants};
ghost use Rattle.fr_shape.specs.Plain.{plain_field, plain_shape};

use crate::{
    Def, DefaultSource, EnumDef, EnumRepr, Field, Items, KnownPointer, OutOfMemory, PointerDef,
    ScalarKind, Shape, ShapeId, StructDef, StructKind, Template, Text, Value, VariantDef,
};
use std::alloc::Global;

impl Shape {
    /// A scalar, under its name in Rust.
    pub fn scalar(alloc: Global, kind: ScalarKind) -> Result<Shape, OutOfMemory>
        ensures described { IfOk result (λ shape. shape ≡ scalar_shape kind) }
    {
        named(alloc, scalar_name(kind), Def::Scalar(kind))
    }

    /// A type that the library can't see into.
    pub fn opaque(alloc: Global, name: &str) -> Result<Shape, OutOfMemory>
        ensures described { IfOk result (λ shape. shape ≡ opaque_shape name.now) }
    {
        named(alloc, name, Def::Opaque)
    }

    /// A struct of these fields, each a name and the shape of its values.
    pub fn struct_of(
        alloc: Global,
        name: &str,
        fields: &[(&str, ShapeId)],
    ) -> Result<Shape, OutOfMemory>
        ensures described { IfOk result (λ shape. shape ≡ struct_shape name.now fields.now) }
    {
        Shape::struct_with(alloc, name, named_fields(alloc, fields)?)
    }

    /// A struct of these fields, whatever is said of each: so fields with defaults are made in code.
    pub fn struct_with(
        alloc: Global,
        name: &str,
        fields: Items<Field>,
    ) -> Result<Shape, OutOfMemory>
        ensures described { IfOk result (λ shape. shape ≡ struct_with name.now fields) }
    {
        let kind = StructKind::Struct;
        named(alloc, name, Def::Struct(StructDef { kind, fields }))
    }

    /// A bare tuple. Its fields are named by their numbers, counted from 0.
    pub fn tuple_of(alloc: Global, name: &str, shapes: &[ShapeId]) -> Result<Shape, OutOfMemory>
        ensures described { IfOk result (λ shape. shape ≡ tuple_shape name.now shapes.now) }
    {
        let kind = StructKind::Tuple;
        let fields = numbered_fields(alloc, shapes)?;
        named(alloc, name, Def::Struct(StructDef { kind, fields }))
    }

    /// An enum of these variants, each a name and its named fields. Discriminants are 0, 1 and so
    /// on; a variant without fields is a unit.
    pub fn enum_of(
        alloc: Global,
        name: &str,
        repr: EnumRepr,
        variants: &[(&str, &[(&str, ShapeId)])],
    ) -> Result<Shape, OutOfMemory>
        ensures described { IfOk result (λ shape. shape ≡ enum_shape name.now repr variants.now) }
    {
        let variants = numbered_variants(alloc, variants)?;
        named(alloc, name, Def::Enum(EnumDef { repr, variants }))
    }

    /// An option, whose default is None.
    pub fn option_of(alloc: Global, name: &str, content: ShapeId) -> Result<Shape, OutOfMemory>
        ensures described { IfOk result (λ shape. shape ≡ option_shape name.now content) }
    {
        let shape = named(alloc, name, Def::Option(content))?;
        Ok(shape.with_preset(Template::new(Value::None)))
    }

    /// A result: a value of the first shape, or an error of the second.
    pub fn result_of(
        alloc: Global,
        name: &str,
        value: ShapeId,
        error: ShapeId,
    ) -> Result<Shape, OutOfMemory>
        ensures described { IfOk result (λ shape. shape ≡ result_shape name.now value error) }
    {
        named(alloc, name, Def::Result(value, error))
    }

    /// A list of values of this shape.
    pub fn list_of(alloc: Global, name: &str, element: ShapeId) -> Result<Shape, OutOfMemory>
        ensures described { IfOk result (λ shape. shape ≡ list_shape name.now element) }
    {
        named(alloc, name, Def::List(element))
    }

    /// A map from keys of the first shape to values of the second.
    pub fn map_of(
        alloc: Global,
        name: &str,
        key: ShapeId,
        value: ShapeId,
    ) -> Result<Shape, OutOfMemory>
        ensures described { IfOk result (λ shape. shape ≡ map_shape name.now key value) }
    {
        named(alloc, name, Def::Map(key, value))
    }

    /// A set of values of this shape.
    pub fn set_of(alloc: Global, name: &str, element: ShapeId) -> Result<Shape, OutOfMemory>
        ensures described { IfOk result (λ shape. shape ≡ set_shape name.now element) }
    {
        named(alloc, name, Def::Set(element))
    }

    /// An array of so many values of this shape.
    pub fn array_of(
        alloc: Global,
        name: &str,
        element: ShapeId,
        len: u32,
    ) -> Result<Shape, OutOfMemory>
        ensures described { IfOk result (λ shape. shape ≡ array_shape name.now element len) }
    {
        named(alloc, name, Def::Array(element, len))
    }

    /// A `Box` of a value of this shape. It can be made from what it points to.
    pub fn box_of(alloc: Global, name: &str, pointee: ShapeId) -> Result<Shape, OutOfMemory>
        ensures described { IfOk result (λ shape. shape ≡ box_shape name.now pointee) }
    {
        let pointer = PointerDef {
            known: Some(KnownPointer::Box),
            pointee: Some(pointee),
            constructible: true,
        };
        named(alloc, name, Def::Pointer(pointer))
    }

    /// Data whose kind is known only at run time. It takes no lists of bytes.
    pub fn dynamic(alloc: Global, name: &str) -> Result<Shape, OutOfMemory>
        ensures described { IfOk result (λ shape. shape ≡ dynamic_shape name.now) }
    {
        named(alloc, name, Def::Dynamic)
    }

    /// The same shape with this default.
    pub fn with_preset(self, preset: Template) -> Shape
        ensures preset { result ≡ record self { preset = Some preset } }
    {
        let mut shape = self;
        shape.preset = Some(preset);
        shape
    }
}

impl Field {
    /// A field of this name and shape, of which nothing else is said.
    pub fn of(alloc: Global, name: &str, shape: ShapeId) -> Result<Field, OutOfMemory>
        ensures described { IfOk result (λ field. field ≡ plain_field name.now shape.0) }
    {
        Ok(Field::new(alloc, Text::new(alloc, name)?, shape))
    }

    /// The same field, marked with this default.
    pub fn with_default(self, default: DefaultSource) -> Field
        ensures default { result ≡ record self { default = Some default } }
    {
        let mut field = self;
        field.default = Some(default);
        field
    }
}

/// A shape of this name and definition alone.
fn named(alloc: Global, name: &str, def: Def) -> Result<Shape, OutOfMemory>
    ensures { IfOk result (λ shape. shape ≡ plain_shape name.now def) }
{
    Ok(Shape::new(alloc, Text::new(alloc, name)?, def))
}

fn scalar_name(kind: ScalarKind) -> &'static str
    ensures { result.now ≡ scalar_name kind }
{
    match kind {
        ScalarKind::Bool => "bool",
        ScalarKind::Char => "char",
        ScalarKind::I8 => "i8",
        ScalarKind::I16 => "i16",
        ScalarKind::I32 => "i32",
        ScalarKind::I64 => "i64",
        ScalarKind::I128 => "i128",
        ScalarKind::ISize => "isize",
        ScalarKind::U8 => "u8",
        ScalarKind::U16 => "u16",
        ScalarKind::U32 => "u32",
        ScalarKind::U64 => "u64",
        ScalarKind::U128 => "u128",
        ScalarKind::USize => "usize",
        ScalarKind::String => "String",
        ScalarKind::CowStr => "Cow<str>",
    }
}

fn named_fields(alloc: Global, fields: &[(&str, ShapeId)]) -> Result<Items<Field>, OutOfMemory>
    ensures { IfOk result (λ made. made ≡ named_fields fields.now) }
{
    let mut made = Items::new(alloc);
    for (name, shape) in fields {
        made.push(Field::of(alloc, *name, *shape)?)?;
    }
    Ok(made)
}

fn numbered_fields(alloc: Global, shapes: &[ShapeId]) -> Result<Items<Field>, OutOfMemory>
    ensures { IfOk result (λ made. made ≡ numbered_fields 0 shapes.now) }
{
    let mut made = Items::new(alloc);
    for (i, shape) in shapes.iter().enumerate() {
        let name = format!(in alloc; "{i}")?;
        made.push(Field::of(alloc, name.as_str(), *shape)?)?;
    }
    Ok(made)
}

fn variant_kind(fields: &[(&str, ShapeId)]) -> StructKind
    ensures { result ≡ variant_kind fields.now }
{
    if fields.is_empty() {
        StructKind::Unit
    } else {
        StructKind::Struct
    }
}

fn numbered_variants(
    alloc: Global,
    variants: &[(&str, &[(&str, ShapeId)])],
) -> Result<Items<VariantDef>, OutOfMemory>
    ensures { IfOk result (λ made. made ≡ numbered_variants 0 variants.now) }
{
    let mut made = Items::new(alloc);
    for (i, (name, fields)) in variants.iter().enumerate() {
        made.push(VariantDef {
            name: Text::new(alloc, *name)?,
            rename: None,
            kind: variant_kind(*fields),
            fields: named_fields(alloc, *fields)?,
            discriminant: Some(i as i64),
            other: false,
        })?;
    }
    Ok(made)
}
