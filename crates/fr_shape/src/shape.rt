//! The description of one type: its definition and what its author said of it.
ghost use Rattle.std.specs.Prelude.{◌≡◌};
ghost use Rattle.fr_shape.specs.Fills.{is_empty_struct};
ghost use Rattle.fr_shape.specs.Named.{effective_name};
ghost use Rattle.fr_shape.specs.Plain.{plain_shape, plain_field};

use crate::{Items, Template, Text};
use std::alloc::Global;

/// The number of a shape in its table.
#[derive(Clone, Copy, PartialEq, Eq)]
pub struct ShapeId(pub u32);

/// The number of a hook, which a `Hooks` gives its meaning.
#[derive(Clone, Copy, PartialEq, Eq)]
pub struct HookId(pub u32);

/// A field of a struct or of an enum's variant.
#[derive(Clone, Copy, PartialEq, Eq)]
pub struct FieldRef {
    /// The struct or the enum.
    pub shape: ShapeId,
    /// The number of the variant, counted from 0; None for a struct.
    pub variant: Option<u32>,
    /// The number of the field in the struct or the variant, counted from 0.
    pub index: u32,
}

/// One type.
#[derive(Drop)]
pub struct Shape {
    /// The type's name. No two shapes of a checked table have the same.
    pub name: Text,
    /// What its values are made of.
    pub def: Def,
    /// The template of its default. A shape has a default exactly where this is given.
    pub preset: Option<Template>,
    /// Whether each field that deferred mode leaves unset takes the default of the field's shape,
    /// if there is one.
    pub default_attr: bool,
    /// The shape that it wraps. An `Other` stands for what it wraps; a scalar or an option may be
    /// converted from it.
    pub inner: Option<ShapeId>,
    /// The shape that an opaque or undefined shape is converted from.
    pub builder: Option<ShapeId>,
    /// The hook that converts from `inner` or `builder`.
    pub convert: Option<HookId>,
    /// The hook that parses a text.
    pub parse: Option<HookId>,
    /// The hook that parses bytes.
    pub parse_bytes: Option<HookId>,
    /// A stand-in from which a value is converted, for each format that has none of its own.
    pub proxy: Option<ProxyDef>,
    /// Stand-ins for single formats.
    pub format_proxies: Items<FormatProxy>,
    /// The hook that a value has to pass once it is whole.
    pub invariant: Option<HookId>,
    /// Whether it has metadata beside what it wraps. Such an `Other` is planned without a
    /// conversion or a proxy.
    pub metadata: bool,
    /// Whether a format is to refuse names that no field has.
    pub deny_unknown: bool,
    /// Whether a format is to write it as what it wraps.
    pub transparent: bool,
    /// Whether, being dynamic, it takes lists of bytes.
    pub bytes_ok: bool,
}

impl Shape {
    /// A shape of which nothing else is said. Takes no memory.
    pub fn new(alloc: Global, name: Text, def: Def) -> Shape
        ensures plain { result ≡ plain_shape name def }
    {
        Shape {
            name,
            def,
            preset: None,
            default_attr: false,
            inner: None,
            builder: None,
            convert: None,
            parse: None,
            parse_bytes: None,
            proxy: None,
            format_proxies: Items::new(alloc),
            invariant: None,
            metadata: false,
            deny_unknown: false,
            transparent: false,
            bytes_ok: false,
        }
    }
}

/// What values of a shape are made of.
#[derive(Drop)]
pub enum Def {
    /// A boolean, a character, an integer or an owned text.
    Scalar(ScalarKind),
    /// A text without a size; it stands only behind a pointer.
    Str,
    /// A type that the library can't see into: its values are tokens.
    Opaque,
    /// One value for each field.
    Struct(StructDef),
    /// One of several variants, with a value for each of its fields.
    Enum(EnumDef),
    /// None, or a value of this shape.
    Option(ShapeId),
    /// A value of the first shape, or an error of the second.
    Result(ShapeId, ShapeId),
    /// Any number of values of this shape.
    List(ShapeId),
    /// Entries, each a key of the first shape and a value of the second. No two keys are the same.
    Map(ShapeId, ShapeId),
    /// Values of this shape, no two of them the same.
    Set(ShapeId),
    /// As many values of this shape as the number says.
    Array(ShapeId, u32),
    /// A value behind a pointer, or a token where it isn't known what the pointer points to.
    Pointer(PointerDef),
    /// As a list, without a size; it stands only behind a pointer.
    Slice(ShapeId),
    /// Data whose kind is known only at run time, as that of JSON.
    Dynamic,
    /// A type whose description was never made: its values are tokens.
    Undefined,
    /// Whatever `inner` is; where it wraps nothing, no value fits.
    Other,
}

impl Def {
    /// Whether it is a struct without fields, of whatever kind.
    pub fn is_empty_struct(&self) -> bool
        ensures empty { result ≡ is_empty_struct self.now }
    {
        match self {
            Def::Struct(described) => described.fields.is_empty(),
            _ => false,
        }
    }
}

/// The scalars. `ISize` and `USize` have 64 bits.
#[derive(Clone, Copy, PartialEq, Eq)]
pub enum ScalarKind {
    Bool,
    Char,
    I8,
    I16,
    I32,
    I64,
    I128,
    ISize,
    U8,
    U16,
    U32,
    U64,
    U128,
    USize,
    String,
    CowStr,
}

/// A struct. Fields are told by their numbers in this order, counted from 0.
#[derive(Drop)]
pub struct StructDef {
    pub kind: StructKind,
    pub fields: Items<Field>,
}

/// How a struct or a variant is written: with named fields, as a bare tuple, as a named tuple, or
/// without fields.
#[derive(Clone, Copy, PartialEq, Eq)]
pub enum StructKind {
    Struct,
    Tuple,
    TupleStruct,
    Unit,
}

/// An enum. Variants are told by their numbers in this order, counted from 0.
#[derive(Drop)]
pub struct EnumDef {
    pub repr: EnumRepr,
    /// In a checked table no two have the same effective name.
    pub variants: Items<VariantDef>,
}

/// The type in which an enum keeps its discriminant. The first two are Rust's own choice, `RustNPO`
/// with the null pointer standing for the empty variant.
#[derive(Clone, Copy, PartialEq, Eq)]
pub enum EnumRepr {
    Rust,
    RustNPO,
    U8,
    U16,
    U32,
    U64,
    USize,
    I8,
    I16,
    I32,
    I64,
    ISize,
}

/// A variant of an enum.
#[derive(Drop)]
pub struct VariantDef {
    /// The name that it was declared with.
    pub name: Text,
    /// The name that it goes by instead.
    pub rename: Option<Text>,
    /// How its fields are written.
    pub kind: StructKind,
    /// Told by their numbers in this order, counted from 0.
    pub fields: Items<Field>,
    /// The number by which the enum's memory tells it from the others.
    pub discriminant: Option<i64>,
    /// Whether it takes what no other variant does; then it is never found by its name.
    pub other: bool,
}

impl VariantDef {
    /// `rename` where given, else `name`.
    pub fn effective_name(&self) -> &Text
        ensures name { result.now ≡ effective_name self.now.rename self.now.name }
    {
        match &self.rename {
            Some(rename) => rename,
            None => &self.name,
        }
    }
}

/// A field of a struct or a variant.
#[derive(Drop)]
pub struct Field {
    /// The name that it was declared with.
    pub name: Text,
    /// The name that it goes by instead.
    pub rename: Option<Text>,
    /// A further name by which it is found.
    pub alias: Option<Text>,
    /// The shape of its values.
    pub shape: ShapeId,
    /// Where its default comes from. A field with one is marked.
    pub default: Option<DefaultSource>,
    /// Whether a format is to leave it out. In strict mode, left unset, it takes the default of its
    /// shape, if there is one.
    pub skip: bool,
    /// Whether a format is to write its fields among those of its container.
    pub flatten: bool,
    /// A stand-in from which a value is converted, for each format that has none of its own; it
    /// goes before its shape's.
    pub proxy: Option<ProxyDef>,
    /// Stand-ins for single formats; they go before its shape's.
    pub format_proxies: Items<FormatProxy>,
    /// What its value has to pass, in this order.
    pub validators: Items<ValidatorDef>,
}

impl Field {
    /// A field of which nothing else is said. Takes no memory.
    pub fn new(alloc: Global, name: Text, shape: ShapeId) -> Field
        ensures plain { result ≡ plain_field name shape.0 }
    {
        Field {
            name,
            rename: None,
            alias: None,
            shape,
            default: None,
            skip: false,
            flatten: false,
            proxy: None,
            format_proxies: Items::new(alloc),
            validators: Items::new(alloc),
        }
    }

    /// `rename` where given, else `name`.
    pub fn effective_name(&self) -> &Text
        ensures name { result.now ≡ effective_name self.now.rename self.now.name }
    {
        match &self.rename {
            Some(rename) => rename,
            None => &self.name,
        }
    }
}

/// Where a marked field's default comes from.
#[derive(Drop)]
pub enum DefaultSource {
    /// A template of the field's own.
    Custom(Template),
    /// The preset of the field's shape.
    FromTrait,
}

/// A stand-in shape whose values a hook converts.
#[derive(Drop)]
pub struct ProxyDef {
    /// The stand-in.
    pub source: ShapeId,
    /// The hook that makes a value of the shape from one of the stand-in.
    pub convert: HookId,
}

/// A stand-in for one format alone.
#[derive(Drop)]
pub struct FormatProxy {
    /// The name of the format.
    pub format: Text,
    pub proxy: ProxyDef,
}

/// A test of a field's value. In a checked table `Min` and `Max` stand on integers alone, and those
/// between them and `Custom` on texts alone. A test that has nothing to compare passes.
#[derive(Drop)]
pub enum ValidatorDef {
    /// The hook's test.
    Custom(HookId),
    /// At least this. Compared are i8 to i64 and u8 to u64; every value of another kind passes
    /// (i128, isize, u128 and usize). A u64 above the largest i64 passes.
    Min(i64),
    /// At most this, of the same kinds as `Min`. A u64 above the largest i64 fails.
    Max(i64),
    /// At least so many bytes.
    MinLength(u64),
    /// At most so many bytes.
    MaxLength(u64),
    /// Begins with `http://` or `https://`; nothing else of it is looked at.
    Url,
    /// Has this text somewhere in it. The text is no pattern.
    Regex(Text),
    /// Has this text somewhere in it.
    Contains(Text),
}

/// A pointer. Only a `constructible` one with a pointee can be built from what it points to.
#[derive(Drop)]
pub struct PointerDef {
    /// Which pointer it is, of those known by name.
    pub known: Option<KnownPointer>,
    /// The shape of what it points to, which may be unsized.
    pub pointee: Option<ShapeId>,
    /// Whether it can be made from what it points to.
    pub constructible: bool,
}

/// The pointer types that are known by name.
#[derive(Clone, Copy, PartialEq, Eq)]
pub enum KnownPointer {
    Box,
    Arc,
    Rc,
    SharedReference,
}
