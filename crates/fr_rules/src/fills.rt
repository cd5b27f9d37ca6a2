//! What the holes of a struct or variant are filled with when it is completed.
ghost use Rattle.std.specs.Prelude.{◌≡◌, IsSome, IfSome};
ghost use Rattle.std.specs.Option.{option_copied};
ghost use Rattle.fr_shape.specs.Look.{field_at};
ghost use Rattle.fr_shape.specs.Fills.{has_default, has_default_attr, is_option, is_unit, is_collection, takes_shape_default, takes_deferred_default, is_of_variant, strict_rule_of, deferred_rule_of};
ghost use Rattle.fr_rules.specs.FillRules.{told_strict, told_deferred, template_meant};

use fr_shape::{Def, DefaultSource, Field, FieldRef, ShapeId, ShapeTable, StructKind, Template};

/// What a strict completion does with a hole.
#[derive(Clone, Copy, PartialEq, Eq)]
pub enum FillRule {
    /// The hole takes this default, where there is one.
    Defaultable(FieldDefault),
    /// The caller has to fill the field.
    Required,
}

/// Where a default is found.
#[derive(Clone, Copy, PartialEq, Eq)]
pub enum FieldDefault {
    /// At this field, which is marked with a template of its own.
    Custom(FieldRef),
    /// At the field's shape, which this is: its preset.
    FromTrait(ShapeId),
}

impl FieldDefault {
    /// The template that is meant. There is none where the field is marked with none of its own or
    /// the shape has no default, or where there is no such field or shape.
    pub fn template<'a>(self, table: &'a ShapeTable) -> Option<&'a Template>
        ensures meant { option_copied result ≡ template_meant table.now self }
    {
        match self {
            FieldDefault::Custom(field) => match &table.field(field)?.default {
                Some(DefaultSource::Custom(template)) => Some(template),
                Some(DefaultSource::FromTrait) | None => None,
            },
            FieldDefault::FromTrait(shape) => table.preset(shape),
        }
    }
}

/// What the end of deferred mode does with a hole.
#[derive(Drop)]
pub enum DeferredFill {
    /// The hole takes this default.
    Template(FieldDefault),
    /// The field is marked as taking its shape's default, and the shape has none.
    MarkedWithoutDefault,
    /// Nothing fills the field.
    Missing,
}

/// The rule of a field's hole in strict mode. A field that is marked as taking its shape's default
/// is never required, though its shape may have none.
pub fn determine_fill_rule(table: &ShapeTable, field: FieldRef) -> FillRule
    requires there { IsSome (field_at table.now field) }
    ensures rule { IfSome (field_at table.now field) (λ found. result
        ≡ told_strict field found (strict_rule_of table.now field found)) }
{
    let found = table.field(field).unwrap();
    match &found.default {
        Some(DefaultSource::Custom(_)) => FillRule::Defaultable(FieldDefault::Custom(field)),
        Some(DefaultSource::FromTrait) => {
            FillRule::Defaultable(FieldDefault::FromTrait(found.shape))
        }
        None if takes_shape_default(table, field, found) => {
            FillRule::Defaultable(FieldDefault::FromTrait(found.shape))
        }
        None => FillRule::Required,
    }
}

/// The rule of a field's hole at the end of deferred mode.
pub fn deferred_fill(table: &ShapeTable, field: FieldRef) -> DeferredFill
    requires there { IsSome (field_at table.now field) }
    ensures rule { IfSome (field_at table.now field) (λ found. result
        ≡ told_deferred field found (deferred_rule_of table.now field found)) }
{
    let found = table.field(field).unwrap();
    match &found.default {
        Some(DefaultSource::Custom(_)) => DeferredFill::Template(FieldDefault::Custom(field)),
        Some(DefaultSource::FromTrait) if has_default(table, found.shape) => {
            DeferredFill::Template(FieldDefault::FromTrait(found.shape))
        }
        Some(DefaultSource::FromTrait) => DeferredFill::MarkedWithoutDefault,
        None if takes_deferred_default(table, field.shape, found) => {
            DeferredFill::Template(FieldDefault::FromTrait(found.shape))
        }
        None => DeferredFill::Missing,
    }
}

/// Whether a field that isn't marked takes its shape's default in strict mode.
fn takes_shape_default(table: &ShapeTable, field: FieldRef, found: &Field) -> bool
    ensures { result ≡ takes_shape_default table.now field.shape.0 (is_of_variant field) found.now }
{
    let Some(shape) = table.get(found.shape) else {
        return false;
    };
    shape.preset.is_some()
        && (is_option(&shape.def)
            || found.skip
            || shape.def.is_empty_struct()
            || (has_default(table, field.shape) && field.variant.is_none()))
}

/// The same at the end of deferred mode.
fn takes_deferred_default(table: &ShapeTable, container: ShapeId, found: &Field) -> bool
    ensures { result ≡ takes_deferred_default table.now container.0 found.now }
{
    let Some(shape) = table.get(found.shape) else {
        return false;
    };
    shape.preset.is_some()
        && (has_default_attr(table, container)
            || is_option(&shape.def)
            || is_unit(&shape.def)
            || is_collection(&shape.def))
}

fn has_default(table: &ShapeTable, id: ShapeId) -> bool
    ensures { result ≡ has_default table.now id.0 }
{
    table.preset(id).is_some()
}

fn has_default_attr(table: &ShapeTable, id: ShapeId) -> bool
    ensures { result ≡ has_default_attr table.now id.0 }
{
    match table.get(id) {
        Some(shape) => shape.default_attr,
        None => false,
    }
}

fn is_option(def: &Def) -> bool
    ensures { result ≡ is_option def.now }
{
    matches!(def, Def::Option(_))
}

fn is_unit(def: &Def) -> bool
    ensures { result ≡ is_unit def.now }
{
    match def {
        Def::Struct(described) => {
            described.kind == StructKind::Tuple && described.fields.is_empty()
        }
        _ => false,
    }
}

fn is_collection(def: &Def) -> bool
    ensures { result ≡ is_collection def.now }
{
    match def {
        Def::List(_) | Def::Map(..) | Def::Set(_) => true,
        Def::Scalar(_) | Def::Str | Def::Opaque | Def::Dynamic | Def::Undefined | Def::Other =>
            false,
        Def::Struct(_) | Def::Enum(_) | Def::Option(_) | Def::Result(..) => false,
        Def::Array(..) | Def::Slice(_) | Def::Pointer(_) => false,
    }
}
