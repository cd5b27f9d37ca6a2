//! The nine rules of a checked table, each at one entry.
ghost use Rattle.std.specs.Prelude.{◌≡◌, ◌&&◌, ◌≤◌, length, not};
ghost use Rattle.std.specs.List.{list_all, list_any};
ghost use Rattle.std.specs.Str.{bytes_eq};
ghost use Rattle.fr_shape.specs.Checked.{parts_of, pointees_of, all_proxies_of, names_apart, variant_names, converts, may_have_builder, ids_in_range, name_is_new, parts_are_sized, variants_apart, validators_suit, templates_fit, conversion_suits, hooks_in_range, option_preset_is_none};
ghost use Rattle.fr_shape.specs.Tests.{part_passes, proxy_passes};

use crate::names::names_apart;
use crate::parts::{
    FieldTest, PartTest, ProxyTest, contents_pass, fields_pass, hook_passes, is_template,
    option_passes, proxies_pass,
};
use crate::{Def, Shape, ShapeId, ShapeTable, Value};

/// The proxies of a shape and of its fields.
#[tactic(auto, using(crate::proofs::Faults::proxies_split))]
fn all_proxies_pass(table: &ShapeTable, test: ProxyTest, shape: &Shape) -> bool
    ensures { result ≡ list_all (proxy_passes table.now test) (all_proxies_of shape.now) }
{
    proxies_pass(table, test, &shape.proxy, &shape.format_proxies)
        && fields_pass(table, FieldTest::Proxies(test), &shape.def)
}

/// All shapes that an entry names, but for a pointee.
#[tactic(auto, using(crate::proofs::Faults::parts_split))]
fn parts_pass(table: &ShapeTable, test: PartTest, shape: &Shape) -> bool
    ensures { result ≡ list_all (part_passes table.now test) (parts_of shape.now) }
{
    fields_pass(table, FieldTest::Shape(test), &shape.def)
        && contents_pass(table, test, &shape.def)
        && option_passes(table, test, shape.inner)
        && option_passes(table, test, shape.builder)
        && all_proxies_pass(table, ProxyTest::Source(test), shape)
}

fn pointee_passes(table: &ShapeTable, test: PartTest, def: &Def) -> bool
    ensures { result ≡ list_all (part_passes table.now test) (pointees_of def.now) }
{
    match def {
        Def::Pointer(pointer) => option_passes(table, test, pointer.pointee),
        Def::Scalar(_)
        | Def::Str
        | Def::Opaque
        | Def::Struct(_)
        | Def::Enum(_)
        | Def::Option(_)
        | Def::Result(_, _)
        | Def::List(_)
        | Def::Map(_, _)
        | Def::Set(_)
        | Def::Array(_, _)
        | Def::Slice(_)
        | Def::Dynamic
        | Def::Undefined
        | Def::Other => true,
    }
}

#[tactic(auto, using(crate::proofs::Faults::ids_split))]
pub(crate) fn ids_in_range(table: &ShapeTable, shape: &Shape) -> bool
    ensures { result ≡ ids_in_range table.now shape.now }
{
    parts_pass(table, PartTest::InRange, shape)
        && pointee_passes(table, PartTest::InRange, &shape.def)
}

pub(crate) fn name_is_new(earlier: &[Shape], shape: &Shape) -> bool
    ensures { result ≡ not (list_any (λ e. bytes_eq e.name shape.now.name) earlier.now) }
{
    for other in earlier {
        if other.name == shape.name {
            return false;
        }
    }
    true
}

pub(crate) fn parts_are_sized(table: &ShapeTable, shape: &Shape) -> bool
    ensures { result ≡ parts_are_sized table.now shape.now }
{
    parts_pass(table, PartTest::Sized, shape)
}

pub(crate) fn variants_apart(shape: &Shape) -> bool
    ensures { result ≡ variants_apart shape.now }
{
    match &shape.def {
        Def::Enum(described) => names_apart(&described.variants),
        _ => true,
    }
}

pub(crate) fn validators_suit(table: &ShapeTable, shape: &Shape) -> bool
    ensures { result ≡ validators_suit table.now shape.now }
{
    fields_pass(table, FieldTest::Validators, &shape.def)
}

pub(crate) fn templates_fit(table: &ShapeTable, id: ShapeId, shape: &Shape) -> bool
    ensures { result ≡ templates_fit table.now id.0 shape.now }
{
    let preset_fits = match &shape.preset {
        Some(preset) => is_template(table, id, preset),
        None => true,
    };
    preset_fits && fields_pass(table, FieldTest::Default, &shape.def)
}

fn converts(shape: &Shape) -> bool
    ensures { result ≡ converts shape.now.def shape.now.inner shape.now.builder }
{
    match &shape.def {
        Def::Scalar(_) | Def::Other => shape.inner.is_some(),
        Def::Option(t) => match shape.inner {
            Some(wrapped) => wrapped.0 == t.0,
            None => false,
        },
        Def::Opaque | Def::Undefined => shape.builder.is_some(),
        Def::Str
        | Def::Struct(_)
        | Def::Enum(_)
        | Def::Result(_, _)
        | Def::List(_)
        | Def::Map(_, _)
        | Def::Set(_)
        | Def::Array(_, _)
        | Def::Pointer(_)
        | Def::Slice(_)
        | Def::Dynamic => false,
    }
}

fn may_have_builder(def: &Def) -> bool
    ensures { result ≡ may_have_builder def.now }
{
    match def {
        Def::Opaque | Def::Undefined => true,
        Def::Scalar(_)
        | Def::Str
        | Def::Struct(_)
        | Def::Enum(_)
        | Def::Option(_)
        | Def::Result(_, _)
        | Def::List(_)
        | Def::Map(_, _)
        | Def::Set(_)
        | Def::Array(_, _)
        | Def::Pointer(_)
        | Def::Slice(_)
        | Def::Dynamic
        | Def::Other => false,
    }
}

pub(crate) fn conversion_suits(shape: &Shape) -> bool
    ensures { result ≡ conversion_suits shape.now }
{
    (shape.convert.is_none() || converts(shape))
        && (shape.builder.is_none() || may_have_builder(&shape.def))
}

#[tactic(auto, using(crate::proofs::Faults::hooks_split))]
pub(crate) fn hooks_in_range(table: &ShapeTable, shape: &Shape) -> bool
    ensures { result ≡ hooks_in_range shape.now }
{
    hook_passes(shape.convert)
        && hook_passes(shape.parse)
        && hook_passes(shape.parse_bytes)
        && hook_passes(shape.invariant)
        && all_proxies_pass(table, ProxyTest::Hook, shape)
        && fields_pass(table, FieldTest::CustomHooks, &shape.def)
}

pub(crate) fn option_preset_is_none(shape: &Shape) -> bool
    ensures { result ≡ option_preset_is_none shape.now }
{
    match (&shape.def, &shape.preset) {
        (Def::Option(_), Some(preset)) => matches!(preset.value(), Value::None),
        _ => true,
    }
}
