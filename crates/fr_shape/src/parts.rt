//! Tests of what an entry of a table names: shapes, proxies, hooks and fields.
ghost use Rattle.std.specs.Prelude.{◌≡◌, ◌&&◌, ◌||◌, Bool, [], ◌∷◌, is_some};
ghost use Rattle.std.specs.List.{list_all};
ghost use Rattle.std.specs.Prelude.{option_to_list};
ghost use Rattle.fr_shape.specs.Look.{def_of};
ghost use Rattle.fr_shape.specs.Fits.{signed_bits, unsigned_bits};
ghost use Rattle.fr_shape.specs.Checked.{is_sized, is_integer, is_string, suits, proxies_of, fields_of, contents_of, custom_hooks, is_template, default_is_template};
ghost use Rattle.fr_shape.specs.Tests.{part_passes, hook_passes, proxy_passes, field_passes};

use crate::scalars::is_text_kind;
use crate::{
    Def, DefaultSource, Field, FormatProxy, HookId, Items, ProxyDef, ScalarKind, ShapeId,
    ShapeTable, Template, ValidatorDef, Value, fits,
};

#[derive(Clone, Copy)]
pub(crate) enum PartTest {
    InRange,
    Sized,
}

#[derive(Clone, Copy)]
pub(crate) enum ProxyTest {
    Source(PartTest),
    Hook,
}

#[derive(Clone, Copy)]
pub(crate) enum FieldTest {
    Shape(PartTest),
    Proxies(ProxyTest),
    Validators,
    Default,
    CustomHooks,
}

fn is_sized(def: &Def) -> bool
    ensures { result ≡ is_sized def.now }
{
    match def {
        Def::Str | Def::Slice(_) => false,
        Def::Scalar(_)
        | Def::Opaque
        | Def::Struct(_)
        | Def::Enum(_)
        | Def::Option(_)
        | Def::Result(_, _)
        | Def::List(_)
        | Def::Map(_, _)
        | Def::Set(_)
        | Def::Array(_, _)
        | Def::Pointer(_)
        | Def::Dynamic
        | Def::Undefined
        | Def::Other => true,
    }
}

pub(crate) fn part_passes(table: &ShapeTable, test: PartTest, id: ShapeId) -> bool
    ensures { result ≡ part_passes table.now test id }
{
    match test {
        PartTest::InRange => (id.0 as usize) < table.len(),
        PartTest::Sized => match table.get(id) {
            Some(shape) => is_sized(&shape.def),
            None => true,
        },
    }
}

pub(crate) fn option_passes(table: &ShapeTable, test: PartTest, id: Option<ShapeId>) -> bool
    ensures { result ≡ list_all (part_passes table.now test) (option_to_list id) }
{
    match id {
        Some(id) => part_passes(table, test, id),
        None => true,
    }
}

pub(crate) fn contents_pass(table: &ShapeTable, test: PartTest, def: &Def) -> bool
    ensures { result ≡ list_all (part_passes table.now test) (contents_of def.now) }
{
    match def {
        Def::Option(t) | Def::List(t) | Def::Set(t) | Def::Array(t, _) | Def::Slice(t) => {
            part_passes(table, test, *t)
        }
        Def::Result(a, b) | Def::Map(a, b) => {
            part_passes(table, test, *a) && part_passes(table, test, *b)
        }
        Def::Scalar(_)
        | Def::Str
        | Def::Opaque
        | Def::Struct(_)
        | Def::Enum(_)
        | Def::Pointer(_)
        | Def::Dynamic
        | Def::Undefined
        | Def::Other => true,
    }
}

pub(crate) fn hook_passes(hook: Option<HookId>) -> bool
    ensures { result ≡ list_all hook_passes (option_to_list hook) }
{
    match hook {
        Some(hook) => hook.0 < 65536,
        None => true,
    }
}

fn proxy_passes(table: &ShapeTable, test: ProxyTest, proxy: &ProxyDef) -> bool
    ensures { result ≡ proxy_passes table.now test proxy.now }
{
    match test {
        ProxyTest::Source(test) => part_passes(table, test, proxy.source),
        ProxyTest::Hook => proxy.convert.0 < 65536,
    }
}

/// All proxies of a shape or a field.
pub(crate) fn proxies_pass(
    table: &ShapeTable,
    test: ProxyTest,
    proxy: &Option<ProxyDef>,
    format_proxies: &Items<FormatProxy>,
) -> bool
    ensures { result ≡ list_all (proxy_passes table.now test)
        (proxies_of proxy.now format_proxies.now) }
{
    if let Some(proxy) = proxy {
        if !proxy_passes(table, test, proxy) {
            return false;
        }
    }
    for formatted in format_proxies.as_slice() {
        if !proxy_passes(table, test, &formatted.proxy) {
            return false;
        }
    }
    true
}

fn is_integer_kind(kind: ScalarKind) -> bool
    ensures { result ≡ is_some (signed_bits kind) || is_some (unsigned_bits kind) }
{
    match kind {
        ScalarKind::Bool | ScalarKind::Char | ScalarKind::String | ScalarKind::CowStr => false,
        ScalarKind::I8
        | ScalarKind::I16
        | ScalarKind::I32
        | ScalarKind::I64
        | ScalarKind::I128
        | ScalarKind::ISize
        | ScalarKind::U8
        | ScalarKind::U16
        | ScalarKind::U32
        | ScalarKind::U64
        | ScalarKind::U128
        | ScalarKind::USize => true,
    }
}

fn is_integer(def: &Def) -> bool
    ensures { result ≡ is_integer def.now }
{
    match def {
        Def::Scalar(kind) => is_integer_kind(*kind),
        Def::Str
        | Def::Opaque
        | Def::Struct(_)
        | Def::Enum(_)
        | Def::Option(_)
        | Def::Result(_, _)
        | Def::List(_)
        | Def::Map(_, _)
        | Def::Set(_)
        | Def::Array(_, _)
        | Def::Pointer(_)
        | Def::Slice(_)
        | Def::Dynamic
        | Def::Undefined
        | Def::Other => false,
    }
}

fn is_string(def: &Def) -> bool
    ensures { result ≡ is_string def.now }
{
    match def {
        Def::Scalar(kind) => is_text_kind(*kind),
        Def::Str
        | Def::Opaque
        | Def::Struct(_)
        | Def::Enum(_)
        | Def::Option(_)
        | Def::Result(_, _)
        | Def::List(_)
        | Def::Map(_, _)
        | Def::Set(_)
        | Def::Array(_, _)
        | Def::Pointer(_)
        | Def::Slice(_)
        | Def::Dynamic
        | Def::Undefined
        | Def::Other => false,
    }
}

fn suits(def: &Def, validator: &ValidatorDef) -> bool
    ensures { result ≡ suits def.now validator.now }
{
    match validator {
        ValidatorDef::Custom(_) => true,
        ValidatorDef::Min(_) | ValidatorDef::Max(_) => is_integer(def),
        ValidatorDef::MinLength(_)
        | ValidatorDef::MaxLength(_)
        | ValidatorDef::Url
        | ValidatorDef::Regex(_)
        | ValidatorDef::Contains(_) => is_string(def),
    }
}

fn validators_suit(def: &Def, validators: &Items<ValidatorDef>) -> bool
    ensures { result ≡ list_all (suits def.now) validators.now }
{
    for validator in validators.as_slice() {
        if !suits(def, validator) {
            return false;
        }
    }
    true
}

fn custom_hook(validator: &ValidatorDef) -> Option<HookId>
    ensures { option_to_list result ≡ custom_hooks (validator.now ∷ []) }
{
    match validator {
        ValidatorDef::Custom(hook) => Some(*hook),
        ValidatorDef::Min(_)
        | ValidatorDef::Max(_)
        | ValidatorDef::MinLength(_)
        | ValidatorDef::MaxLength(_)
        | ValidatorDef::Url
        | ValidatorDef::Regex(_)
        | ValidatorDef::Contains(_) => None,
    }
}

fn custom_hooks_pass(validators: &Items<ValidatorDef>) -> bool
    ensures { result ≡ list_all hook_passes (custom_hooks validators.now) }
{
    for validator in validators.as_slice() {
        if !hook_passes(custom_hook(validator)) {
            return false;
        }
    }
    true
}

/// Whether the value fits the shape and holds no token.
pub(crate) fn is_template(table: &ShapeTable, id: ShapeId, template: &Template) -> bool
    ensures { result ≡ is_template table.now id.0 template.now }
{
    let v = template.value();
    fits(table, id, v) && v.holds_no_token()
}

fn default_is_template(table: &ShapeTable, id: ShapeId, default: &Option<DefaultSource>) -> bool
    ensures { result ≡ default_is_template table.now id.0 default.now }
{
    match default {
        Some(DefaultSource::Custom(template)) => is_template(table, id, template),
        Some(DefaultSource::FromTrait) | None => true,
    }
}

fn field_passes(table: &ShapeTable, test: FieldTest, field: &Field) -> bool
    ensures { result ≡ field_passes table.now test field.now }
{
    match test {
        FieldTest::Shape(test) => part_passes(table, test, field.shape),
        FieldTest::Proxies(test) => {
            proxies_pass(table, test, &field.proxy, &field.format_proxies)
        }
        FieldTest::Validators => match table.get(field.shape) {
            Some(shape) => validators_suit(&shape.def, &field.validators),
            None => validators_suit(&Def::Other, &field.validators),
        },
        FieldTest::Default => default_is_template(table, field.shape, &field.default),
        FieldTest::CustomHooks => custom_hooks_pass(&field.validators),
    }
}

fn all_fields_pass(table: &ShapeTable, test: FieldTest, fields: &Items<Field>) -> bool
    ensures { result ≡ list_all (field_passes table.now test) fields.now }
{
    for field in fields.as_slice() {
        if !field_passes(table, test, field) {
            return false;
        }
    }
    true
}

/// All fields of a struct, or of all variants of an enum.
#[tactic(auto, using(crate::proofs::Faults::all_flat_map))]
pub(crate) fn fields_pass(table: &ShapeTable, test: FieldTest, def: &Def) -> bool
    ensures { result ≡ list_all (field_passes table.now test) (fields_of def.now) }
{
    match def {
        Def::Struct(described) => all_fields_pass(table, test, &described.fields),
        Def::Enum(described) => {
            for variant in described.variants.as_slice() {
                if !all_fields_pass(table, test, &variant.fields) {
                    return false;
                }
            }
            true
        }
        Def::Scalar(_)
        | Def::Str
        | Def::Opaque
        | Def::Option(_)
        | Def::Result(_, _)
        | Def::List(_)
        | Def::Map(_, _)
        | Def::Set(_)
        | Def::Array(_, _)
        | Def::Pointer(_)
        | Def::Slice(_)
        | Def::Dynamic
        | Def::Undefined
        | Def::Other => true,
    }
}
