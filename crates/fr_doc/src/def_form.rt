//! Reading definitions.
ghost use Rattle.std.specs.Prelude.{◌≡◌, option_map};
ghost use Rattle.serde_json.specs.View.{view as data_of};
ghost use Rattle.fr_doc.specs.DefForms.{named_def, unit_form, repr_form, enum_form, pair_form, two_ids, array_form, pointer_form, keyed_def, def_form, struct_of};
ghost use Rattle.fr_doc.specs.DefForms.{known_form};
ghost use Rattle.fr_doc.specs.FieldForms.{fields_form};
ghost use Rattle.fr_doc.specs.Keys.{given};
ghost use Rattle.fr_doc.specs.Reading.{Reads};

use crate::fault::ReadError;
use crate::field_form::read_fields;
use crate::members::{object_of, only_member, required};
use crate::names::{find_pointer, find_repr, find_scalar};
use crate::numerals::{count_of, id_of};
use crate::optional::{read_flag, read_given_id};
use crate::read_error::{Broken, FormError};
use crate::variant_form::read_variants;
use fr_shape::{
    Def, EnumDef, EnumRepr, Items, KnownPointer, PointerDef, ShapeId, StructDef, StructKind,
};
use serde_json::Value as Json;
use std::alloc::Global;

/// A definition's name, or an object of exactly one key.
#[tactic(auto, unfolding(crate::specs::DefForms::def_form))]
pub fn read_def(alloc: Global, json: &Json) -> Result<Def, FormError>
    ensures { Reads (λ def. def) (def_form (data_of json.now)) result }
{
    match json {
        Json::String(word) => read_named_def(word.as_str()),
        Json::Object(members) => {
            let (key, inner) = only_member(members).ok_or(Broken)?;
            read_keyed_def(alloc, key, inner)
        }
        _ => Err(ReadError::Fault(Broken)),
    }
}

/// The definition that has a name of its own, else the scalar of that name.
#[tactic(auto, unfolding(crate::specs::DefForms::named_def))]
fn read_named_def(word: &str) -> Result<Def, FormError>
    ensures { Reads (λ def. def) (named_def word.now) result }
{
    match word {
        "str" => Ok(Def::Str),
        "opaque" => Ok(Def::Opaque),
        "dynamic" => Ok(Def::Dynamic),
        "undefined" => Ok(Def::Undefined),
        "other" => Ok(Def::Other),
        _ => Ok(Def::Scalar(find_scalar(word).ok_or(Broken)?)),
    }
}

#[tactic(auto, unfolding(crate::specs::DefForms::keyed_def))]
fn read_keyed_def(alloc: Global, key: &str, inner: &Json) -> Result<Def, FormError>
    ensures { Reads (λ def. def) (keyed_def key.now (data_of inner.now)) result }
{
    match key {
        "struct" => read_struct(alloc, StructKind::Struct, inner),
        "tuple" => read_struct(alloc, StructKind::Tuple, inner),
        "tuple_struct" => read_struct(alloc, StructKind::TupleStruct, inner),
        "unit" => read_unit(alloc, inner),
        "enum" => read_enum(alloc, inner),
        "option" => Ok(Def::Option(id_of(inner).ok_or(Broken)?)),
        "list" => Ok(Def::List(id_of(inner).ok_or(Broken)?)),
        "set" => Ok(Def::Set(id_of(inner).ok_or(Broken)?)),
        "slice" => Ok(Def::Slice(id_of(inner).ok_or(Broken)?)),
        "result" => {
            let (ok, err) = read_ids(inner)?;
            Ok(Def::Result(ok, err))
        }
        "map" => {
            let (key, value) = read_ids(inner)?;
            Ok(Def::Map(key, value))
        }
        "array" => read_array(inner),
        "pointer" => read_pointer(inner),
        _ => Err(ReadError::Fault(Broken)),
    }
}

/// A struct of a kind with fields.
fn read_struct(alloc: Global, kind: StructKind, json: &Json) -> Result<Def, FormError>
    ensures { Reads (λ def. def)
        (option_map (struct_of kind) (fields_form (data_of json.now))) result }
{
    let fields = read_fields(alloc, json)?;
    Ok(Def::Struct(StructDef { kind, fields }))
}

/// A unit. Its array of fields is empty.
#[tactic(auto, unfolding(crate::specs::DefForms::unit_form))]
fn read_unit(alloc: Global, json: &Json) -> Result<Def, FormError>
    ensures { Reads (λ def. def) (unit_form (data_of json.now)) result }
{
    let Json::Array(items) = json else {
        return Err(ReadError::Fault(Broken));
    };
    let None = items.iter().next() else {
        return Err(ReadError::Fault(Broken));
    };
    Ok(Def::Struct(StructDef {
        kind: StructKind::Unit,
        fields: Items::new(alloc),
    }))
}

/// How an enum keeps its discriminant.
#[tactic(auto, unfolding(crate::specs::DefForms::repr_form))]
fn read_repr(json: &Json) -> Result<EnumRepr, FormError>
    ensures { Reads (λ repr. repr) (repr_form (data_of json.now)) result }
{
    let word = json.as_str().ok_or(Broken)?;
    find_repr(word).ok_or(ReadError::Fault(Broken))
}

#[tactic(auto, unfolding(crate::specs::DefForms::enum_form))]
fn read_enum(alloc: Global, json: &Json) -> Result<Def, FormError>
    ensures { Reads (λ def. def) (enum_form (data_of json.now)) result }
{
    let described = object_of(json, &["repr", "variants"])?;
    Ok(Def::Enum(EnumDef {
        repr: read_repr(required(described, "repr")?)?,
        variants: read_variants(alloc, required(described, "variants")?)?,
    }))
}

/// The numbers of two shapes.
#[tactic(auto, unfolding(crate::specs::DefForms::two_ids))]
fn read_ids(json: &Json) -> Result<(ShapeId, ShapeId), FormError>
    ensures { Reads (λ ids. ids) (two_ids (data_of json.now)) result }
{
    let (first, second) = pair_of(json).ok_or(Broken)?;
    let first = id_of(first).ok_or(Broken)?;
    let second = id_of(second).ok_or(Broken)?;
    Ok((first, second))
}

/// The shape of an array's items, and how many there are.
#[tactic(auto, unfolding(crate::specs::DefForms::array_form))]
fn read_array(json: &Json) -> Result<Def, FormError>
    ensures { Reads (λ def. def) (array_form (data_of json.now)) result }
{
    let (shape, count) = pair_of(json).ok_or(Broken)?;
    let shape = id_of(shape).ok_or(Broken)?;
    let count = count_of(count).ok_or(Broken)?;
    Ok(Def::Array(shape, count))
}

/// The pointer type of a name, if one is given.
#[tactic(auto, unfolding(crate::specs::Keys::given, crate::specs::DefForms::known_form))]
fn read_given_known(found: Option<&Json>) -> Result<Option<KnownPointer>, FormError>
    ensures { Reads (λ known. known)
        (given known_form (option_map (λ d. data_of d.now) found.entry)) result }
{
    let Some(json) = found else {
        return Ok(None);
    };
    let word = json.as_str().ok_or(Broken)?;
    Ok(Some(find_pointer(word).ok_or(Broken)?))
}

/// A pointer. It can be built from what it points to where nothing else is said.
#[tactic(auto, unfolding(crate::specs::DefForms::pointer_form))]
fn read_pointer(json: &Json) -> Result<Def, FormError>
    ensures { Reads (λ def. def) (pointer_form (data_of json.now)) result }
{
    let pointer = object_of(json, &["known", "pointee", "constructible"])?;
    Ok(Def::Pointer(PointerDef {
        known: read_given_known(pointer.get("known"))?,
        pointee: read_given_id(pointer.get("pointee"))?,
        constructible: read_flag(pointer.get("constructible"), true)?,
    }))
}

/// The items of an array of two.
#[tactic(auto, using(crate::proofs::TwoItems::two_items))]
fn pair_of(json: &Json) -> Option<(&Json, &Json)>
    ensures { option_map (λ pair. (data_of pair.0.now, data_of pair.1.now)) result
        ≡ pair_form (data_of json.now) }
{
    let Json::Array(items) = json else {
        return None;
    };
    let mut items = items.iter();
    let (Some(first), Some(second), None) = (items.next(), items.next(), items.next()) else {
        return None;
    };
    Some((first, second))
}
