//! Reading fields.
ghost use Rattle.std.specs.Prelude.{◌≡◌, option_map};
ghost use Rattle.serde_json.specs.View.{view as data_of};
ghost use Rattle.fr_doc.specs.FieldForms.{named_default, keyed_default, default_form, field_form, fields_form};
ghost use Rattle.fr_doc.specs.Keys.{given};
ghost use Rattle.fr_doc.specs.Reading.{Reads};

use crate::fault::ReadError;
use crate::field_members::field_members_of;
use crate::members::only_member;
use crate::numerals::id_of;
use crate::optional::{read_flag, read_given_text, read_text};
use crate::proxy_form::{read_format_proxies, read_given_proxy};
use crate::read_error::{Broken, FormError};
use crate::validator_form::read_validators;
use crate::value_form::read_value;
use fr_shape::{DefaultSource, Field, Items, Template};
use serde_json::Value as Json;
use std::alloc::Global;

/// A default's name, or an object of exactly one key.
#[tactic(auto, unfolding(crate::specs::FieldForms::default_form))]
fn read_default(alloc: Global, json: &Json) -> Result<DefaultSource, FormError>
    ensures { Reads (λ default. default) (default_form (data_of json.now)) result }
{
    match json {
        Json::String(word) => read_named_default(word.as_str()),
        Json::Object(members) => {
            let (key, inner) = only_member(members).ok_or(Broken)?;
            read_keyed_default(alloc, key, inner)
        }
        _ => Err(ReadError::Fault(Broken)),
    }
}

/// The default of the field's shape.
#[tactic(auto, unfolding(crate::specs::FieldForms::named_default))]
fn read_named_default(word: &str) -> Result<DefaultSource, FormError>
    ensures { Reads (λ default. default) (named_default word.now) result }
{
    match word {
        "trait" => Ok(DefaultSource::FromTrait),
        _ => Err(ReadError::Fault(Broken)),
    }
}

/// A template of the field's own.
#[tactic(auto, unfolding(crate::specs::FieldForms::keyed_default))]
fn read_keyed_default(alloc: Global, key: &str, inner: &Json) -> Result<DefaultSource, FormError>
    ensures { Reads (λ default. default) (keyed_default key.now (data_of inner.now)) result }
{
    match key {
        "custom" => Ok(DefaultSource::Custom(Template::new(read_value(alloc, inner)?))),
        _ => Err(ReadError::Fault(Broken)),
    }
}

/// A default, if one is given.
#[inline]
#[tactic(auto, unfolding(crate::specs::Keys::given))]
fn read_given_default(
    alloc: Global,
    found: Option<&Json>,
) -> Result<Option<DefaultSource>, FormError>
    ensures { Reads (λ default. default)
        (given default_form (option_map (λ d. data_of d.now) found.entry)) result }
{
    match found {
        Some(json) => Ok(Some(read_default(alloc, json)?)),
        None => Ok(None),
    }
}

/// A default comes last, so that it isn't let go where another part is broken: it may be a value of
/// any form.
#[tactic(auto, using(crate::proofs::FieldParts::field_from_parts))]
fn read_field(alloc: Global, json: &Json) -> Result<Field, FormError>
    ensures { Reads (λ field. field) (field_form (data_of json.now)) result }
{
    let members = field_members_of(json)?;
    let shape = id_of(members.shape.ok_or(Broken)?).ok_or(Broken)?;
    let skip = read_flag(members.skip, false)?;
    let flatten = read_flag(members.flatten, false)?;
    let proxy = read_given_proxy(members.proxy)?;
    Ok(Field {
        name: read_text(alloc, members.name.ok_or(Broken)?)?,
        rename: read_given_text(alloc, members.rename)?,
        alias: read_given_text(alloc, members.alias)?,
        shape,
        skip,
        flatten,
        proxy,
        format_proxies: read_format_proxies(alloc, members.format_proxies)?,
        validators: read_validators(alloc, members.validators)?,
        default: read_given_default(alloc, members.default)?,
    })
}

/// An array of fields.
#[tactic(auto, unfolding(crate::specs::FieldForms::fields_form))]
pub fn read_fields(alloc: Global, json: &Json) -> Result<Items<Field>, FormError>
    ensures { Reads (λ fields. fields) (fields_form (data_of json.now)) result }
{
    let items = json.as_array().ok_or(Broken)?;
    let mut fields = Items::from_vec(Vec::with_capacity(alloc, items.len())?);
    for item in items {
        fields.push(read_field(alloc, item)?)?;
    }
    Ok(fields)
}
