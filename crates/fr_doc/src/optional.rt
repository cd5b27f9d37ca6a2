//! What stands under keys, where something does.
ghost use Rattle.std.specs.Prelude.{◌≡◌, option_map};
ghost use Rattle.serde_json.specs.Find.{as_str};
ghost use Rattle.serde_json.specs.View.{view as data_of};
ghost use Rattle.fr_doc.specs.Keys.{given, flag_form};
ghost use Rattle.fr_doc.specs.Numerals.{small_int_form};
ghost use Rattle.fr_doc.specs.ProxyForms.{id_form, hook_form};
ghost use Rattle.fr_doc.specs.Reading.{Reads};
ghost use Rattle.fr_doc.specs.ValueForms.{value_form};

use crate::fault::ReadError;
use crate::numerals::{hook_of, id_of, small_int_of};
use crate::read_error::{Broken, FormError};
use crate::value_form::read_value;
use fr_shape::{HookId, ShapeId, Template, Text};
use serde_json::Value as Json;
use std::alloc::Global;

/// A flag, or what it is where none is given.
#[tactic(auto, unfolding(crate::specs::Keys::flag_form))]
pub fn read_flag(found: Option<&Json>, otherwise: bool) -> Result<bool, FormError>
    ensures { Reads (λ flag. flag)
        (flag_form otherwise (option_map (λ d. data_of d.now) found.entry)) result }
{
    match found {
        Some(json) => json.as_bool().ok_or(ReadError::Fault(Broken)),
        None => Ok(otherwise),
    }
}

/// A text, which has to be there.
pub fn read_text(alloc: Global, json: &Json) -> Result<Text, FormError>
    ensures { Reads (λ text. text) (as_str (data_of json.now)) result }
{
    let text = json.as_str().ok_or(Broken)?;
    Ok(Text::new(alloc, text)?)
}

/// A text, if one is given.
#[inline]
#[tactic(auto, unfolding(crate::specs::Keys::given))]
pub fn read_given_text(alloc: Global, found: Option<&Json>) -> Result<Option<Text>, FormError>
    ensures { Reads (λ text. text)
        (given as_str (option_map (λ d. data_of d.now) found.entry)) result }
{
    match found {
        Some(json) => Ok(Some(read_text(alloc, json)?)),
        None => Ok(None),
    }
}

/// A template, if one is given.
#[tactic(auto, unfolding(crate::specs::Keys::given))]
pub fn read_given_template(
    alloc: Global,
    found: Option<&Json>,
) -> Result<Option<Template>, FormError>
    ensures { Reads (λ template. template)
        (given value_form (option_map (λ d. data_of d.now) found.entry)) result }
{
    match found {
        Some(json) => Ok(Some(Template::new(read_value(alloc, json)?))),
        None => Ok(None),
    }
}

/// The number of a shape, if one is given.
#[tactic(auto, unfolding(crate::specs::Keys::given))]
pub fn read_given_id(found: Option<&Json>) -> Result<Option<ShapeId>, FormError>
    ensures { Reads (λ id. id)
        (given id_form (option_map (λ d. data_of d.now) found.entry)) result }
{
    match found {
        Some(json) => Ok(Some(id_of(json).ok_or(Broken)?)),
        None => Ok(None),
    }
}

/// The number of a hook, if one is given.
#[tactic(auto, unfolding(crate::specs::Keys::given))]
pub fn read_given_hook(found: Option<&Json>) -> Result<Option<HookId>, FormError>
    ensures { Reads (λ hook. hook)
        (given hook_form (option_map (λ d. data_of d.now) found.entry)) result }
{
    match found {
        Some(json) => Ok(Some(hook_of(json).ok_or(Broken)?)),
        None => Ok(None),
    }
}

/// A number in the range of `i64`, if one is given.
#[tactic(auto, unfolding(crate::specs::Keys::given))]
pub fn read_given_int(found: Option<&Json>) -> Result<Option<i64>, FormError>
    ensures { Reads (λ n. n)
        (given small_int_form (option_map (λ d. data_of d.now) found.entry)) result }
{
    match found {
        Some(json) => Ok(Some(small_int_of(json).ok_or(Broken)?)),
        None => Ok(None),
    }
}
