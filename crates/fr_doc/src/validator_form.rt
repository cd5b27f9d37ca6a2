//! Reading validators.
ghost use Rattle.std.specs.Prelude.{◌≡◌, option_map};
ghost use Rattle.serde_json.specs.View.{view as data_of};
ghost use Rattle.fr_doc.specs.Reading.{Reads};
ghost use Rattle.fr_doc.specs.ValidatorForms.{named_validator, keyed_validator, validator_form, validators_form};

use crate::fault::ReadError;
use crate::members::only_member;
use crate::numerals::{hook_of, length_of, small_int_of};
use crate::optional::read_text;
use crate::read_error::{Broken, FormError};
use fr_shape::{Items, ValidatorDef};
use serde_json::Value as Json;
use std::alloc::Global;

/// A validator's name, or an object of exactly one key.
#[tactic(auto, unfolding(crate::specs::ValidatorForms::validator_form))]
fn read_validator(alloc: Global, json: &Json) -> Result<ValidatorDef, FormError>
    ensures { Reads (λ validator. validator) (validator_form (data_of json.now)) result }
{
    match json {
        Json::String(word) => read_named_validator(word.as_str()),
        Json::Object(members) => {
            let (key, inner) = only_member(members).ok_or(Broken)?;
            read_keyed_validator(alloc, key, inner)
        }
        _ => Err(ReadError::Fault(Broken)),
    }
}

/// The validator that has a name of its own.
#[tactic(auto, unfolding(crate::specs::ValidatorForms::named_validator))]
fn read_named_validator(word: &str) -> Result<ValidatorDef, FormError>
    ensures { Reads (λ validator. validator) (named_validator word.now) result }
{
    match word {
        "url" => Ok(ValidatorDef::Url),
        _ => Err(ReadError::Fault(Broken)),
    }
}

#[tactic(auto, unfolding(crate::specs::ValidatorForms::keyed_validator))]
fn read_keyed_validator(alloc: Global, key: &str, inner: &Json) -> Result<ValidatorDef, FormError>
    ensures { Reads (λ validator. validator) (keyed_validator key.now (data_of inner.now)) result }
{
    Ok(match key {
        "min" => ValidatorDef::Min(small_int_of(inner).ok_or(Broken)?),
        "max" => ValidatorDef::Max(small_int_of(inner).ok_or(Broken)?),
        "min_length" => ValidatorDef::MinLength(length_of(inner).ok_or(Broken)?),
        "max_length" => ValidatorDef::MaxLength(length_of(inner).ok_or(Broken)?),
        "regex" => ValidatorDef::Regex(read_text(alloc, inner)?),
        "contains" => ValidatorDef::Contains(read_text(alloc, inner)?),
        "custom" => ValidatorDef::Custom(hook_of(inner).ok_or(Broken)?),
        _ => return Err(ReadError::Fault(Broken)),
    })
}

/// An array of validators. There are none where nothing is given.
#[tactic(auto, unfolding(crate::specs::ValidatorForms::validators_form))]
pub fn read_validators(
    alloc: Global,
    found: Option<&Json>,
) -> Result<Items<ValidatorDef>, FormError>
    ensures { Reads (λ validators. validators)
        (validators_form (option_map (λ d. data_of d.now) found.entry)) result }
{
    let mut validators = Items::new(alloc);
    let Some(json) = found else {
        return Ok(validators);
    };
    for item in json.as_array().ok_or(Broken)? {
        validators.push(read_validator(alloc, item)?)?;
    }
    Ok(validators)
}
