//! Reading variants.
ghost use Rattle.std.specs.Prelude.{◌≡◌, option_map};
ghost use Rattle.serde_json.specs.View.{view as data_of};
ghost use Rattle.fr_doc.specs.Reading.{Reads};
ghost use Rattle.fr_doc.specs.VariantForms.{kind_form, variant_object as variant_object_form, described_variant_form, variants_form};

use crate::fault::ReadError;
use crate::field_form::read_fields;
use crate::members::{object_of, required};
use crate::names::find_kind;
use crate::optional::{read_flag, read_given_int, read_given_text, read_text};
use crate::read_error::{Broken, FormError};
use fr_shape::{Items, StructKind, VariantDef};
use serde_json::Value as Json;
use std::alloc::Global;

/// How a variant is written. It has named fields where nothing is given.
#[tactic(auto, unfolding(crate::specs::VariantForms::kind_form))]
fn read_kind(found: Option<&Json>) -> Result<StructKind, FormError>
    ensures { Reads (λ kind. kind)
        (kind_form (option_map (λ d. data_of d.now) found.entry)) result }
{
    let Some(json) = found else {
        return Ok(StructKind::Struct);
    };
    let word = json.as_str().ok_or(Broken)?;
    find_kind(word).ok_or(ReadError::Fault(Broken))
}

/// An object that has no other keys than a variant's.
#[tactic(auto, unfolding(crate::specs::VariantForms::variant_object))]
fn variant_object(json: &Json) -> Result<&Json, FormError>
    ensures { Reads (λ variant. data_of variant.now)
        (variant_object_form (data_of json.now)) result }
{
    object_of(
        json,
        &["name", "fields", "rename", "kind", "discriminant", "other"],
    )
}

/// What has to be let go comes last, so that it isn't where another part is broken.
#[tactic(auto, unfolding(crate::specs::VariantForms::described_variant_form))]
fn read_variant(alloc: Global, json: &Json) -> Result<VariantDef, FormError>
    ensures { Reads (λ variant. variant) (described_variant_form (data_of json.now)) result }
{
    let variant = variant_object(json)?;
    let kind = read_kind(variant.get("kind"))?;
    let discriminant = read_given_int(variant.get("discriminant"))?;
    let other = read_flag(variant.get("other"), false)?;
    let name = read_text(alloc, required(variant, "name")?)?;
    let rename = read_given_text(alloc, variant.get("rename"))?;
    let fields = read_fields(alloc, required(variant, "fields")?)?;
    Ok(VariantDef {
        name,
        rename,
        kind,
        fields,
        discriminant,
        other,
    })
}

/// An array of variants.
#[tactic(auto, unfolding(crate::specs::VariantForms::variants_form))]
pub fn read_variants(alloc: Global, json: &Json) -> Result<Items<VariantDef>, FormError>
    ensures { Reads (λ variants. variants) (variants_form (data_of json.now)) result }
{
    let mut variants = Items::new(alloc);
    for item in json.as_array().ok_or(Broken)? {
        variants.push(read_variant(alloc, item)?)?;
    }
    Ok(variants)
}
