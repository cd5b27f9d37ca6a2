//! Reading proxies.
ghost use Rattle.std.specs.Prelude.{◌≡◌, option_map};
ghost use Rattle.serde_json.specs.View.{view as data_of};
ghost use Rattle.fr_doc.specs.Keys.{given};
ghost use Rattle.fr_doc.specs.ProxyForms.{proxy_form, format_proxy_form, format_proxies_form};
ghost use Rattle.fr_doc.specs.Reading.{Reads};

use crate::members::{object_of, required};
use crate::numerals::{hook_of, id_of};
use crate::optional::read_text;
use crate::read_error::{Broken, FormError};
use fr_shape::{FormatProxy, Items, ProxyDef};
use serde_json::Value as Json;
use std::alloc::Global;

/// An object of a source shape, and the hook that converts its values.
#[tactic(auto, unfolding(crate::specs::ProxyForms::proxy_form))]
fn read_proxy(json: &Json) -> Result<ProxyDef, FormError>
    ensures { Reads (λ proxy. proxy) (proxy_form (data_of json.now)) result }
{
    let proxy = object_of(json, &["source", "convert"])?;
    Ok(ProxyDef {
        source: id_of(required(proxy, "source")?).ok_or(Broken)?,
        convert: hook_of(required(proxy, "convert")?).ok_or(Broken)?,
    })
}

/// A proxy, if one is given.
#[inline]
#[tactic(auto, unfolding(crate::specs::Keys::given))]
pub fn read_given_proxy(found: Option<&Json>) -> Result<Option<ProxyDef>, FormError>
    ensures { Reads (λ proxy. proxy)
        (given proxy_form (option_map (λ d. data_of d.now) found.entry)) result }
{
    match found {
        Some(json) => Ok(Some(read_proxy(json)?)),
        None => Ok(None),
    }
}

/// The same with the name of a format, which has to be let go and so comes last.
#[tactic(auto, unfolding(crate::specs::ProxyForms::format_proxy_form))]
fn read_format_proxy(alloc: Global, json: &Json) -> Result<FormatProxy, FormError>
    ensures { Reads (λ proxy. proxy) (format_proxy_form (data_of json.now)) result }
{
    let proxy = object_of(json, &["format", "source", "convert"])?;
    let source = id_of(required(proxy, "source")?).ok_or(Broken)?;
    let convert = hook_of(required(proxy, "convert")?).ok_or(Broken)?;
    Ok(FormatProxy {
        format: read_text(alloc, required(proxy, "format")?)?,
        proxy: ProxyDef { source, convert },
    })
}

/// An array of them. There are none where nothing is given.
#[tactic(auto, unfolding(crate::specs::ProxyForms::format_proxies_form))]
pub fn read_format_proxies(
    alloc: Global,
    found: Option<&Json>,
) -> Result<Items<FormatProxy>, FormError>
    ensures { Reads (λ proxies. proxies)
        (format_proxies_form (option_map (λ d. data_of d.now) found.entry)) result }
{
    let mut proxies = Items::new(alloc);
    let Some(json) = found else {
        return Ok(proxies);
    };
    for item in json.as_array().ok_or(Broken)? {
        proxies.push(read_format_proxy(alloc, item)?)?;
    }
    Ok(proxies)
}
