//! Reading tables of shapes.
ghost use Rattle.std.specs.Prelude.{◌≡◌};
ghost use Rattle.serde_json.specs.View.{view as data_of};
ghost use Rattle.fr_doc.specs.Faults.{Gives};
ghost use Rattle.fr_doc.specs.Reading.{Reads};
ghost use Rattle.fr_doc.specs.ShapeForms.{shape_object as shape_object_form, flags_form, hooks_form, shape_form, shape_at, shapes_form};

use crate::def_form::read_def;
use crate::fault::{DocFault, DocPlace, ReadError};
use crate::members::{object_of, required};
use crate::optional::{read_flag, read_given_hook, read_given_id, read_given_template, read_text};
use crate::proxy_form::{read_format_proxies, read_given_proxy};
use crate::read_error::{Broken, FormError};
use fr_shape::{HookId, Items, Shape};
use serde_json::Value as Json;
use std::alloc::Global;

/// The shapes of a table, or the fault of the first place whose form is broken.
#[tactic(auto, unfolding(crate::specs::ShapeForms::shapes_form))]
pub fn shapes_of(alloc: Global, json: &Json) -> Result<Items<Shape>, ReadError>
    ensures form { Gives (shapes_form (data_of json.now)) result }
{
    let Json::Array(items) = json else {
        return Err(ReadError::Fault(DocFault::BadForm(DocPlace::Shapes)));
    };
    let mut shapes = Items::new(alloc);
    for (i, item) in items.iter().enumerate() {
        shapes.push(shape_of(alloc, i, item)?)?;
    }
    Ok(shapes)
}

/// The shape of this number in a table's array.
pub fn shape_of(alloc: Global, i: usize, json: &Json) -> Result<Shape, ReadError>
    ensures form { Gives (shape_at i (data_of json.now)) result }
{
    match read_shape(alloc, json) {
        Ok(shape) => Ok(shape),
        Err(ReadError::Memory) => Err(ReadError::Memory),
        Err(ReadError::Fault(Broken)) => match u32::try_from(i) {
            Ok(i) => Err(ReadError::Fault(DocFault::BadForm(DocPlace::Shape(i)))),
            Err(_) => Err(ReadError::Memory),
        },
    }
}

/// An object that has no other keys than a shape's.
#[tactic(auto, unfolding(crate::specs::ShapeForms::shape_object))]
fn shape_object(json: &Json) -> Result<&Json, FormError>
    ensures { Reads (λ shape. data_of shape.now) (shape_object_form (data_of json.now)) result }
{
    object_of(
        json,
        &[
            "name",
            "def",
            "preset",
            "default_attr",
            "metadata",
            "deny_unknown",
            "transparent",
            "bytes_ok",
            "inner",
            "builder",
            "convert",
            "parse",
            "parse_bytes",
            "invariant",
            "proxy",
            "format_proxies",
        ],
    )
}

/// What is true of a shape.
#[derive(Clone, Copy)]
struct ShapeFlags {
    default_attr: bool,
    metadata: bool,
    deny_unknown: bool,
    transparent: bool,
    bytes_ok: bool,
}

/// The flags of a shape. Each is false where nothing is said.
#[tactic(auto, unfolding(crate::specs::ShapeForms::flags_form))]
fn read_flags(shape: &Json) -> Result<ShapeFlags, FormError>
    ensures { Reads (λ flags. flags) (flags_form (data_of shape.now)) result }
{
    Ok(ShapeFlags {
        default_attr: read_flag(shape.get("default_attr"), false)?,
        metadata: read_flag(shape.get("metadata"), false)?,
        deny_unknown: read_flag(shape.get("deny_unknown"), false)?,
        transparent: read_flag(shape.get("transparent"), false)?,
        bytes_ok: read_flag(shape.get("bytes_ok"), false)?,
    })
}

/// The hooks of a shape.
#[derive(Clone, Copy)]
struct ShapeHooks {
    convert: Option<HookId>,
    parse: Option<HookId>,
    parse_bytes: Option<HookId>,
    invariant: Option<HookId>,
}

#[tactic(auto, unfolding(crate::specs::ShapeForms::hooks_form))]
fn read_hooks(shape: &Json) -> Result<ShapeHooks, FormError>
    ensures { Reads (λ hooks. hooks) (hooks_form (data_of shape.now)) result }
{
    Ok(ShapeHooks {
        convert: read_given_hook(shape.get("convert"))?,
        parse: read_given_hook(shape.get("parse"))?,
        parse_bytes: read_given_hook(shape.get("parse_bytes"))?,
        invariant: read_given_hook(shape.get("invariant"))?,
    })
}

/// What has to be let go comes last, so that it isn't where another part is broken.
#[tactic(auto, unfolding(crate::specs::ShapeForms::shape_form))]
fn read_shape(alloc: Global, json: &Json) -> Result<Shape, FormError>
    ensures { Reads (λ shape. shape) (shape_form (data_of json.now)) result }
{
    let shape = shape_object(json)?;
    let flags = read_flags(shape)?;
    let inner = read_given_id(shape.get("inner"))?;
    let builder = read_given_id(shape.get("builder"))?;
    let hooks = read_hooks(shape)?;
    let proxy = read_given_proxy(shape.get("proxy"))?;
    let name = read_text(alloc, required(shape, "name")?)?;
    let format_proxies = read_format_proxies(alloc, shape.get("format_proxies"))?;
    let def = read_def(alloc, required(shape, "def")?)?;
    let preset = read_given_template(alloc, shape.get("preset"))?;
    Ok(Shape {
        name,
        def,
        preset,
        default_attr: flags.default_attr,
        inner,
        builder,
        convert: hooks.convert,
        parse: hooks.parse,
        parse_bytes: hooks.parse_bytes,
        proxy,
        format_proxies,
        invariant: hooks.invariant,
        metadata: flags.metadata,
        deny_unknown: flags.deny_unknown,
        transparent: flags.transparent,
        bytes_ok: flags.bytes_ok,
    })
}
