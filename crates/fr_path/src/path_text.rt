//! The text of a path.
ghost use Rattle.std.specs.Prelude.{◌≡◌, ◌++◌, IfOk, OnOk, string_bytes};
ghost use Rattle.fr_path.specs.PathText.{field_text, step_text, path_text};

use crate::PathStep;
use crate::step_shapes::shape_after;
use fr_shape::{FieldRef, OutOfMemory, ShapeId, ShapeTable};
use std::alloc::{AllocError, Global};
use std::fmt::Write;

// Writes a field step: the declared name where the place is known to be a struct that has the
// field, else its number.
fn write_field(
    text: &mut String,
    table: &ShapeTable,
    known: Option<ShapeId>,
    index: u32,
) -> Result<(), AllocError>
    ensures { OnOk result (string_bytes text.new
        ≡ string_bytes text.old ++ field_text table.now known index) }
{
    if let Some(shape) = known {
        let meant = FieldRef {
            shape,
            variant: None,
            index,
        };
        if let Some(field) = table.field(meant) {
            return text.push_str(field.name.as_str());
        }
    }
    write!(text, "{index}")
}

// Writes one step, `first` of its path or not, from a place of the shape that is known.
fn write_step(
    text: &mut String,
    table: &ShapeTable,
    known: Option<ShapeId>,
    first: bool,
    step: &PathStep,
) -> Result<(), AllocError>
    ensures { OnOk result (string_bytes text.new
        ≡ string_bytes text.old ++ step_text table.now known first step.now) }
{
    match step {
        PathStep::Field(i) => {
            if !first {
                text.push_str(".")?;
            }
            write_field(text, table, known, *i)
        }
        PathStep::Index(i) => write!(text, "[{i}]"),
        PathStep::Deref => text.push_str("::deref"),
        PathStep::Inner => text.push_str("::inner"),
        PathStep::OptionSome => text.push_str("::some"),
        PathStep::Proxy => text.push_str("::proxy"),
        PathStep::MapKey(i) => write!(text, "[key {i}]"),
        PathStep::MapValue(i) => write!(text, "[value {i}]"),
        PathStep::ResultOk => text.push_str("::ok"),
        PathStep::ResultErr => text.push_str("::err"),
        PathStep::SetItem => text.push_str("[item]"),
        PathStep::Entry(key) => {
            let key = key.as_str();
            write!(text, "[{key}]")
        }
    }
}

// The text of the steps, of which the first leads from a place of the shape `root`.
pub(crate) fn write_path(
    alloc: Global,
    steps: &[PathStep],
    table: &ShapeTable,
    root: ShapeId,
) -> Result<String, AllocError>
    ensures { IfOk result (λ text. string_bytes text ≡ path_text table.now root steps.now) }
{
    let mut text = String::new(alloc);
    let mut known = Some(root);
    for i in 0..steps.len() {
        let step = &steps[i];
        write_step(&mut text, table, known, i == 0, step)?;
        known = match known {
            Some(place) => shape_after(table, place, step),
            None => None,
        };
    }
    Ok(text)
}
