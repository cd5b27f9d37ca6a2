//! Which children of a place may be entered, and why others may not.
ghost use Rattle.std.specs.Prelude.{◌≡◌};
ghost use Rattle.fr_frame.specs.Admitting.{Describes};
ghost use Rattle.fr_frame.specs.Common.{IfOk, IsFullAs, None, Some, as_fields, as_tracker, body_of, def_of, false, field_in, is_conversion, own_tree, ℕ};
ghost use Rattle.fr_model.specs.Step.{field_refusal, named_refusal};
ghost use Rattle.fr_model.specs.Tree.{selected};
ghost use Rattle.std.specs.Result.{result_err};
ghost use Rattle.std.specs.Option.{option_copied};
ghost use Rattle.fr_shape.specs.declared.shape.Def.{Def as TheDef};
ghost use Rattle.fr_model.specs.Step.{variant_field_refusal};

use crate::places::{PartialValue, Tracker};
use fr_shape::{Def, EnumDef, Field, Operation, ShapeId, ShapeTable};

/// As what a place is begun whose children may be entered, and how many it has then.
#[derive(Drop)]
pub struct Opening {
    pub tracker: Tracker,
    pub count: usize,
}

/// The largest array whose elements can be entered.
pub const MOST_ELEMENTS: u32 = 4096;

/// The variant as which the place is begun, if it is begun as one.
pub fn selected(partial: &PartialValue) -> Option<u32>
    ensures selected { result ≡ selected (own_tree (body_of partial.now)) }
{
    match partial {
        PartialValue::Begun(Tracker::Fields(Some(k)), _) => Some(*k),
        _ => None,
    }
}

/// As what a place of this shape is opened around child `i`, or why that may not be entered.
#[inline]
pub fn nth_opening(
    table: &ShapeTable,
    shape: ShapeId,
    partial: &PartialValue,
    i: usize,
) -> Result<Opening, Operation>
    ensures opening { IfOk result (λ opening.
        Describes table.now shape.0 (own_tree (body_of partial.now)) opening) }
    ensures refused { result_err result
        ≡ field_refusal (def_of table.now shape.0) (own_tree (body_of partial.now)) i }
{
    let Some(entry) = table.get(shape) else {
        return Err(Operation::FieldOfOther);
    };
    let (tracker, count) = match &entry.def {
        Def::Struct(described) if i < described.fields.len() => {
            (Tracker::Fields(None), described.fields.len())
        }
        Def::Struct(_) => return Err(Operation::FieldIndexOutOfBounds),
        Def::Array(_, count) if i >= *count as usize => {
            return Err(Operation::ArrayIndexOutOfBounds);
        }
        Def::Array(_, count) if *count > MOST_ELEMENTS => return Err(Operation::ArrayTooLarge),
        Def::Array(_, _) if matches!(partial, PartialValue::Whole(_)) => {
            return Err(Operation::ElementOfWholeArray);
        }
        Def::Array(_, count) => (Tracker::Elements, *count as usize),
        Def::Enum(described) => return variant_opening(described, selected(partial), i),
        Def::Slice(_) => return Err(Operation::FieldOfSlice),
        Def::Opaque => return Err(Operation::FieldOfOpaque),
        Def::Scalar(_) | Def::Str | Def::Option(_) | Def::Result(_, _) | Def::List(_) => {
            return Err(Operation::FieldOfOther);
        }
        Def::Map(_, _) | Def::Set(_) | Def::Pointer(_) | Def::Dynamic => {
            return Err(Operation::FieldOfOther);
        }
        Def::Undefined | Def::Other => return Err(Operation::FieldOfOther),
    };
    Ok(Opening { tracker, count })
}

/// As what an enum is opened around field `i` of the variant that is selected, or why that may not
/// be entered.
fn variant_opening(
    described: &EnumDef,
    variant: Option<u32>,
    i: usize,
) -> Result<Opening, Operation>
    ensures full { IfOk result (λ opening.
        IsFullAs (TheDef.Enum described.now) (as_tracker opening.tracker) opening.count) }
    ensures plain { IfOk result (λ opening.
        is_conversion (as_tracker opening.tracker) ≡ false) }
    ensures variant { IfOk result (λ opening.
        (k : ℕ) → as_tracker opening.tracker ≡ as_fields (Some k) → variant ≡ Some k) }
    ensures refused { result_err result
        ≡ variant_field_refusal (TheDef.Enum described.now) variant i }
{
    let Some(k) = variant else {
        return Err(Operation::FieldOfUnselectedVariant);
    };
    match described.variants.get(k as usize) {
        Some(told) if i < told.fields.len() => Ok(Opening {
            tracker: Tracker::Fields(Some(k)),
            count: told.fields.len(),
        }),
        _ => Err(Operation::VariantFieldIndexOutOfBounds),
    }
}

/// The same of a child that may be entered.
pub fn opening_at(table: &ShapeTable, shape: ShapeId, partial: &PartialValue, i: usize) -> Opening
    requires admitted { field_refusal (def_of table.now shape.0) (own_tree (body_of partial.now)) i
        ≡ None }
    ensures opening { Describes table.now shape.0 (own_tree (body_of partial.now)) result }
{
    match nth_opening(table, shape, partial, i) {
        Ok(opening) => opening,
        Err(_) => unreachable!(),
    }
}

/// Why no field of a place of this shape is entered by its name, if none is.
pub fn named_refusal(
    table: &ShapeTable,
    shape: ShapeId,
    partial: &PartialValue,
) -> Option<Operation>
    ensures refused { result
        ≡ named_refusal (def_of table.now shape.0) (own_tree (body_of partial.now)) }
{
    let Some(entry) = table.get(shape) else {
        return Some(Operation::FieldOfOther);
    };
    match &entry.def {
        Def::Struct(_) => None,
        Def::Enum(_) if selected(partial).is_some() => None,
        Def::Enum(_) => Some(Operation::NamedFieldOfUnselectedVariant),
        Def::Undefined => Some(Operation::NamedFieldOfUndefined),
        Def::Scalar(_) | Def::Str => Some(Operation::NamedFieldOfPrimitive),
        Def::Array(_, _) | Def::Slice(_) => Some(Operation::NamedFieldOfSequence),
        Def::Opaque => Some(Operation::NamedFieldOfOpaque),
        Def::Pointer(_) => Some(Operation::NamedFieldOfPointer),
        Def::Option(_) | Def::Result(_, _) | Def::List(_) | Def::Map(_, _) | Def::Set(_) => {
            Some(Operation::FieldOfOther)
        }
        Def::Dynamic | Def::Other => Some(Operation::FieldOfOther),
    }
}

/// Field `i` of a struct, or of the variant that is selected, if there is one.
pub fn field_of(
    table: &ShapeTable,
    shape: ShapeId,
    variant: Option<u32>,
    i: usize,
) -> Option<&Field>
    ensures field { option_copied result ≡ field_in (def_of table.now shape.0) variant i }
{
    match (&table.get(shape)?.def, variant) {
        (Def::Struct(described), None) => described.fields.get(i),
        (Def::Enum(described), Some(k)) => described.variants.get(k as usize)?.fields.get(i),
        _ => None,
    }
}
