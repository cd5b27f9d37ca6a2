//! The variant of an enum that is selected, or why it can't be.
ghost use Rattle.std.specs.Prelude.{IfNone, IfOk, IfSome, Some, false, ◌≡◌};
ghost use Rattle.std.specs.Result.{result_err};
ghost use Rattle.fr_model.specs.Trackers.{as_fields};
ghost use Rattle.fr_model.specs.Variants.{is_enum, layout_refusal, variant_numbered};
ghost use Rattle.fr_model.specs.Well.{IsFullAs};
ghost use Rattle.fr_refusals.specs.Choosing.{found_refusal};
ghost use Rattle.fr_shape.specs.Look.{def_of, variants_of};
ghost use Rattle.fr_shape.specs.Numbered.{IsNumbered};
ghost use Rattle.fr_shape.specs.declared.shape.Def.{Def as TheDef};

use fr_shape::{Def, EnumDef, EnumRepr, Operation, ShapeId, ShapeTable};

/// The number of a variant, and how many fields it has.
#[derive(Clone, Copy)]
pub struct Chosen {
    pub variant: u32,
    pub count: usize,
}

/// The enum of this shape, if it is one.
pub fn enum_of(table: &ShapeTable, shape: ShapeId) -> Option<&EnumDef>
    ensures some { IfSome result (λ found. def_of table.now shape.0 ≡ TheDef.Enum found.now) }
    ensures none { IfNone result (is_enum (def_of table.now shape.0) ≡ false) }
{
    match &table.get(shape)?.def {
        Def::Enum(described) => Some(described),
        _ => None,
    }
}

/// Why no variant of an enum with this layout can be selected, if none can.
fn layout_refusal(repr: EnumRepr) -> Option<Operation>
    ensures { result ≡ layout_refusal repr }
{
    match repr {
        EnumRepr::Rust => Some(Operation::RustLayout),
        EnumRepr::RustNPO => Some(Operation::RustNpoLayout),
        EnumRepr::U8 | EnumRepr::U16 | EnumRepr::U32 | EnumRepr::U64 | EnumRepr::USize => None,
        EnumRepr::I8 | EnumRepr::I16 | EnumRepr::I32 | EnumRepr::I64 | EnumRepr::ISize => None,
    }
}

/// The variant that was found in an enum, or why it can't be selected.
pub fn choose(
    described: &EnumDef,
    found: Option<u32>,
    unknown: Operation,
) -> Result<Chosen, Operation>
    ensures chosen { IfOk result (λ chosen. found ≡ Some chosen.variant) }
    ensures count { IfOk result (λ chosen.
        IsFullAs (TheDef.Enum described.now) (as_fields (Some chosen.variant)) chosen.count) }
    ensures refused { result_err result
        ≡ found_refusal (TheDef.Enum described.now) unknown found }
{
    let Some(variant) = found else {
        return Err(unknown);
    };
    if let Some(operation) = layout_refusal(described.repr) {
        return Err(operation);
    }
    match described.variants.get(variant as usize) {
        Some(told) if told.discriminant.is_some() => Ok(Chosen {
            variant,
            count: told.fields.len(),
        }),
        _ => Err(Operation::VariantWithoutDiscriminant),
    }
}

/// The variant of this number, counted from 0, if there is one.
pub fn nth_variant(table: &ShapeTable, shape: ShapeId, index: usize) -> Option<u32>
    requires numbered { IsNumbered table.now }
    ensures found { result ≡ variant_numbered index (variants_of (def_of table.now shape.0)) }
{
    let described = enum_of(table, shape)?;
    if index < described.variants.len() {
        Some(index as u32)
    } else {
        None
    }
}
