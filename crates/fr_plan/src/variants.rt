//! The plans of structs and enums.
ghost use Rattle.std.specs.Prelude.{◌≡◌, IfOk, position, Some};
ghost use Rattle.fr_shape.specs.declared.shape.Def.{Def as TheDef};
ghost use Rattle.fr_shape.specs.declared.shape.VariantDef.{VariantDef as Variant};
ghost use Rattle.fr_shape.specs.Look.{def_of};
ghost use Rattle.fr_rules.specs.VariantLookups.{HaveDistinctNames};
ghost use Rattle.fr_plan.specs.Lists.{ListsGrow};
ghost use Rattle.fr_plan.specs.Plans.{AreFieldsOf, IsStructPlan, IsVariantPlan, IsEnumPlan, NamesVariants, variants_from};

use crate::fields::{field_plans, has_flatten};
use crate::nodes::NodeId;
use crate::plan_lists::PlanLists;
use crate::plans::{EnumPlan, StructPlan, VariantPlanMeta, VariantRange};
use crate::walking::Container;
use fr_rules::{build_field_lookup, build_variant_lookup, law_lookups_stay};
use fr_shape::{EnumDef, OutOfMemory, Shape, ShapeId, ShapeTable, StructDef, VariantDef};
use std::alloc::Global;

/// The plan of a struct, whose fields have these nodes.
pub(crate) fn struct_plan(
    alloc: Global,
    table: &ShapeTable,
    id: ShapeId,
    shape: &Shape,
    described: &StructDef,
    nodes: &[NodeId],
    lists: &mut PlanLists,
) -> Result<StructPlan, OutOfMemory>
    requires described { def_of table.now id.0 ≡ TheDef.Struct described.now }
    ensures told { IfOk result
        (IsStructPlan table.now lists.new id nodes.now shape.now described.now) }
    ensures grown { ListsGrow lists.old lists.new }
{
    let of = Container {
        shape: id,
        variant: None,
    };
    let fields = field_plans(alloc, table, of, described.fields.as_slice(), nodes, lists)?;
    let field_lookup = build_field_lookup(alloc, &described.fields, &mut lists.lookups)?;
    Ok(StructPlan {
        fields,
        field_lookup,
        has_flatten: has_flatten(described.fields.as_slice()),
        deny_unknown_fields: shape.deny_unknown,
    })
}

/// The plan of the variant of this number, whose fields have these nodes.
fn variant_plan(
    alloc: Global,
    table: &ShapeTable,
    id: ShapeId,
    number: u32,
    variant: &VariantDef,
    nodes: &[NodeId],
    lists: &mut PlanLists,
) -> Result<VariantPlanMeta, OutOfMemory>
    requires fields { AreFieldsOf table.now id (Some number) variant.now.fields }
    ensures told { IfOk result (IsVariantPlan table.now lists.new id
        (record { number = number; variant = variant.now; nodes = nodes.now })) }
    ensures grown { ListsGrow lists.old lists.new }
{
    let of = Container {
        shape: id,
        variant: Some(number),
    };
    let fields = field_plans(alloc, table, of, variant.fields.as_slice(), nodes, lists)?;
    let field_lookup = build_field_lookup(alloc, &variant.fields, &mut lists.lookups)?;
    Ok(VariantPlanMeta {
        shape: id,
        variant: number,
        fields,
        field_lookup,
        has_flatten: has_flatten(variant.fields.as_slice()),
    })
}

/// The plans of all variants, put behind the others. `nodes` are those of the fields of all
/// variants.
fn variant_plans(
    alloc: Global,
    table: &ShapeTable,
    id: ShapeId,
    enumeration: &EnumDef,
    nodes: &[NodeId],
    lists: &mut PlanLists,
) -> Result<VariantRange, OutOfMemory>
    requires described { def_of table.now id.0 ≡ TheDef.Enum enumeration.now }
    ensures told { IfOk result (NamesVariants table.now lists.new id
        (variants_from 0 nodes.now enumeration.now.variants)) }
    ensures grown { ListsGrow lists.old lists.new }
{
    law_lookups_stay();
    let variants = enumeration.variants.as_slice();
    let mut plans = Vec::new(alloc);
    let mut rest = nodes;
    for i in 0..variants.len() {
        let Ok(number) = u32::try_from(i) else {
            return Err(OutOfMemory);
        };
        let variant = &variants[i];
        let (own, others) = rest.split_at(variant.fields.len().min(rest.len()));
        rest = others;
        plans.push(variant_plan(alloc, table, id, number, variant, own, lists)?)?;
    }
    lists.add_variants(plans)
}

/// The first variant that is marked as taking unknown names.
fn first_other(variants: &[VariantDef]) -> Option<usize>
    ensures { result ≡ position (λ (variant : Variant). variant.other) variants.now }
{
    variants.iter().position(|variant| variant.other)
}

/// The plan of an enum. `nodes` are those of the fields of all its variants.
pub(crate) fn enum_plan(
    alloc: Global,
    table: &ShapeTable,
    id: ShapeId,
    enumeration: &EnumDef,
    nodes: &[NodeId],
    lists: &mut PlanLists,
) -> Result<EnumPlan, OutOfMemory>
    requires described { def_of table.now id.0 ≡ TheDef.Enum enumeration.now }
    requires distinct { HaveDistinctNames enumeration.now.variants }
    ensures told { IfOk result (IsEnumPlan table.now lists.new id nodes.now enumeration.now) }
    ensures grown { ListsGrow lists.old lists.new }
{
    let variants = variant_plans(alloc, table, id, enumeration, nodes, lists)?;
    let variant_lookup = build_variant_lookup(alloc, enumeration)?;
    let Ok(num_variants) = u32::try_from(enumeration.variants.len()) else {
        return Err(OutOfMemory);
    };
    let other_variant_idx = match first_other(enumeration.variants.as_slice()) {
        Some(i) => {
            let Ok(number) = u32::try_from(i) else {
                return Err(OutOfMemory);
            };
            Some(number)
        }
        None => None,
    };
    Ok(EnumPlan {
        variants,
        variant_lookup,
        num_variants,
        other_variant_idx,
    })
}
