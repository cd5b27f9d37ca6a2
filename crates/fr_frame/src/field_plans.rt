//! What a plan says of the fields of a struct or of a variant: what each takes where it is a hole,
//! and its validators.
ghost use Rattle.std.specs.Prelude.{◌<◌, ◌≡◌};
ghost use Rattle.fr_frame.specs.Common.{AreTold, HasValidators, IfOk, IsChecked, IsNamed, IsPlanFor, IsPlanned, IsSome, None, Some, Table, column_of, def_of, deferred_column, field_at, field_fill, has_validators, length, option_copied, option_map, shape_of, slice_get, view, ℕ};

use fr_plan::{
    FieldPlan, NodeId, TypePlanCore, VariantPlanMeta, law_plan_complete, law_plan_lookups,
};
use fr_rules::{DeferredFill, FillRule, deferred_fill};
use fr_shape::{FieldRef, OutOfMemory, ShapeTable, Template, Value, clone_template};
use std::alloc::Global;

/// By whose rules a hole takes its fill: those of strict mode, which the plan tells, or those of
/// the end of deferred mode.
#[derive(Clone, Copy)]
pub(crate) enum FillColumn {
    Strict,
    Deferred,
}

/// The plans of the fields of a struct, in order. Of any other shape there are none.
fn plans_of_struct(plan: &TypePlanCore, node: NodeId) -> &[FieldPlan]
    requires { IsPlanned plan.now node }
    ensures told { (table : Table) → IsChecked table → IsPlanFor table plan.now
        → AreTold table plan.now (shape_of plan.now node) None result.now }
    ensures validators { (i : ℕ) → HasValidators plan.now (slice_get result.now i) }
{
    law_plan_lookups();
    match plan.struct_plan_by_id(node) {
        Some(described) => plan.fields(described.fields),
        None => &[],
    }
}

/// What is told of the variant of this number, if there is one.
fn told_at(variants: &[VariantPlanMeta], i: usize) -> Option<&VariantPlanMeta>
    ensures { option_copied result ≡ slice_get variants.now i }
{
    variants.get(i)
}

/// The plans of the fields of an enum's variant, in order. Where there is no such variant there are
/// none.
fn plans_of_variant(plan: &TypePlanCore, node: NodeId, variant: u32) -> &[FieldPlan]
    requires { IsPlanned plan.now node }
    ensures told { (table : Table) → IsChecked table → IsPlanFor table plan.now
        → AreTold table plan.now (shape_of plan.now node) (Some variant) result.now }
    ensures validators { (i : ℕ) → HasValidators plan.now (slice_get result.now i) }
{
    law_plan_lookups();
    let Some(described) = plan.enum_plan_by_id(node) else {
        return &[];
    };
    match told_at(plan.variants(described.variants), variant as usize) {
        Some(selected) => plan.fields(selected.fields),
        None => &[],
    }
}

/// The plans of the fields of a struct, or of the variant that is selected, in order. The plan says
/// the same whichever table it is a plan of.
pub(crate) fn fields_told(plan: &TypePlanCore, node: NodeId, selected: Option<u32>) -> &[FieldPlan]
    requires { IsPlanned plan.now node }
    ensures told { (table : Table) → IsChecked table → IsPlanFor table plan.now
        → AreTold table plan.now (shape_of plan.now node) selected result.now }
    ensures validators { (i : ℕ) → HasValidators plan.now (slice_get result.now i) }
{
    match selected {
        None => plans_of_struct(plan, node),
        Some(variant) => plans_of_variant(plan, node, variant),
    }
}

/// The same, of the table at hand.
pub(crate) fn plans_of_fields<'a>(
    table: &ShapeTable,
    plan: &'a TypePlanCore,
    node: NodeId,
    selected: Option<u32>,
) -> &'a [FieldPlan]
    requires checked { IsChecked table.now }
    requires planned { IsPlanFor table.now plan.now }
    requires inside { node.0 < length plan.now.nodes }
    ensures { AreTold table.now plan.now (shape_of plan.now node) selected result.now }
{
    fields_told(plan, node, selected)
}

/// Whether a field of the struct that a node builds, or of the variant that is selected, has a
/// validator. No field is looked at.
pub(crate) fn has_validators(plan: &TypePlanCore, node: NodeId, selected: Option<u32>) -> bool
    requires { node.0 < length plan.now.nodes }
    ensures { (table : Table) → IsChecked table → IsPlanFor table plan.now
        → result ≡ has_validators (def_of table (shape_of plan.now node)) selected }
{
    law_plan_complete();
    plan.has_validators(plan.node(node).shape, selected)
}

/// The template that a field's hole takes by the rules of the end of deferred mode, if any.
fn default_of(table: &ShapeTable, meant: FieldRef) -> Option<&Template>
    requires named { IsSome (field_at table.now meant) }
    ensures { option_copied result ≡ field_fill deferred_column table.now meant }
{
    match deferred_fill(table, meant) {
        DeferredFill::Template(default) => default.template(table),
        DeferredFill::MarkedWithoutDefault | DeferredFill::Missing => None,
    }
}

/// The template that a field's hole takes by the rules of this column, if any.
pub(crate) fn fill_of<'a>(
    table: &'a ShapeTable,
    told: &FieldPlan,
    column: FillColumn,
) -> Option<&'a Template>
    requires named { IsNamed table.now told.now }
    ensures { option_copied result ≡ field_fill (column_of column) table.now told.now.field }
{
    match column {
        FillColumn::Strict => match told.fill_rule {
            FillRule::Defaultable(default) => default.template(table),
            FillRule::Required => None,
        },
        FillColumn::Deferred => default_of(table, told.field),
    }
}

/// A copy of what a field's hole takes by these rules, if it takes anything.
pub(crate) fn copy_fill(
    alloc: Global,
    table: &ShapeTable,
    told: &FieldPlan,
    column: FillColumn,
) -> Result<Option<Value>, OutOfMemory>
    requires checked { IsChecked table.now }
    requires named { IsNamed table.now told.now }
    ensures { IfOk result (λ copy. option_map view copy
        ≡ field_fill (column_of column) table.now told.now.field) }
{
    match fill_of(table, told, column) {
        Some(template) => Ok(Some(clone_template(alloc, template.value())?)),
        None => Ok(None),
    }
}
