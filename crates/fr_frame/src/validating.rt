//! Running the validators of a place whose children are all there. What a plan says of its fields
//! is read without a table, and holds for every table that it is a plan of.
ghost use Rattle.std.specs.Prelude.{◌≡◌};
ghost use Rattle.fr_frame.specs.Common.{HasAllChildren, HasValidators, IfErr, IsCauseOf, IsChecked, IsPlanFor, IsPlanned, IsSome, None, OnOk, Table, as_fields, body_of, false, first_invalid, invalid, is_conversion_body, option_copied, option_map, refused_of, shape_of, slice_get, trees_of, values_of, view};

use crate::field_plans::{fields_told, has_validators};
use crate::lacking::run_validators;
use crate::places::PartialValue;
use fr_plan::{FieldPlan, NodeId, TypePlanCore};
use fr_shape::{Hooks, ReflectErrorKind, Value};
use fr_values::Children;
use std::alloc::Global;

/// What is told of the field of this number, if there is one.
fn told_at(told: &[FieldPlan], i: usize) -> Option<&FieldPlan>
    ensures { option_copied result ≡ slice_get told.now i }
{
    told.get(i)
}

/// Runs the validators that are told of a field on its value, in their order.
fn test_value<H: Hooks>(
    alloc: Global,
    plan: &TypePlanCore,
    hooks: &H,
    told: Option<&FieldPlan>,
    own: Option<&Value>,
) -> Result<(), ReflectErrorKind>
    requires validators { HasValidators plan.now (option_copied told) }
    ensures passing { OnOk result (refused_of (H.means hooks.now) plan.now
        (option_copied told.entry) (option_map view (option_copied own.entry)) ≡ None) }
    ensures failing { IfErr result (IsCauseOf (refused_of (H.means hooks.now) plan.now
        (option_copied told.entry) (option_map view (option_copied own.entry)))) }
{
    let Some(told) = told else {
        return Ok(());
    };
    let Some(value) = own else {
        return Ok(());
    };
    let validators = plan.validators(told.validators);
    run_validators(alloc, hooks, validators, value, told.field)
}

/// Runs the validators of the fields of a struct, or of the variant that is selected, all of which
/// are there.
fn test_values<H: Hooks>(
    alloc: Global,
    plan: &TypePlanCore,
    hooks: &H,
    node: NodeId,
    selected: Option<u32>,
    children: &Children,
) -> Result<(), ReflectErrorKind>
    requires planned { IsPlanned plan.now node }
    requires there { IsSome (values_of children.now) }
    ensures passing { OnOk result ((table : Table) → IsChecked table → IsPlanFor table plan.now
        → first_invalid (H.means hooks.now) table (shape_of plan.now node) (as_fields selected) 0
        (trees_of children.now) ≡ None) }
    ensures failing { IfErr result (λ kind. (table : Table) → IsChecked table
        → IsPlanFor table plan.now
        → IsCauseOf (first_invalid (H.means hooks.now) table (shape_of plan.now node)
        (as_fields selected) 0 (trees_of children.now)) kind) }
{
    if !has_validators(plan, node, selected) {
        return Ok(());
    }
    let told = fields_told(plan, node, selected);
    for i in 0..children.len() {
        test_value(alloc, plan, hooks, told_at(told, i), children.value(i))?;
    }
    Ok(())
}

/// Runs the validators of the fields of a place. Only a begun struct or variant has any. Where no
/// field has any, no child is looked at. The place is no conversion.
pub(crate) fn test_valid<H: Hooks>(
    alloc: Global,
    plan: &TypePlanCore,
    hooks: &H,
    node: NodeId,
    partial: &PartialValue,
) -> Result<(), ReflectErrorKind>
    requires planned { IsPlanned plan.now node }
    requires there { HasAllChildren (body_of partial.now) }
    ensures passing { OnOk result ((table : Table) → IsChecked table → IsPlanFor table plan.now
        → is_conversion_body (body_of partial.now) ≡ false
        → invalid (H.means hooks.now) table (shape_of plan.now node) (body_of partial.now) ≡ None) }
    ensures failing { IfErr result (λ kind. (table : Table) → IsChecked table
        → IsPlanFor table plan.now → is_conversion_body (body_of partial.now) ≡ false
        → IsCauseOf (invalid (H.means hooks.now) table (shape_of plan.now node)
        (body_of partial.now)) kind) }
{
    match partial {
        PartialValue::Entered | PartialValue::Whole(_) => Ok(()),
        PartialValue::Begun(tracker, children) => match tracker.fields() {
            Some(selected) => test_values(alloc, plan, hooks, node, selected, children),
            None => Ok(()),
        },
    }
}
