//! What a place lacks whose children are given or not there. Only what is said of a value that
//! fails takes memory.
ghost use Rattle.std.specs.Prelude.{◌<◌, ◌≡◌};
ghost use Rattle.fr_frame.specs.Common.{IfErr, IfSome, IsAnswer, IsCauseOf, IsChecked, IsFull, IsFullAs, IsNamed, IsPlanFor, IsSome, IsTold, Meanings, None, OnErr, OnOk, Some, Table, Tracker, Val, as_fields, ask, ask_field, ask_holes, asked, body_of, cells_or_holes, child_count, def_of, entered_body, field_at, field_fill, false, fields_of_tracker, first_asked, first_refused, is_conversion, is_conversion_body, length, missing_value, option_copied, option_map, option_or, shape_of, strict_column, true, unmet_mark, value_at, values_of, view, ℕ};
ghost use Rattle.fr_frame.specs.declared.lacking.Question.{Question as Asking};

use crate::field_plans::{FillColumn, fill_of, has_validators, plans_of_fields};
use crate::places::PartialValue;
use fr_plan::{FieldPlan, NodeId, TypePlanCore};
use fr_rules::{DeferredFill, PrecomputedValidator, deferred_fill};
use fr_shape::{Def, FieldRef, Hooks, ReflectErrorKind, ShapeTable, Value};
use fr_values::Children;
use std::alloc::Global;

/// What is asked of each field of a place that completes: in strict mode, whether there is a value,
/// its own or its fill, that passes its validators; by the rules of deferred mode, before the
/// fills, whether no hole is marked to take a default that there isn't, and after them, whether it
/// is there.
#[derive(Clone, Copy)]
pub(crate) enum Question {
    Strict,
    Marks,
    There,
}

/// Runs validators of a field on its value, in their order.
pub(crate) fn run_validators<H: Hooks>(
    alloc: Global,
    hooks: &H,
    validators: &[PrecomputedValidator],
    value: &Value,
    field: FieldRef,
) -> Result<(), ReflectErrorKind>
    ensures passing { OnOk result
        (first_refused (H.means hooks.now) field validators.now (view value.now) ≡ None) }
    ensures failing { IfErr result
        (IsCauseOf (first_refused (H.means hooks.now) field validators.now (view value.now))) }
{
    for validator in validators {
        validator.run(alloc, hooks, value, field)?;
    }
    Ok(())
}

/// A child's value, or the template that it takes in strict mode where it isn't there.
fn value_for<'a>(
    table: &'a ShapeTable,
    told: &FieldPlan,
    own: Option<&'a Value>,
) -> Option<&'a Value>
    requires named { IsNamed table.now told.now }
    ensures { option_map view (option_copied result) ≡ option_or
        (option_map view (option_copied own.entry))
        (field_fill strict_column table.now told.now.field) }
{
    match own {
        Some(value) => Some(value),
        None => match fill_of(table, told, FillColumn::Strict) {
            Some(template) => Some(template.value()),
            None => None,
        },
    }
}

/// Tests that a field has a value, and that this is valid.
fn test_value<H: Hooks>(
    alloc: Global,
    table: &ShapeTable,
    plan: &TypePlanCore,
    hooks: &H,
    told: &FieldPlan,
    own: Option<&Value>,
) -> Result<(), ReflectErrorKind>
    requires told { IsTold table.now plan.now told.now.field.shape.0 told.now.field.variant
        told.now.field.index told.now }
    ensures passing { OnOk result (ask_field Asking.Strict (H.means hooks.now) table.now
        told.now.field (option_map view (option_copied own.entry)) ≡ None) }
    ensures failing { IfErr result (IsCauseOf (ask_field Asking.Strict (H.means hooks.now) table.now
        told.now.field (option_map view (option_copied own.entry)))) }
{
    let Some(value) = value_for(table, told, own) else {
        return Err(ReflectErrorKind::UninitializedField { field: told.field });
    };
    let validators = plan.validators(told.validators);
    run_validators(alloc, hooks, validators, value, told.field)
}

/// Tests that a hole isn't marked to take a default that there isn't.
fn test_mark(table: &ShapeTable, meant: FieldRef) -> Result<(), ReflectErrorKind>
    requires named { IsSome (field_at table.now meant) }
    ensures passing { OnOk result
        (unmet_mark table.now meant.shape.0 (as_fields meant.variant) meant.index ≡ None) }
    ensures failing { IfErr result (λ kind.
        unmet_mark table.now meant.shape.0 (as_fields meant.variant) meant.index ≡ Some kind) }
{
    let Some(field) = table.field(meant) else {
        unreachable!()
    };
    match deferred_fill(table, meant) {
        DeferredFill::Template(_) | DeferredFill::Missing => Ok(()),
        DeferredFill::MarkedWithoutDefault => {
            Err(ReflectErrorKind::DefaultAttrButNoDefaultImpl { shape: field.shape })
        }
    }
}

/// Asks this of a field, of which this is the value, if it is there.
fn test_field<H: Hooks>(
    alloc: Global,
    table: &ShapeTable,
    plan: &TypePlanCore,
    hooks: &H,
    question: Question,
    told: &FieldPlan,
    own: Option<&Value>,
) -> Result<(), ReflectErrorKind>
    requires told { IsTold table.now plan.now told.now.field.shape.0 told.now.field.variant
        told.now.field.index told.now }
    ensures passing { OnOk result (ask_field question (H.means hooks.now) table.now
        told.now.field (option_map view (option_copied own.entry)) ≡ None) }
    ensures failing { IfErr result (IsAnswer question (ask_field question (H.means hooks.now)
        table.now told.now.field (option_map view (option_copied own.entry)))) }
{
    match (question, own) {
        (Question::Strict, _) => test_value(alloc, table, plan, hooks, told, own),
        (Question::Marks | Question::There, Some(_)) => Ok(()),
        (Question::Marks, None) => test_mark(table, told.field),
        (Question::There, None) => {
            Err(ReflectErrorKind::UninitializedField { field: told.field })
        }
    }
}

/// Whether it is known that every field that is there passes, of a struct or of the variant that is
/// selected. No field is looked at.
fn passes_there(
    plan: &TypePlanCore,
    node: NodeId,
    question: Question,
    selected: Option<u32>,
) -> bool
    requires { node.0 < length plan.now.nodes }
    ensures { result ≡ true → (table : Table) → IsChecked table → IsPlanFor table plan.now
        → (means : Meanings) (i : ℕ) (v : Val)
        → ask question means table (shape_of plan.now node) (as_fields selected) i (Some v)
        ≡ None }
{
    match question {
        Question::Strict => !has_validators(plan, node, selected),
        Question::Marks | Question::There => true,
    }
}

/// The value of the child of this number, where there are children and it is there.
fn value_in(children: Option<&Children>, i: usize) -> Option<&Value>
    requires inside { IfSome (option_copied children) (λ cells. i < length cells) }
    ensures { (count : ℕ) → option_map view (option_copied result)
        ≡ value_at (cells_or_holes count (option_copied children.entry)) i }
{
    match children {
        Some(children) => children.value(i),
        None => None,
    }
}

/// Whether it is known that there are children, all of which are there.
fn has_all(children: Option<&Children>) -> bool
    ensures { result ≡ true → (count : ℕ) →
        IsSome (values_of (cells_or_holes count (option_copied children.entry))) }
{
    match children {
        Some(children) => children.are_all_there(),
        None => false,
    }
}

/// Asks this of each field of a struct, or of the variant that is selected. Where no children are
/// begun all fields are holes; where all are there, and each that is passes, none is looked at.
fn test_fields<H: Hooks>(
    alloc: Global,
    table: &ShapeTable,
    plan: &TypePlanCore,
    hooks: &H,
    node: NodeId,
    question: Question,
    selected: Option<u32>,
    children: Option<&Children>,
) -> Result<(), ReflectErrorKind>
    requires checked { IsChecked table.now }
    requires planned { IsPlanFor table.now plan.now }
    requires inside { node.0 < length plan.now.nodes }
    requires full { IsFullAs (def_of table.now (shape_of plan.now node)) (as_fields selected)
        (length (cells_or_holes (child_count table.now (shape_of plan.now node))
        (option_copied children))) }
    ensures passing { OnOk result (first_asked (ask question (H.means hooks.now) table.now
        (shape_of plan.now node) (as_fields selected)) 0
        (cells_or_holes (child_count table.now (shape_of plan.now node))
        (option_copied children.entry)) ≡ None) }
    ensures failing { IfErr result (IsAnswer question (first_asked (ask question (H.means hooks.now)
        table.now (shape_of plan.now node) (as_fields selected)) 0
        (cells_or_holes (child_count table.now (shape_of plan.now node))
        (option_copied children.entry)))) }
{
    if has_all(children) && passes_there(plan, node, question, selected) {
        return Ok(());
    }
    let told = plans_of_fields(table, plan, node, selected);
    for i in 0..told.len() {
        let own = value_in(children, i);
        test_field(alloc, table, plan, hooks, question, &told[i], own)?;
    }
    Ok(())
}

/// Asks this of each field of a struct that was only entered: all of them are holes.
fn test_holes<H: Hooks>(
    alloc: Global,
    table: &ShapeTable,
    plan: &TypePlanCore,
    hooks: &H,
    node: NodeId,
    question: Question,
) -> Result<(), ReflectErrorKind>
    requires checked { IsChecked table.now }
    requires planned { IsPlanFor table.now plan.now }
    requires inside { node.0 < length plan.now.nodes }
    requires described { IsFullAs (def_of table.now (shape_of plan.now node)) (as_fields None)
        (child_count table.now (shape_of plan.now node)) }
    ensures passing { OnOk result (ask_holes question (H.means hooks.now) table.now
        (shape_of plan.now node) ≡ None) }
    ensures failing { IfErr result (IsAnswer question (ask_holes question (H.means hooks.now)
        table.now (shape_of plan.now node))) }
{
    test_fields(alloc, table, plan, hooks, node, question, None, None)
}

/// Tests a place that was only entered, in strict mode.
fn test_entered<H: Hooks>(
    alloc: Global,
    table: &ShapeTable,
    plan: &TypePlanCore,
    hooks: &H,
    node: NodeId,
) -> Result<(), ReflectErrorKind>
    requires checked { IsChecked table.now }
    requires planned { IsPlanFor table.now plan.now }
    requires inside { node.0 < length plan.now.nodes }
    ensures passing { OnOk result (asked Asking.Strict (H.means hooks.now) table.now
        (shape_of plan.now node) entered_body ≡ None) }
    ensures failing { IfErr result (IsCauseOf (asked Asking.Strict (H.means hooks.now) table.now
        (shape_of plan.now node) entered_body)) }
{
    let shape = plan.node(node).shape;
    let Some(entry) = table.get(shape) else {
        return Err(ReflectErrorKind::UninitializedValue { shape });
    };
    match (&entry.def, &entry.preset) {
        (Def::Struct(_) | Def::Option(_), Some(_)) => Ok(()),
        (Def::Struct(_), None) => { test_holes(alloc, table, plan, hooks, node, Question::Strict) }
        (Def::Option(_), None) => Err(ReflectErrorKind::UninitializedValue { shape }),
        (
            Def::Scalar(_)
            | Def::Str
            | Def::Opaque
            | Def::Dynamic
            | Def::Undefined
            | Def::Other
            | Def::Enum(_)
            | Def::Result(..)
            | Def::List(_)
            | Def::Map(..)
            | Def::Set(_)
            | Def::Array(..)
            | Def::Slice(_)
            | Def::Pointer(_),
            _,
        ) => Err(ReflectErrorKind::UninitializedValue { shape }),
    }
}

/// Tests the marks of a place that was only entered: only a struct without a default has fields
/// that are asked.
fn test_entered_marks<H: Hooks>(
    alloc: Global,
    table: &ShapeTable,
    plan: &TypePlanCore,
    hooks: &H,
    node: NodeId,
) -> Result<(), ReflectErrorKind>
    requires checked { IsChecked table.now }
    requires planned { IsPlanFor table.now plan.now }
    requires inside { node.0 < length plan.now.nodes }
    ensures passing { OnOk result (asked Asking.Marks (H.means hooks.now) table.now
        (shape_of plan.now node) entered_body ≡ None) }
    ensures failing { IfErr result (λ kind. asked Asking.Marks (H.means hooks.now) table.now
        (shape_of plan.now node) entered_body ≡ Some kind) }
{
    let Some(entry) = table.get(plan.node(node).shape) else {
        return Ok(());
    };
    match (&entry.def, &entry.preset) {
        (Def::Struct(_), None) => { test_holes(alloc, table, plan, hooks, node, Question::Marks) }
        (Def::Struct(_), Some(_)) => Ok(()),
        (Def::Scalar(_) | Def::Str | Def::Opaque | Def::Dynamic, _) => Ok(()),
        (Def::Undefined | Def::Other | Def::Enum(_) | Def::Result(..), _) => Ok(()),
        (Def::List(_) | Def::Map(..) | Def::Set(_) | Def::Array(..), _) => Ok(()),
        (Def::Slice(_) | Def::Pointer(_) | Def::Option(_), _) => Ok(()),
    }
}

/// Tests that all children of a place are there that has no fields.
fn test_all_there(
    plan: &TypePlanCore,
    node: NodeId,
    children: &Children,
) -> Result<(), ReflectErrorKind>
    requires inside { node.0 < length plan.now.nodes }
    ensures passing { OnOk result (IsSome (values_of children.now)) }
    ensures failing { IfErr result (λ kind. kind ≡ missing_value (shape_of plan.now node)) }
    ensures absent { OnErr result (values_of children.now ≡ None) }
{
    if children.are_all_there() {
        return Ok(());
    }
    Err(ReflectErrorKind::UninitializedValue {
        shape: plan.node(node).shape,
    })
}

/// Asks this of a place whose children are no fields, each given or not there: all have to be there
/// in the end. It is no conversion.
fn test_others(
    plan: &TypePlanCore,
    node: NodeId,
    question: Question,
    children: &Children,
) -> Result<(), ReflectErrorKind>
    requires inside { node.0 < length plan.now.nodes }
    ensures passing { OnOk result ((means : Meanings) (table : Table) (tracker : Tracker)
        → fields_of_tracker tracker ≡ None → is_conversion tracker ≡ false
        → first_asked (ask question means table (shape_of plan.now node) tracker) 0 children.now
        ≡ None) }
    ensures failing { IfErr result (λ kind. (means : Meanings) (table : Table) (tracker : Tracker)
        → fields_of_tracker tracker ≡ None → is_conversion tracker ≡ false
        → first_asked (ask question means table (shape_of plan.now node) tracker) 0 children.now
        ≡ Some kind) }
{
    match question {
        Question::Marks => Ok(()),
        Question::Strict => test_all_there(plan, node, children),
        Question::There => test_all_there(plan, node, children),
    }
}

/// Asks this of a place. Where all children are there and none has a validator, no child is looked
/// at.
pub(crate) fn test_partial<H: Hooks>(
    alloc: Global,
    table: &ShapeTable,
    plan: &TypePlanCore,
    hooks: &H,
    node: NodeId,
    question: Question,
    partial: &PartialValue,
) -> Result<(), ReflectErrorKind>
    requires checked { IsChecked table.now }
    requires planned { IsPlanFor table.now plan.now }
    requires inside { node.0 < length plan.now.nodes }
    requires full { IsFull table.now (shape_of plan.now node) (body_of partial.now) }
    requires unconverted { is_conversion_body (body_of partial.now) ≡ false }
    ensures passing { OnOk result (asked question (H.means hooks.now) table.now
        (shape_of plan.now node) (body_of partial.now) ≡ None) }
    ensures failing { IfErr result (IsAnswer question (asked question (H.means hooks.now) table.now
        (shape_of plan.now node) (body_of partial.now))) }
{
    match partial {
        PartialValue::Entered => match question {
            Question::Strict => test_entered(alloc, table, plan, hooks, node),
            Question::Marks => test_entered_marks(alloc, table, plan, hooks, node),
            Question::There => Err(ReflectErrorKind::UninitializedValue {
                shape: plan.node(node).shape,
            }),
        },
        PartialValue::Whole(_) => Ok(()),
        PartialValue::Begun(tracker, children) => match tracker.fields() {
            Some(selected) => {
                let own = Some(children);
                test_fields(alloc, table, plan, hooks, node, question, selected, own)
            }
            None => test_others(plan, node, question, children),
        },
    }
}
