//! Filling the holes of a place with copies of their templates, by the rules of either column.
ghost use Rattle.std.specs.Prelude.{◌<◌, ◌≡◌};
ghost use Rattle.fr_frame.specs.Common.{AreUnplaced, IfOk, IsChecked, IsClosed, IsFull, IsFullAs, IsNamed, IsPlanFor, None, OnErr, OnOk, as_fields, body_occurs, body_of, cells_occur, column_of, def_of, defaulted, defaulted_cells, defaulted_nth, defaulted_struct, entered_body, field_fill, length, shape_of, takes_template, true, values_of, ℕ};

use crate::field_plans::{FillColumn, copy_fill, plans_of_fields};
use crate::partial_values::put_first;
use crate::places::{PartialValue, Tracker};
use fr_plan::{FieldPlan, NodeId, TypePlanCore};
use fr_shape::{Def, OutOfMemory, ShapeTable, Value, clone_template};
use fr_values::Children;
use std::alloc::Global;

/// Puts its fill at a field, where that isn't there and has one.
fn fill_hole(
    alloc: Global,
    table: &ShapeTable,
    told: &FieldPlan,
    column: FillColumn,
    i: usize,
    children: &mut Children,
) -> Result<(), OutOfMemory>
    requires checked { IsChecked table.now }
    requires named { IsNamed table.now told.now }
    requires inside { i < length children.old }
    requires closed { AreUnplaced children.old }
    ensures filled { OnOk result (children.new ≡ defaulted_nth
        (field_fill (column_of column) table.now told.now.field) i children.old) }
    ensures refused { OnErr result (children.new ≡ children.old) }
{
    if children.value(i).is_some() {
        return Ok(());
    }
    if let Some(copy) = copy_fill(alloc, table, told, column)? {
        children.put(i, copy);
    }
    Ok(())
}

/// Puts its fill at each field that isn't there and has one, of a struct or of the variant that is
/// selected. Only these need memory.
fn fill_holes(
    alloc: Global,
    table: &ShapeTable,
    plan: &TypePlanCore,
    node: NodeId,
    column: FillColumn,
    selected: Option<u32>,
    children: &mut Children,
) -> Result<(), OutOfMemory>
    requires checked { IsChecked table.now }
    requires planned { IsPlanFor table.now plan.now }
    requires inside { node.0 < length plan.now.nodes }
    requires full { IsFullAs (def_of table.now (shape_of plan.now node)) (as_fields selected)
        (length children.old) }
    requires closed { AreUnplaced children.old }
    ensures filled { OnOk result (children.new ≡ defaulted_cells (column_of column) table.now
        (shape_of plan.now node) (as_fields selected) 0 children.old) }
    ensures memory { OnErr result (values_of children.old ≡ None) }
    ensures tokens { (t : ℕ) → cells_occur children.new t ≡ cells_occur children.old t }
    ensures closed { AreUnplaced children.new }
{
    if children.are_all_there() {
        return Ok(());
    }
    let told = plans_of_fields(table, plan, node, selected);
    for i in 0..told.len() {
        fill_hole(alloc, table, &told[i], column, i, children)?;
    }
    Ok(())
}

/// A struct of so many fields, none of which was there, each with its fill, where it has one.
fn struct_of_fills(
    alloc: Global,
    table: &ShapeTable,
    plan: &TypePlanCore,
    node: NodeId,
    column: FillColumn,
    count: usize,
) -> Result<PartialValue, OutOfMemory>
    requires checked { IsChecked table.now }
    requires planned { IsPlanFor table.now plan.now }
    requires inside { node.0 < length plan.now.nodes }
    requires full { IsFullAs (def_of table.now (shape_of plan.now node)) (as_fields None) count }
    ensures filled { IfOk result (λ made. body_of made
        ≡ defaulted_struct (column_of column) table.now (shape_of plan.now node)) }
{
    let mut children = Children::none_yet(alloc, count)?;
    fill_holes(alloc, table, plan, node, column, None, &mut children)?;
    Ok(PartialValue::Begun(Tracker::Fields(None), children))
}

/// What becomes of a place that was only entered.
fn fill_entered(
    alloc: Global,
    table: &ShapeTable,
    plan: &TypePlanCore,
    node: NodeId,
    column: FillColumn,
) -> Result<PartialValue, OutOfMemory>
    requires checked { IsChecked table.now }
    requires planned { IsPlanFor table.now plan.now }
    requires inside { node.0 < length plan.now.nodes }
    ensures filled { IfOk result (λ made. body_of made
        ≡ defaulted (column_of column) table.now (shape_of plan.now node) entered_body) }
{
    let Some(entry) = table.get(plan.node(node).shape) else {
        return Ok(PartialValue::Entered);
    };
    match (&entry.def, &entry.preset) {
        (Def::Option(_), Some(_)) => Ok(PartialValue::Whole(Value::None)),
        (Def::Struct(_), Some(template)) => {
            Ok(PartialValue::Whole(clone_template(alloc, template.value())?))
        }
        (Def::Struct(described), None) => {
            struct_of_fills(alloc, table, plan, node, column, described.fields.len())
        }
        (Def::Option(_), None) => Ok(PartialValue::Entered),
        (Def::Scalar(_) | Def::Str | Def::Opaque | Def::Dynamic, _) => Ok(PartialValue::Entered),
        (Def::Undefined | Def::Other | Def::Enum(_) | Def::Result(..), _) => Ok(
            PartialValue::Entered,
        ),
        (Def::List(_) | Def::Map(..) | Def::Set(_) | Def::Array(..), _) => Ok(
            PartialValue::Entered,
        ),
        (Def::Slice(_) | Def::Pointer(_), _) => Ok(PartialValue::Entered),
    }
}

/// Lets a place, all of whose children are given or not there, take its fills by the rules of this
/// column. One that is whole, or all of whose children are there, stays as it is.
pub(crate) fn fill(
    alloc: Global,
    table: &ShapeTable,
    plan: &TypePlanCore,
    node: NodeId,
    column: FillColumn,
    partial: &mut PartialValue,
) -> Result<(), OutOfMemory>
    requires checked { IsChecked table.now }
    requires planned { IsPlanFor table.now plan.now }
    requires inside { node.0 < length plan.now.nodes }
    requires full { IsFull table.now (shape_of plan.now node) (body_of partial.old) }
    requires closed { IsClosed (body_of partial.old) }
    ensures filled { OnOk result (body_of partial.new ≡ defaulted (column_of column) table.now
        (shape_of plan.now node) (body_of partial.old)) }
    ensures memory { OnErr result (takes_template (body_of partial.old) ≡ true) }
    ensures tokens { (t : ℕ) →
        body_occurs (body_of partial.new) t ≡ body_occurs (body_of partial.old) t }
    ensures closed { IsClosed (body_of partial.new) }
{
    match partial {
        PartialValue::Entered => {
            let filled = fill_entered(alloc, table, plan, node, column)?;
            put_first(partial, filled);
            Ok(())
        }
        PartialValue::Whole(_) => Ok(()),
        PartialValue::Begun(tracker, children) => match tracker.fields() {
            Some(selected) => fill_holes(alloc, table, plan, node, column, selected, children),
            None => Ok(()),
        },
    }
}
