//! The plans of fields, with their validators.
ghost use Rattle.std.specs.Prelude.{◌≡◌, ℕ, List, map, slice_get, Some, IfOk};
ghost use Rattle.fr_plan.specs.declared.nodes.NodeId.{NodeId as Node};
ghost use Rattle.fr_shape.specs.Look.{def_of, field_at};
ghost use Rattle.fr_plan.specs.Build.{fields_from};
ghost use Rattle.fr_plan.specs.Lists.{ListsGrow};
ghost use Rattle.fr_plan.specs.Plans.{Names, NamesFields, AreFieldsOf, IsFieldPlan, nth_node, kind_of, precomputed, validators_of, has_flatten};

use crate::nodes::NodeId;
use crate::plan_lists::PlanLists;
use crate::plans::{FieldPlan, FieldRange, ValidatorRange};
use crate::strategies::{nth_node, scalar_of};
use crate::walking::Container;
use fr_rules::{PrecomputedValidator, ValidatorKind, determine_fill_rule};
use fr_shape::{Field, FieldRef, OutOfMemory, ScalarKind, ShapeId, ShapeTable, Text, ValidatorDef};
use std::alloc::Global;

/// The kind of the scalar; any serves for another shape.
fn kind_of(table: &ShapeTable, id: ShapeId) -> ScalarKind
    ensures { result ≡ kind_of (def_of table.now id.0) }
{
    match scalar_of(table, id) {
        Some(kind) => kind,
        None => ScalarKind::String,
    }
}

/// The validator, made ready for a scalar of this kind.
fn precomputed(
    alloc: Global,
    kind: ScalarKind,
    validator: &ValidatorDef,
) -> Result<PrecomputedValidator, OutOfMemory>
    ensures { IfOk result (λ made. made ≡ precomputed kind validator.now) }
{
    let kind = match validator {
        ValidatorDef::Custom(hook) => ValidatorKind::Custom(*hook),
        ValidatorDef::Min(low) => ValidatorKind::Min(*low, kind),
        ValidatorDef::Max(high) => ValidatorKind::Max(*high, kind),
        ValidatorDef::MinLength(low) => ValidatorKind::MinLength(*low, kind),
        ValidatorDef::MaxLength(high) => ValidatorKind::MaxLength(*high, kind),
        ValidatorDef::Url => ValidatorKind::Url(kind),
        ValidatorDef::Regex(pattern) => {
            ValidatorKind::Regex(Text::new(alloc, pattern.as_str())?, kind)
        }
        ValidatorDef::Contains(needle) => {
            ValidatorKind::Contains(Text::new(alloc, needle.as_str())?, kind)
        }
    };
    Ok(PrecomputedValidator { kind })
}

/// The validators of a field, put behind the others.
fn validators_of(
    alloc: Global,
    table: &ShapeTable,
    field: &Field,
    lists: &mut PlanLists,
) -> Result<ValidatorRange, OutOfMemory>
    ensures added { IfOk result (λ range.
        Names lists.new.validators range (validators_of table.now field.now)) }
    ensures grown { ListsGrow lists.old lists.new }
{
    let kind = kind_of(table, field.shape);
    let mut validators = Vec::new(alloc);
    for validator in field.validators.as_slice() {
        validators.push(precomputed(alloc, kind, validator)?)?;
    }
    lists.add_validators(validators)
}

/// The plan of a field, whose node is `type_node`.
fn field_plan(
    alloc: Global,
    table: &ShapeTable,
    meant: FieldRef,
    field: &Field,
    type_node: NodeId,
    lists: &mut PlanLists,
) -> Result<FieldPlan, OutOfMemory>
    requires meant { field_at table.now meant ≡ Some field.now }
    ensures told { (nodes : List Node) → type_node ≡ nth_node nodes meant.index
        → IfOk result (IsFieldPlan table.now lists.new nodes
        (record { meant = meant; field = field.now })) }
    ensures grown { ListsGrow lists.old lists.new }
{
    let validators = validators_of(alloc, table, field, lists)?;
    Ok(FieldPlan {
        field: meant,
        is_flattened: field.flatten,
        type_node,
        index: meant.index,
        field_shape: field.shape,
        fill_rule: determine_fill_rule(table, meant),
        validators,
    })
}

/// The plans of the fields of a struct or of a variant, put behind the others. `nodes` are those of
/// the fields.
pub(crate) fn field_plans(
    alloc: Global,
    table: &ShapeTable,
    of: Container,
    fields: &[Field],
    nodes: &[NodeId],
    lists: &mut PlanLists,
) -> Result<FieldRange, OutOfMemory>
    requires meant { AreFieldsOf table.now of.shape of.variant fields.now }
    ensures told { IfOk result (NamesFields table.now lists.new nodes.now
        (fields_from of.shape of.variant 0 fields.now)) }
    ensures grown { ListsGrow lists.old lists.new }
{
    let mut plans = Vec::with_capacity(alloc, fields.len())?;
    for i in 0..fields.len() {
        let Ok(index) = u32::try_from(i) else {
            return Err(OutOfMemory);
        };
        let meant = FieldRef {
            shape: of.shape,
            variant: of.variant,
            index,
        };
        let type_node = nth_node(nodes, i);
        plans.push(field_plan(alloc, table, meant, &fields[i], type_node, lists)?)?;
    }
    lists.add_fields(plans)
}

/// Whether a field's entries are read as those of its container.
pub(crate) fn has_flatten(fields: &[Field]) -> bool
    ensures { result ≡ has_flatten fields.now }
{
    fields.iter().any(|field| field.flatten)
}
