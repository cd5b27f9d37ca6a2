//! The report on a plan.
ghost use Rattle.std.specs.Prelude.{◌≡◌, ℕ, map, string_bytes, IfOk};
ghost use Rattle.serde_json.specs.Data.{array};
ghost use Rattle.serde_json.specs.View.{view as data_of, items_of};
ghost use Rattle.fr_shape.specs.Look.{Table};
ghost use Rattle.fr_script.specs.Answers.{plan_outcome};
ghost use Rattle.fr_script.specs.PlanReports.{node_kind_name, node_line, strategy_name};
ghost use Rattle.fr_script.specs.Reports.{line_data, outcome_data, plan_error_data, report};

use crate::plan_answer::PlanAnswer;
use crate::report::{json_of_error, json_of_fault, line_of};
use fr_doc::name_of_shape;
use fr_plan::{DeserStrategy, NodeId, TypePlanCore, TypePlanNode, TypePlanNodeKind};
use fr_shape::{PlanFault, ShapeTable};
use serde_json::{Value as Json, json};
use std::alloc::{AllocError, Global};

fn name_of_node_kind(kind: &TypePlanNodeKind) -> &'static str
    ensures { result.now ≡ node_kind_name kind.now }
{
    match kind {
        TypePlanNodeKind::Scalar => "Scalar",
        TypePlanNodeKind::Struct(_) => "Struct",
        TypePlanNodeKind::Enum(_) => "Enum",
        TypePlanNodeKind::Option => "Option",
        TypePlanNodeKind::Result => "Result",
        TypePlanNodeKind::List => "List",
        TypePlanNodeKind::Slice => "Slice",
        TypePlanNodeKind::Map => "Map",
        TypePlanNodeKind::Set => "Set",
        TypePlanNodeKind::Array { .. } => "Array",
        TypePlanNodeKind::Pointer => "Pointer",
        TypePlanNodeKind::OpaquePointer => "OpaquePointer",
        TypePlanNodeKind::Opaque => "Opaque",
        TypePlanNodeKind::DynamicValue => "DynamicValue",
        TypePlanNodeKind::Transparent => "Transparent",
        TypePlanNodeKind::BackRef(_) => "BackRef",
    }
}

fn name_of_strategy(strategy: &DeserStrategy) -> &'static str
    ensures { result.now ≡ strategy_name strategy.now }
{
    match strategy {
        DeserStrategy::ContainerProxy => "ContainerProxy",
        DeserStrategy::FieldProxy => "FieldProxy",
        DeserStrategy::Pointer { .. } => "Pointer",
        DeserStrategy::OpaquePointer => "OpaquePointer",
        DeserStrategy::Opaque => "Opaque",
        DeserStrategy::TransparentConvert { .. } => "TransparentConvert",
        DeserStrategy::Scalar { .. } => "Scalar",
        DeserStrategy::Struct => "Struct",
        DeserStrategy::Tuple { .. } => "Tuple",
        DeserStrategy::Enum => "Enum",
        DeserStrategy::Option { .. } => "Option",
        DeserStrategy::Result { .. } => "Result",
        DeserStrategy::List { .. } => "List",
        DeserStrategy::Map { .. } => "Map",
        DeserStrategy::Set { .. } => "Set",
        DeserStrategy::Array { .. } => "Array",
        DeserStrategy::DynamicValue => "DynamicValue",
        DeserStrategy::MetadataContainer => "MetadataContainer",
        DeserStrategy::BackRef { .. } => "BackRef",
    }
}

/// The JSON of a node.
fn json_of_node(alloc: Global, table: &ShapeTable, node: &TypePlanNode) -> Result<Json, AllocError>
    ensures { IfOk result (λ json. data_of json ≡ line_data (node_line table.now node.now)) }
{
    let kind = name_of_node_kind(&node.kind);
    let shape = name_of_shape(table, node.shape);
    let strategy = name_of_strategy(&node.strategy);
    json!(in alloc; { "kind": kind, "shape": shape, "strategy": strategy })
}

/// The nodes of a plan as an array, in the order in which they were built.
fn json_of_nodes(alloc: Global, table: &ShapeTable, plan: &TypePlanCore) -> Result<Json, AllocError>
    ensures { IfOk result (λ json. data_of json
        ≡ array (items_of (map line_data (map (node_line table.now) plan.now.nodes)))) }
{
    let Ok(count) = u32::try_from(plan.node_count()) else {
        return Err(AllocError);
    };
    let mut items = Vec::new(alloc);
    for id in 0..count {
        items.push(json_of_node(alloc, table, plan.node(NodeId(id)))?)?;
    }
    Ok(Json::Array(items))
}

/// The JSON of why a root can't be planned.
fn json_of_plan_fault(alloc: Global, fault: &PlanFault) -> Result<Json, AllocError>
    ensures { IfOk result (λ json. data_of json ≡ plan_error_data fault.now) }
{
    json_of_error(alloc, 0, fault.text(), "Alloc", "")
}

fn json_of_plan_answer(alloc: Global, answer: &PlanAnswer) -> Result<Json, AllocError>
    ensures { IfOk result (λ json. (table : Table) (root : ℕ)
        → data_of json ≡ outcome_data table root (plan_outcome answer.now)) }
{
    match answer {
        PlanAnswer::Fault(fault) => json_of_fault(alloc, fault),
        PlanAnswer::Planned(table, plan) => {
            let nodes = json_of_nodes(alloc, table, plan)?;
            let root = plan.root_id().0;
            json!(in alloc; { "nodes": nodes, "root": root })
        }
        PlanAnswer::Refused(refused) => {
            let error = json_of_plan_fault(alloc, &refused.operation)?;
            json!(in alloc; { "error": error, "released": [] })
        }
    }
}

/// The report on a plan: one JSON object and a line feed. No table tells more names in it.
pub fn plan_report_of(alloc: Global, answer: &PlanAnswer) -> Result<String, AllocError>
    ensures report { IfOk result (λ text. (table : Table) (root : ℕ)
        → string_bytes text ≡ report table root (plan_outcome answer.now)) }
{
    let json = json_of_plan_answer(alloc, answer)?;
    line_of(alloc, &json)
}
