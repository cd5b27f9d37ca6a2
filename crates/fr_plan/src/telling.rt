//! The nodes of a plan, told from their outlines.
ghost use Rattle.std.specs.Prelude.{◌≡◌, [], map, slice_get, Some, None, IfOk};
ghost use Rattle.std.specs.List.{zip};
ghost use Rattle.fr_shape.specs.declared.shape.FormatProxy.{FormatProxy as Formatted};
ghost use Rattle.fr_shape.specs.Checked.{IsChecked};
ghost use Rattle.fr_plan.specs.Lists.{ListsGrow};
ghost use Rattle.fr_plan.specs.Nodes.{AreProxyNodes, AreNodes, IsNode, IsKindBy, IsKindOf, opaque_kind, pointer_kind, proxies_in};

use crate::nodes::{NodeId, ProxyNodes, TypePlanNode, TypePlanNodeKind};
use crate::outlines::{Outline, Role};
use crate::plan_lists::PlanLists;
use crate::strategies::{is_built_from, nth_node, strategy_of};
use crate::variants::{enum_plan, struct_plan};
use fr_arena::{Arena, Idx};
use fr_rules::law_lookups_stay;
use fr_shape::{
    Def, FormatProxy, Items, OutOfMemory, PointerDef, ProxyDef, Shape, ShapeId, ShapeTable, Text,
};
use smallvec::SmallVec;
use std::alloc::Global;

fn opaque_kind(shape: &Shape) -> TypePlanNodeKind
    ensures { result ≡ opaque_kind shape.now }
{
    if is_built_from(shape) {
        TypePlanNodeKind::Transparent
    } else {
        TypePlanNodeKind::Opaque
    }
}

fn pointer_kind(pointer: &PointerDef) -> TypePlanNodeKind
    ensures { result ≡ pointer_kind pointer.now }
{
    match pointer.pointee {
        Some(_) => TypePlanNodeKind::Pointer,
        None => TypePlanNodeKind::OpaquePointer,
    }
}

/// The kind of a shape's own node, whose children have these nodes.
fn own_kind(
    alloc: Global,
    table: &ShapeTable,
    id: ShapeId,
    shape: &Shape,
    nodes: &[NodeId],
    lists: &mut PlanLists,
) -> Result<TypePlanNodeKind, OutOfMemory>
    requires checked { IsChecked table.now }
    requires there { slice_get table.now id.0 ≡ Some shape.now }
    ensures told { IfOk result (IsKindBy table.now lists.new id nodes.now shape.now shape.now.def) }
    ensures grown { ListsGrow lists.old lists.new }
{
    match &shape.def {
        Def::Scalar(_) | Def::Str => Ok(TypePlanNodeKind::Scalar),
        Def::Option(_) => Ok(TypePlanNodeKind::Option),
        Def::List(_) => Ok(TypePlanNodeKind::List),
        Def::Set(_) => Ok(TypePlanNodeKind::Set),
        Def::Array(_, len) => Ok(TypePlanNodeKind::Array { len: *len }),
        Def::Slice(_) => Ok(TypePlanNodeKind::Slice),
        Def::Result(_, _) => Ok(TypePlanNodeKind::Result),
        Def::Map(_, _) => Ok(TypePlanNodeKind::Map),
        Def::Pointer(pointer) => Ok(pointer_kind(pointer)),
        Def::Dynamic => Ok(TypePlanNodeKind::DynamicValue),
        Def::Struct(described) => {
            let plan = struct_plan(alloc, table, id, shape, described, nodes, lists)?;
            Ok(TypePlanNodeKind::Struct(plan))
        }
        Def::Enum(described) => {
            let plan = enum_plan(alloc, table, id, described, nodes, lists)?;
            Ok(TypePlanNodeKind::Enum(plan))
        }
        Def::Opaque | Def::Undefined => Ok(opaque_kind(shape)),
        Def::Other => Ok(TypePlanNodeKind::Transparent),
    }
}

/// The kind of the node that has this outline.
fn kind_of(
    alloc: Global,
    table: &ShapeTable,
    outline: &Outline,
    lists: &mut PlanLists,
) -> Result<TypePlanNodeKind, OutOfMemory>
    requires checked { IsChecked table.now }
    ensures told { IfOk result (IsKindOf table.now lists.new outline.now outline.now.role) }
    ensures grown { ListsGrow lists.old lists.new }
{
    let id = outline.shape;
    match outline.role {
        Role::Own => match table.get(id) {
            Some(shape) => own_kind(alloc, table, id, shape, outline.children.as_slice(), lists),
            None => Ok(TypePlanNodeKind::BackRef(id)),
        },
        Role::BackRef | Role::FieldProxy(_) => Ok(TypePlanNodeKind::BackRef(id)),
    }
}

/// The nodes of these proxies, of which `nodes` has that of the proxy for all formats first, where
/// there is one.
fn proxy_nodes(
    alloc: Global,
    proxy: &Option<ProxyDef>,
    format_proxies: &Items<FormatProxy>,
    nodes: &[NodeId],
) -> Result<ProxyNodes, OutOfMemory>
    ensures { IfOk result (AreProxyNodes
        (record { generic = proxy.now; by_format = format_proxies.now }) nodes.now) }
{
    match proxy {
        Some(_) => Ok(ProxyNodes {
            generic: Some(nth_node(nodes, 0)),
            format_specific: nodes_by_format(alloc, format_proxies, &nodes[nodes.len().min(1)..])?,
        }),
        None => Ok(ProxyNodes {
            generic: None,
            format_specific: nodes_by_format(alloc, format_proxies, nodes)?,
        }),
    }
}

/// Each format beside its node.
fn nodes_by_format(
    alloc: Global,
    format_proxies: &Items<FormatProxy>,
    nodes: &[NodeId],
) -> Result<SmallVec<(Text, NodeId), 2>, OutOfMemory>
    ensures { IfOk result (λ by_format. by_format.items
        ≡ zip (map (λ (formatted : Formatted). formatted.format) format_proxies.now) nodes.now) }
{
    let formats = format_proxies.as_slice();
    let mut by_format = SmallVec::new(alloc);
    for i in 0..formats.len().min(nodes.len()) {
        by_format.push((Text::new(alloc, formats[i].format.as_str())?, nodes[i]))?;
    }
    Ok(by_format)
}

/// The nodes of the proxies of the node that has this outline.
fn proxies_of(
    alloc: Global,
    table: &ShapeTable,
    outline: &Outline,
) -> Result<ProxyNodes, OutOfMemory>
    ensures { IfOk result
        (AreProxyNodes (proxies_in table.now outline.now outline.now.role) outline.now.sources) }
{
    let nodes = outline.sources.as_slice();
    match outline.role {
        Role::Own => match table.get(outline.shape) {
            Some(shape) => proxy_nodes(alloc, &shape.proxy, &shape.format_proxies, nodes),
            None => Ok(no_proxies(alloc)),
        },
        Role::BackRef => Ok(no_proxies(alloc)),
        Role::FieldProxy(field) => match table.field(field) {
            Some(field) => proxy_nodes(alloc, &field.proxy, &field.format_proxies, nodes),
            None => Ok(no_proxies(alloc)),
        },
    }
}

fn no_proxies(alloc: Global) -> ProxyNodes
    ensures generic { result.generic ≡ None }
    ensures formats { result.format_specific.items ≡ [] }
{
    ProxyNodes {
        generic: None,
        format_specific: SmallVec::new(alloc),
    }
}

/// The node that has this outline.
fn node_of(
    alloc: Global,
    table: &ShapeTable,
    outline: &Outline,
    lists: &mut PlanLists,
) -> Result<TypePlanNode, OutOfMemory>
    requires checked { IsChecked table.now }
    ensures told { IfOk result (IsNode table.now lists.new outline.now) }
    ensures grown { ListsGrow lists.old lists.new }
{
    Ok(TypePlanNode {
        shape: outline.shape,
        kind: kind_of(alloc, table, outline, lists)?,
        strategy: strategy_of(table, outline)?,
        has_default: table.preset(outline.shape).is_some(),
        proxies: proxies_of(alloc, table, outline)?,
    })
}

/// The nodes that have these outlines.
pub(crate) fn nodes_of(
    alloc: Global,
    table: &ShapeTable,
    outlines: &Arena<Outline>,
    lists: &mut PlanLists,
) -> Result<Arena<TypePlanNode>, OutOfMemory>
    requires checked { IsChecked table.now }
    ensures told { IfOk result (AreNodes table.now lists.new outlines.now) }
{
    law_lookups_stay();
    let mut nodes = Arena::new(alloc);
    for i in 0..outlines.len() {
        let outline = outlines.get(Idx::new(i as u32));
        let node = node_of(alloc, table, outline, lists)?;
        let Ok(_) = nodes.alloc(node) else {
            return Err(OutOfMemory);
        };
    }
    Ok(nodes)
}
