//! How a deserializer goes about a shape, told from its definition and from the nodes of its
//! children.
ghost use Rattle.std.specs.Prelude.{◌≡◌, IfOk};
ghost use Rattle.fr_shape.specs.Look.{def_of};
ghost use Rattle.fr_plan.specs.Nodes.{has_pointee, is_transparent, is_converted, is_built_from, struct_strategy, is_byte, strategy_by_kind, own_strategy, strategy_of};
ghost use Rattle.fr_plan.specs.Plans.{nth_node, scalar_of};

use crate::nodes::{DeserStrategy, NodeId};
use crate::outlines::{Outline, Role};
use crate::walking::has_proxy;
use fr_shape::{Def, OutOfMemory, ScalarKind, Shape, ShapeId, ShapeTable, StructDef, StructKind};

/// The node at this place; node 0 past the end, which no definition asks for.
pub(crate) fn nth_node(nodes: &[NodeId], i: usize) -> NodeId
    ensures { result ≡ nth_node nodes.now i }
{
    match nodes.get(i) {
        Some(node) => *node,
        None => NodeId(0),
    }
}

/// Whether an opaque or undefined shape is built from another.
pub(crate) fn is_built_from(shape: &Shape) -> bool
    ensures { result ≡ is_built_from shape.now }
{
    shape.builder.is_some() && shape.convert.is_some()
}

fn has_pointee(def: &Def) -> bool
    ensures { result ≡ has_pointee def.now }
{
    match def {
        Def::Pointer(pointer) => pointer.pointee.is_some(),
        _ => false,
    }
}

fn is_transparent(shape: &Shape) -> bool
    ensures { result ≡ is_transparent shape.now.def shape.now }
{
    match &shape.def {
        Def::Opaque | Def::Undefined => is_built_from(shape),
        Def::Other => true,
        _ => false,
    }
}

/// Whether the shape is converted from what it wraps, or from what it is built from.
fn is_converted(shape: &Shape) -> bool
    ensures { result ≡ is_converted shape.now }
{
    shape.convert.is_some() && (shape.inner.is_some() || is_transparent(shape))
}

fn is_byte(table: &ShapeTable, id: ShapeId) -> bool
    ensures { result ≡ is_byte (scalar_of (def_of table.now id.0)) }
{
    matches!(scalar_of(table, id), Some(ScalarKind::U8))
}

/// The kind of a scalar.
pub(crate) fn scalar_of(table: &ShapeTable, id: ShapeId) -> Option<ScalarKind>
    ensures { result ≡ scalar_of (def_of table.now id.0) }
{
    match &table.get(id)?.def {
        Def::Scalar(kind) => Some(*kind),
        _ => None,
    }
}

fn struct_strategy(described: &StructDef, transparent: bool) -> Result<DeserStrategy, OutOfMemory>
    ensures { IfOk result (λ strategy. strategy
        ≡ struct_strategy described.now described.now.kind transparent) }
{
    match described.kind {
        StructKind::Struct | StructKind::Unit => Ok(DeserStrategy::Struct),
        StructKind::Tuple | StructKind::TupleStruct => {
            let Ok(field_count) = u32::try_from(described.fields.len()) else {
                return Err(OutOfMemory);
            };
            Ok(DeserStrategy::Tuple {
                field_count,
                is_single_field_transparent: field_count == 1 && transparent,
            })
        }
    }
}

/// The strategy by kind alone.
fn strategy_by_kind(
    table: &ShapeTable,
    nodes: &[NodeId],
    shape: &Shape,
) -> Result<DeserStrategy, OutOfMemory>
    ensures { IfOk result (λ strategy. strategy
        ≡ strategy_by_kind table.now nodes.now shape.now shape.now.def) }
{
    let first = nth_node(nodes, 0);
    let second = nth_node(nodes, 1);
    Ok(match &shape.def {
        Def::Scalar(kind) => DeserStrategy::Scalar {
            scalar_type: Some(*kind),
            is_from_str: true,
        },
        Def::Str => DeserStrategy::Scalar {
            scalar_type: None,
            is_from_str: true,
        },
        Def::Opaque | Def::Undefined => DeserStrategy::Opaque,
        Def::Struct(described) => return struct_strategy(described, shape.transparent),
        Def::Enum(_) => DeserStrategy::Enum,
        Def::Option(_) => DeserStrategy::Option { some_node: first },
        Def::Result(_, _) => DeserStrategy::Result {
            ok_node: first,
            err_node: second,
        },
        Def::List(t) => DeserStrategy::List {
            item_node: first,
            is_byte_vec: is_byte(table, *t),
        },
        Def::Map(_, _) => DeserStrategy::Map {
            key_node: first,
            value_node: second,
        },
        Def::Set(_) => DeserStrategy::Set { item_node: first },
        Def::Array(_, len) => DeserStrategy::Array {
            len: *len,
            item_node: first,
        },
        Def::Pointer(_) => DeserStrategy::OpaquePointer,
        Def::Slice(_) => DeserStrategy::List {
            item_node: first,
            is_byte_vec: false,
        },
        Def::Dynamic => DeserStrategy::DynamicValue,
        Def::Other => DeserStrategy::TransparentConvert { inner_node: first },
    })
}

/// The strategy of a shape's own node.
fn own_strategy(
    table: &ShapeTable,
    nodes: &[NodeId],
    shape: &Shape,
) -> Result<DeserStrategy, OutOfMemory>
    ensures { IfOk result (λ strategy. strategy ≡ own_strategy table.now nodes.now shape.now) }
{
    let first = nth_node(nodes, 0);
    if has_proxy(&shape.proxy, &shape.format_proxies) {
        return Ok(DeserStrategy::ContainerProxy);
    }
    if has_pointee(&shape.def) {
        return Ok(DeserStrategy::Pointer {
            pointee_node: first,
        });
    }
    if shape.metadata {
        return Ok(DeserStrategy::MetadataContainer);
    }
    if is_converted(shape) {
        return Ok(DeserStrategy::TransparentConvert { inner_node: first });
    }
    strategy_by_kind(table, nodes, shape)
}

/// The strategy of the node that has this outline.
pub(crate) fn strategy_of(
    table: &ShapeTable,
    outline: &Outline,
) -> Result<DeserStrategy, OutOfMemory>
    ensures { IfOk result (λ strategy. strategy
        ≡ strategy_of table.now outline.now outline.now.role) }
{
    let back_reference = DeserStrategy::BackRef {
        target: outline.shape,
    };
    match outline.role {
        Role::Own => match table.get(outline.shape) {
            Some(shape) => own_strategy(table, outline.children.as_slice(), shape),
            None => Ok(back_reference),
        },
        Role::BackRef => Ok(back_reference),
        Role::FieldProxy(_) => Ok(DeserStrategy::FieldProxy),
    }
}
