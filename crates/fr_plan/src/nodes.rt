//! The nodes of a plan: what is known of each shape before a value of it is built.

ghost use Rattle.std.specs.Prelude.{◌≡◌, not};
ghost use Rattle.std.specs.Option.{option_copied};
ghost use Rattle.fr_plan.specs.ProxyLookups.{node_for, has_any};

use crate::plans::{EnumPlan, StructPlan};
use fr_arena::Idx;
use fr_shape::{ScalarKind, ShapeId, Text};
use smallvec::SmallVec;

/// The number of a node in its plan, counted in the order in which nodes are built.
#[derive(Clone, Copy, PartialEq, Eq, Hash, Default)]
pub struct NodeId(pub u32);

impl NodeId {
    /// The node of this index.
    pub fn of(idx: Idx<TypePlanNode>) -> NodeId
        ensures number { result.0 ≡ idx }
    {
        NodeId(idx.raw())
    }

    /// The index of the node.
    pub fn idx(self) -> Idx<TypePlanNode>
        ensures number { result ≡ self.0 }
    {
        Idx::new(self.0)
    }
}

/// What a plan says of one shape. A shape that is met inside itself, or in a field with proxies,
/// has further nodes that refer back to its own.
#[derive(Drop)]
pub struct TypePlanNode {
    pub shape: ShapeId,
    pub kind: TypePlanNodeKind,
    pub strategy: DeserStrategy,
    pub has_default: bool,
    pub proxies: ProxyNodes,
}

/// The nodes of the shapes that stand in for one: the one for all formats, and those for one format
/// each, by its name.
#[derive(Drop)]
pub struct ProxyNodes {
    pub generic: Option<NodeId>,
    pub format_specific: SmallVec<(Text, NodeId), 2>,
}

/// What a shape is, with the plans of its fields and variants. `BackRef` refers to the own node of
/// its shape.
#[derive(Drop)]
pub enum TypePlanNodeKind {
    Scalar,
    Struct(StructPlan),
    Enum(EnumPlan),
    Option,
    Result,
    List,
    Slice,
    Map,
    Set,
    Array { len: u32 },
    Pointer,
    OpaquePointer,
    Opaque,
    DynamicValue,
    Transparent,
    BackRef(ShapeId),
}

/// How a deserializer goes about a shape, with the nodes that it needs for that.
#[derive(Drop)]
pub enum DeserStrategy {
    ContainerProxy,
    FieldProxy,
    Pointer {
        pointee_node: NodeId,
    },
    OpaquePointer,
    Opaque,
    TransparentConvert {
        inner_node: NodeId,
    },
    Scalar {
        scalar_type: Option<ScalarKind>,
        is_from_str: bool,
    },
    Struct,
    Tuple {
        field_count: u32,
        is_single_field_transparent: bool,
    },
    Enum,
    Option {
        some_node: NodeId,
    },
    Result {
        ok_node: NodeId,
        err_node: NodeId,
    },
    List {
        item_node: NodeId,
        is_byte_vec: bool,
    },
    Map {
        key_node: NodeId,
        value_node: NodeId,
    },
    Set {
        item_node: NodeId,
    },
    Array {
        len: u32,
        item_node: NodeId,
    },
    DynamicValue,
    MetadataContainer,
    BackRef {
        target: ShapeId,
    },
}

impl ProxyNodes {
    /// The node for this format: the first of that name, else the one for all formats.
    pub fn node_for(&self, format: Option<&str>) -> Option<NodeId>
        ensures node { result ≡ node_for self.now (option_copied format.entry) }
    {
        let Some(format) = format else {
            return self.generic;
        };
        for entry in self.format_specific.as_slice() {
            if entry.0.as_str() == format {
                return Some(entry.1);
            }
        }
        self.generic
    }

    /// Whether there is a proxy, of whatever format.
    pub fn has_any(&self) -> bool
        ensures any { result ≡ has_any self.now }
    {
        match (&self.generic, self.format_specific.as_slice()) {
            (None, []) => false,
            (None, [_, ..]) | (Some(_), _) => true,
        }
    }

    /// Whether there is none.
    pub fn is_empty(&self) -> bool
        ensures empty { result ≡ not (has_any self.now) }
    {
        !self.has_any()
    }
}
