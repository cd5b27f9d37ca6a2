//! What is kept of each node while a plan is built: the outline from which the node is told
//! afterwards.
use crate::nodes::NodeId;
use fr_arena::Arena;
use fr_shape::{FieldRef, Items, ShapeId};

/// Whose node it is: a shape's own, one that refers back to the shape's own, or one that does so
/// for a field with proxies.
#[derive(Clone, Copy)]
pub enum Role {
    Own,
    BackRef,
    FieldProxy(FieldRef),
}

/// A node's shape and role, and the nodes that were built for it: those of its proxies' sources,
/// and those of its children. `converts` says that the shape is converted from its child.
#[derive(Drop)]
pub struct Outline {
    pub shape: ShapeId,
    pub role: Role,
    pub sources: Items<NodeId>,
    pub children: Items<NodeId>,
    pub converts: bool,
}

/// How far a shape has come: it was not met yet, it is being built, or its own node is there.
#[derive(Clone, Copy)]
pub enum Mark {
    Unseen,
    Building,
    Done(NodeId),
}

/// The outlines of the nodes so far, and how far each shape of the table has come.
#[derive(Drop)]
pub struct Walk {
    pub nodes: Arena<Outline>,
    pub marks: Arena<Mark>,
}
