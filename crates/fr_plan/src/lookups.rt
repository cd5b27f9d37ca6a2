//! The children of a plan's nodes. Each lookup takes the same time however large the plan is.
ghost use Rattle.std.specs.Prelude.{◌≡◌, slice_get};
ghost use Rattle.std.specs.Option.{option_copied};
ghost use Rattle.fr_rules.specs.Pools.{part_of};
ghost use Rattle.fr_plan.specs.Lookups.{node_at, node_found, own_id, resolved, resolved_id, struct_plan_at, enum_plan_at, field_in_range, struct_field, enum_variant_field, own_outline, child_at, by_id};

use crate::TypePlanCore;
use crate::nodes::{NodeId, TypePlanNode, TypePlanNodeKind};
use crate::outlines::{Mark, Outline};
use crate::plans::{EnumPlan, FieldRange, StructPlan};
use fr_arena::{Arena, Idx, SliceRange};
use fr_shape::ShapeId;

/// The entry of this number, if there is one.
pub(crate) fn entry<T>(arena: &Arena<T>, i: u32) -> Option<&T>
    ensures { option_copied result ≡ slice_get arena.now i }
{
    if (i as usize) < arena.len() {
        Some(arena.get(Idx::new(i)))
    } else {
        None
    }
}

/// The entry at this place of a range, if there is one.
fn entry_of_range<T>(arena: &Arena<T>, range: SliceRange<T>, n: usize) -> Option<&T>
    ensures { option_copied result ≡ slice_get (part_of arena.now range) n }
{
    entry(arena, range.get(n)?.raw())
}

impl TypePlanCore {
    /// The node of this number, if there is one.
    pub(crate) fn find(&self, id: NodeId) -> Option<&TypePlanNode>
        ensures { option_copied result ≡ node_at self.now id }
    {
        entry(&self.nodes, id.0)
    }

    /// The node that was looked up.
    pub(crate) fn found(&self, id: Option<NodeId>) -> Option<&TypePlanNode>
        ensures { option_copied result ≡ node_found self.now id }
    {
        self.find(id?)
    }

    /// The number of a shape's own node, if it has one. It takes the same time however large the
    /// plan is.
    pub fn own_node_id(&self, shape: ShapeId) -> Option<NodeId>
        ensures own { result ≡ own_id self.now shape }
    {
        match entry(&self.walk.marks, shape.0)? {
            Mark::Done(node) => Some(*node),
            Mark::Unseen | Mark::Building => None,
        }
    }

    /// The outline of a shape's own node.
    pub(crate) fn own_outline(&self, shape: ShapeId) -> Option<&Outline>
        ensures { option_copied result ≡ own_outline self.now shape }
    {
        entry(&self.walk.nodes, self.own_node_id(shape)?.0)
    }

    /// The child at this place, as it was built for the shape's own node.
    pub(crate) fn child_at(&self, shape: ShapeId, place: usize) -> Option<NodeId>
        ensures { result ≡ child_at self.now shape place }
    {
        match self.own_outline(shape)?.children.get(place) {
            Some(node) => Some(*node),
            None => None,
        }
    }

    /// The node that `node` stands for: the own node of its shape where it refers back, else
    /// itself.
    pub fn resolve_backref<'a>(&'a self, node: &'a TypePlanNode) -> &'a TypePlanNode
        ensures resolved { result.now ≡ resolved self.now node.now }
    {
        match &node.kind {
            TypePlanNodeKind::BackRef(shape) => match self.found(self.own_node_id(*shape)) {
                Some(own) => own,
                None => node,
            },
            _ => node,
        }
    }

    /// The same by number.
    pub fn resolve_backref_id(&self, id: NodeId) -> NodeId
        ensures resolved { result ≡ resolved_id self.now id }
    {
        let Some(node) = self.find(id) else {
            return id;
        };
        match &node.kind {
            TypePlanNodeKind::BackRef(shape) => match self.own_node_id(*shape) {
                Some(own) => own,
                None => id,
            },
            _ => id,
        }
    }

    /// The plan of a struct.
    pub fn as_struct_plan<'a>(&'a self, node: &'a TypePlanNode) -> Option<&'a StructPlan>
        ensures plan { option_copied result ≡ struct_plan_at self.now node.now }
    {
        match &self.resolve_backref(node).kind {
            TypePlanNodeKind::Struct(plan) => Some(plan),
            _ => None,
        }
    }

    /// The plan of an enum.
    pub fn as_enum_plan<'a>(&'a self, node: &'a TypePlanNode) -> Option<&'a EnumPlan>
        ensures plan { option_copied result ≡ enum_plan_at self.now node.now }
    {
        match &self.resolve_backref(node).kind {
            TypePlanNodeKind::Enum(plan) => Some(plan),
            _ => None,
        }
    }

    /// The plan of a struct, whose node has this number.
    pub fn struct_plan_by_id(&self, id: NodeId) -> Option<&StructPlan>
        ensures plan { option_copied result ≡ by_id self.now (struct_plan_at self.now) id }
    {
        self.as_struct_plan(self.find(id)?)
    }

    /// The plan of an enum, whose node has this number.
    pub fn enum_plan_by_id(&self, id: NodeId) -> Option<&EnumPlan>
        ensures plan { option_copied result ≡ by_id self.now (enum_plan_at self.now) id }
    {
        self.as_enum_plan(self.find(id)?)
    }

    /// The node of the field at this place of a range.
    fn field_in_range(&self, fields: FieldRange, i: usize) -> Option<NodeId>
        ensures { result ≡ field_in_range self.now fields i }
    {
        let field = entry_of_range(&self.lists.fields, fields, i)?;
        Some(field.type_node)
    }

    /// The node of a struct's field.
    pub(crate) fn struct_field(&self, parent: &TypePlanNode, idx: usize) -> Option<NodeId>
        ensures { result ≡ struct_field self.now parent.now idx }
    {
        self.field_in_range(self.as_struct_plan(parent)?.fields, idx)
    }

    /// The node of a field of an enum's variant.
    pub(crate) fn enum_variant_field(
        &self,
        parent: &TypePlanNode,
        variant_idx: usize,
        field_idx: usize,
    ) -> Option<NodeId>
        ensures { result ≡ enum_variant_field self.now parent.now variant_idx field_idx }
    {
        let variants = self.as_enum_plan(parent)?.variants;
        let variant = entry_of_range(&self.lists.variants, variants, variant_idx)?;
        self.field_in_range(variant.fields, field_idx)
    }
}
