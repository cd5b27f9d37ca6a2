//! The children of a node by the kind of the node that it stands for, and the child of a shape that
//! is converted from it.
ghost use Rattle.std.specs.Prelude.{◌≡◌};
ghost use Rattle.std.specs.Option.{option_copied};
ghost use Rattle.fr_plan.specs.Lookups.{node_found, child_if, has_items, is_set, is_map, is_option, is_result, is_pointer, struct_field, enum_variant_field, list_item, set_item, map_key, map_value, option_inner, result_ok, result_err, pointer_pointee, inner, result_sides, by_id};

use crate::TypePlanCore;
use crate::nodes::{NodeId, TypePlanNode, TypePlanNodeKind};

fn has_items(kind: &TypePlanNodeKind) -> bool
    ensures { result ≡ has_items kind.now }
{
    matches!(
        kind,
        TypePlanNodeKind::List | TypePlanNodeKind::Array { .. } | TypePlanNodeKind::Slice
    )
}

fn is_set(kind: &TypePlanNodeKind) -> bool
    ensures { result ≡ is_set kind.now }
{
    matches!(kind, TypePlanNodeKind::Set)
}

fn is_map(kind: &TypePlanNodeKind) -> bool
    ensures { result ≡ is_map kind.now }
{
    matches!(kind, TypePlanNodeKind::Map)
}

fn is_option(kind: &TypePlanNodeKind) -> bool
    ensures { result ≡ is_option kind.now }
{
    matches!(kind, TypePlanNodeKind::Option)
}

fn is_result(kind: &TypePlanNodeKind) -> bool
    ensures { result ≡ is_result kind.now }
{
    matches!(kind, TypePlanNodeKind::Result)
}

fn is_pointer(kind: &TypePlanNodeKind) -> bool
    ensures { result ≡ is_pointer kind.now }
{
    matches!(kind, TypePlanNodeKind::Pointer)
}

impl TypePlanCore {
    /// The child at this place, where the kind has it.
    fn child_if(&self, there: bool, parent: &TypePlanNode, place: usize) -> Option<NodeId>
        ensures { result ≡ child_if there self.now parent.now place }
    {
        if there {
            self.child_at(parent.shape, place)
        } else {
            None
        }
    }

    fn list_item(&self, parent: &TypePlanNode) -> Option<NodeId>
        ensures { result ≡ list_item self.now parent.now }
    {
        self.child_if(has_items(&self.resolve_backref(parent).kind), parent, 0)
    }

    fn set_item(&self, parent: &TypePlanNode) -> Option<NodeId>
        ensures { result ≡ set_item self.now parent.now }
    {
        self.child_if(is_set(&self.resolve_backref(parent).kind), parent, 0)
    }

    fn map_key(&self, parent: &TypePlanNode) -> Option<NodeId>
        ensures { result ≡ map_key self.now parent.now }
    {
        self.child_if(is_map(&self.resolve_backref(parent).kind), parent, 0)
    }

    fn map_value(&self, parent: &TypePlanNode) -> Option<NodeId>
        ensures { result ≡ map_value self.now parent.now }
    {
        self.child_if(is_map(&self.resolve_backref(parent).kind), parent, 1)
    }

    fn option_inner(&self, parent: &TypePlanNode) -> Option<NodeId>
        ensures { result ≡ option_inner self.now parent.now }
    {
        self.child_if(is_option(&self.resolve_backref(parent).kind), parent, 0)
    }

    fn result_ok(&self, parent: &TypePlanNode) -> Option<NodeId>
        ensures { result ≡ result_ok self.now parent.now }
    {
        self.child_if(is_result(&self.resolve_backref(parent).kind), parent, 0)
    }

    fn result_err(&self, parent: &TypePlanNode) -> Option<NodeId>
        ensures { result ≡ result_err self.now parent.now }
    {
        self.child_if(is_result(&self.resolve_backref(parent).kind), parent, 1)
    }

    fn pointer_pointee(&self, parent: &TypePlanNode) -> Option<NodeId>
        ensures { result ≡ pointer_pointee self.now parent.now }
    {
        self.child_if(is_pointer(&self.resolve_backref(parent).kind), parent, 0)
    }

    fn inner(&self, parent: &TypePlanNode) -> Option<NodeId>
        ensures { result ≡ inner self.now parent.now }
    {
        let converts = match self.own_outline(parent.shape) {
            Some(outline) => outline.converts,
            None => false,
        };
        self.child_if(converts, parent, 0)
    }

    /// The node of a struct's field.
    pub fn struct_field_node<'a>(
        &'a self,
        parent: &'a TypePlanNode,
        idx: usize,
    ) -> Option<&'a TypePlanNode>
        ensures child { option_copied result
            ≡ node_found self.now (struct_field self.now parent.now idx) }
    {
        self.found(self.struct_field(parent, idx))
    }

    /// The number of that node.
    pub fn struct_field_node_id(&self, parent_id: NodeId, idx: usize) -> Option<NodeId>
        ensures child { result
            ≡ by_id self.now (λ parent. struct_field self.now parent idx) parent_id }
    {
        self.struct_field(self.find(parent_id)?, idx)
    }

    /// The node of a field of an enum's variant.
    pub fn enum_variant_field_node<'a>(
        &'a self,
        parent: &'a TypePlanNode,
        variant_idx: usize,
        field_idx: usize,
    ) -> Option<&'a TypePlanNode>
        ensures child { option_copied result
            ≡ node_found self.now (enum_variant_field self.now parent.now variant_idx field_idx) }
    {
        self.found(self.enum_variant_field(parent, variant_idx, field_idx))
    }

    /// The number of that node.
    pub fn enum_variant_field_node_id(
        &self,
        parent_id: NodeId,
        variant_idx: usize,
        field_idx: usize,
    ) -> Option<NodeId>
        ensures child { result
            ≡ by_id self.now (λ parent. enum_variant_field self.now parent variant_idx field_idx)
            parent_id }
    {
        self.enum_variant_field(self.find(parent_id)?, variant_idx, field_idx)
    }

    /// The node of the items of a list, an array or a slice.
    pub fn list_item_node<'a>(&'a self, parent: &'a TypePlanNode) -> Option<&'a TypePlanNode>
        ensures child { option_copied result ≡ node_found self.now (list_item self.now parent.now) }
    {
        self.found(self.list_item(parent))
    }

    /// The number of that node.
    pub fn list_item_node_id(&self, parent_id: NodeId) -> Option<NodeId>
        ensures child { result ≡ by_id self.now (list_item self.now) parent_id }
    {
        self.list_item(self.find(parent_id)?)
    }

    /// The node of the items of a set.
    pub fn set_item_node<'a>(&'a self, parent: &'a TypePlanNode) -> Option<&'a TypePlanNode>
        ensures child { option_copied result ≡ node_found self.now (set_item self.now parent.now) }
    {
        self.found(self.set_item(parent))
    }

    /// The number of that node.
    pub fn set_item_node_id(&self, parent_id: NodeId) -> Option<NodeId>
        ensures child { result ≡ by_id self.now (set_item self.now) parent_id }
    {
        self.set_item(self.find(parent_id)?)
    }

    /// The node of the keys of a map.
    pub fn map_key_node<'a>(&'a self, parent: &'a TypePlanNode) -> Option<&'a TypePlanNode>
        ensures child { option_copied result ≡ node_found self.now (map_key self.now parent.now) }
    {
        self.found(self.map_key(parent))
    }

    /// The number of that node.
    pub fn map_key_node_id(&self, parent_id: NodeId) -> Option<NodeId>
        ensures child { result ≡ by_id self.now (map_key self.now) parent_id }
    {
        self.map_key(self.find(parent_id)?)
    }

    /// The node of the values of a map.
    pub fn map_value_node<'a>(&'a self, parent: &'a TypePlanNode) -> Option<&'a TypePlanNode>
        ensures child { option_copied result ≡ node_found self.now (map_value self.now parent.now) }
    {
        self.found(self.map_value(parent))
    }

    /// The number of that node.
    pub fn map_value_node_id(&self, parent_id: NodeId) -> Option<NodeId>
        ensures child { result ≡ by_id self.now (map_value self.now) parent_id }
    {
        self.map_value(self.find(parent_id)?)
    }

    /// The node of the content of an option.
    pub fn option_inner_node<'a>(&'a self, parent: &'a TypePlanNode) -> Option<&'a TypePlanNode>
        ensures child { option_copied result
            ≡ node_found self.now (option_inner self.now parent.now) }
    {
        self.found(self.option_inner(parent))
    }

    /// The number of that node.
    pub fn option_some_node_id(&self, parent_id: NodeId) -> Option<NodeId>
        ensures child { result ≡ by_id self.now (option_inner self.now) parent_id }
    {
        self.option_inner(self.find(parent_id)?)
    }

    /// The node of the ok side of a result.
    pub fn result_ok_node<'a>(&'a self, parent: &'a TypePlanNode) -> Option<&'a TypePlanNode>
        ensures child { option_copied result ≡ node_found self.now (result_ok self.now parent.now) }
    {
        self.found(self.result_ok(parent))
    }

    /// The node of the err side of a result.
    pub fn result_err_node<'a>(&'a self, parent: &'a TypePlanNode) -> Option<&'a TypePlanNode>
        ensures child { option_copied result
            ≡ node_found self.now (result_err self.now parent.now) }
    {
        self.found(self.result_err(parent))
    }

    /// The numbers of both nodes of a result, the ok side first.
    pub fn result_nodes_id(&self, parent_id: NodeId) -> Option<(NodeId, NodeId)>
        ensures children { result ≡ by_id self.now (result_sides self.now) parent_id }
    {
        let parent = self.find(parent_id)?;
        Some((self.result_ok(parent)?, self.result_err(parent)?))
    }

    /// The node of what a pointer points to.
    pub fn pointer_pointee_node<'a>(&'a self, parent: &'a TypePlanNode) -> Option<&'a TypePlanNode>
        ensures child { option_copied result
            ≡ node_found self.now (pointer_pointee self.now parent.now) }
    {
        self.found(self.pointer_pointee(parent))
    }

    /// The number of that node.
    pub fn pointer_inner_node_id(&self, parent_id: NodeId) -> Option<NodeId>
        ensures child { result ≡ by_id self.now (pointer_pointee self.now) parent_id }
    {
        self.pointer_pointee(self.find(parent_id)?)
    }

    /// The node that a shape is converted from, where it is converted.
    pub fn inner_node<'a>(&'a self, parent: &'a TypePlanNode) -> Option<&'a TypePlanNode>
        ensures child { option_copied result ≡ node_found self.now (inner self.now parent.now) }
    {
        self.found(self.inner(parent))
    }

    /// The number of that node.
    pub fn inner_node_id(&self, parent_id: NodeId) -> Option<NodeId>
        ensures child { result ≡ by_id self.now (inner self.now) parent_id }
    {
        self.inner(self.find(parent_id)?)
    }
}
