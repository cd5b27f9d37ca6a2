//! What a builder tells of its plan, and of what this says of the place at which it works.
ghost use Rattle.std.specs.Option.{option_copied, option_map};
ghost use Rattle.std.specs.Prelude.{IfSome, IsSome, Some, is_some, length, ◌<◌, ◌≡◌, ◌||◌};
ghost use Rattle.fr_model.specs.Variants.{is_enum};
ghost use Rattle.fr_plan.specs.Lookups.{by_id, enum_plan_at, node_at, struct_plan_at};
ghost use Rattle.fr_partial.specs.Builder.{here};
ghost use Rattle.fr_partial.specs.Common.{TypePlanNode as Node, cursor_tree, def_of, selected};
ghost use Rattle.fr_work.specs.Readings.{cursor_node, field_plans_at, is_struct, serving_at, variant_plan_at};

use crate::Partial;
use fr_plan::{
    DeserStrategy, EnumPlan, FieldPlan, NodeId, ProxyNodes, StructPlan, TypePlanCore, TypePlanNode,
    VariantPlanMeta,
};
use fr_shape::Hooks;

impl<'t, H: Hooks> Partial<'t, H> {
    /// The plan by which it builds.
    pub fn type_plan_core(&self) -> &TypePlanCore
        ensures plan { result.now ≡ self.now.plan }
    {
        self.work.place_in_plan().0
    }

    /// The plan's node of the place at which it works, which there always is.
    pub fn plan_node(&self) -> Option<&TypePlanNode>
        ensures node { option_copied result
            ≡ node_at self.now.plan (cursor_node self.now.plan self.now.state) }
        ensures shape { IfSome result (λ node. node.now.shape.0 ≡ here self.now) }
        ensures some { IsSome result }
    {
        self.work.plan_node()
    }

    /// The number of that node.
    pub fn plan_node_id(&self) -> Option<NodeId>
        ensures node { result ≡ Some (cursor_node self.now.plan self.now.state) }
        ensures inside { IfSome result (λ id. id.0 < length self.now.plan.nodes) }
    {
        self.work.plan_node_id()
    }

    /// The plan of the struct at which it works.
    pub fn struct_plan(&self) -> Option<&StructPlan>
        ensures plan { option_copied result
            ≡ by_id self.now.plan (struct_plan_at self.now.plan)
            (cursor_node self.now.plan self.now.state) }
        ensures structs { is_some result ≡ is_struct (def_of self.now.shapes (here self.now)) }
    {
        self.work.struct_plan()
    }

    /// The plan of the enum at which it works.
    pub fn enum_plan(&self) -> Option<&EnumPlan>
        ensures plan { option_copied result
            ≡ by_id self.now.plan (enum_plan_at self.now.plan)
            (cursor_node self.now.plan self.now.state) }
        ensures enums { is_some result ≡ is_enum (def_of self.now.shapes (here self.now)) }
    {
        self.work.enum_plan()
    }

    /// The plan of the variant as which the enum is begun at which it works.
    pub fn selected_variant_plan(&self) -> Option<&VariantPlanMeta>
        ensures plan { option_copied result
            ≡ variant_plan_at self.now.plan (selected (cursor_tree self.now.state))
            (cursor_node self.now.plan self.now.state) }
        ensures begun { is_some result ≡ is_some (selected (cursor_tree self.now.state)) }
    {
        self.work.selected_variant_plan()
    }

    /// The plans of the fields of the struct, or of the selected variant, at which it works.
    pub fn field_plans(&self) -> Option<&[FieldPlan]>
        ensures plans { option_copied result
            ≡ field_plans_at self.now.plan (selected (cursor_tree self.now.state))
            (cursor_node self.now.plan self.now.state) }
        ensures fields { is_some result ≡ (is_struct (def_of self.now.shapes (here self.now))
            || is_some (selected (cursor_tree self.now.state))) }
    {
        self.work.field_plans()
    }

    /// How a deserializer goes about the place at which it works, which there always is: by the
    /// plan's node, or where that refers back by the own node of its shape. A field with proxies of
    /// its own keeps the strategy that is for these.
    pub fn deser_strategy(&self) -> Option<&DeserStrategy>
        ensures strategy { option_copied result
            ≡ option_map (λ (node : Node). node.strategy)
            (serving_at self.now.plan (cursor_node self.now.plan self.now.state)) }
        ensures some { IsSome result }
    {
        self.work.deser_strategy()
    }

    /// The nodes of the proxies there, which there always are, by the same node.
    pub fn proxy_nodes(&self) -> Option<&ProxyNodes>
        ensures proxies { option_copied result
            ≡ option_map (λ (node : Node). node.proxies)
            (serving_at self.now.plan (cursor_node self.now.plan self.now.state)) }
        ensures some { IsSome result }
    {
        self.work.proxy_nodes()
    }
}
