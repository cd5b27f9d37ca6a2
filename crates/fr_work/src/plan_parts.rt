//! What the plan has of the place at which a builder works.
ghost use Rattle.std.specs.Option.{option_copied, option_map};
ghost use Rattle.std.specs.Prelude.{IfSome, IsSome, None, Some, is_some, ◌<◌, ◌≡◌, ◌||◌};
ghost use Rattle.fr_model.specs.Variants.{is_enum};
ghost use Rattle.fr_plan.specs.Lookups.{by_id, enum_plan_at, node_at, struct_plan_at};
ghost use Rattle.fr_work.specs.Common.{IsOfShape, TypePlanNode as Node, def_of, length, selected};
ghost use Rattle.fr_work.specs.PlanParts.{HasParts};
ghost use Rattle.fr_work.specs.Readings.{cursor_node, field_number, field_plans_at, field_range_at, is_struct, serving, serving_at, variant_plan_at};
ghost use Rattle.fr_moves.specs.Sites.{shape_at, tree_at_site};
ghost use Rattle.fr_shape.specs.declared.shape.Def.{Def as TheDef};

use crate::told_place::told_here;
use crate::work::Work;
use fr_plan::{
    DeserStrategy, EnumPlan, FieldPlan, FieldRange, NodeId, ProxyNodes, StructPlan, TypePlanCore,
    TypePlanNode, VariantPlanMeta, law_plan_lookups, law_plan_reach,
};

/// The node whose strategy and proxies serve for this one.
fn serving<'a>(plan: &'a TypePlanCore, node: &'a TypePlanNode) -> &'a TypePlanNode
    ensures { result.now ≡ serving plan.now node.now }
{
    match &node.strategy {
        DeserStrategy::BackRef { .. } => plan.resolve_backref(node),
        _ => node,
    }
}

/// The plan of the variant of this number, of the enum of this node.
fn variant_plan(plan: &TypePlanCore, id: NodeId, variant: u32) -> Option<&VariantPlanMeta>
    requires parts { (def : TheDef) × HasParts plan.now id def }
    ensures plan { option_copied result ≡ variant_plan_at plan.now (Some variant) id }
{
    let variants = plan.variants(plan.enum_plan_by_id(id)?.variants);
    variants.get(variant as usize)
}

/// Where the plans of the fields of this variant lie, or of the struct.
fn field_range(plan: &TypePlanCore, id: NodeId, variant: Option<u32>) -> Option<FieldRange>
    requires parts { (def : TheDef) × HasParts plan.now id def }
    ensures range { result ≡ field_range_at plan.now variant id }
{
    match variant {
        Some(variant) => Some(variant_plan(plan, id, variant)?.fields),
        None => Some(plan.struct_plan_by_id(id)?.fields),
    }
}

/// The number of the first field of this variant that goes by this name, or has it as its alias.
fn found_in_variant(plan: &TypePlanCore, id: NodeId, variant: u32, name: &str) -> Option<usize>
    requires { (def : TheDef) × HasParts plan.now id def }
    ensures { (def : TheDef) → HasParts plan.now id def
        → result ≡ field_number name.now def (Some variant) }
{
    match variant_plan(plan, id, variant) {
        Some(found) => found.field_lookup.find(name, plan.lookups()),
        None => None,
    }
}

/// The same of the struct.
fn found_in_struct(plan: &TypePlanCore, id: NodeId, name: &str) -> Option<usize>
    requires { (def : TheDef) × HasParts plan.now id def }
    ensures { (def : TheDef) → HasParts plan.now id def
        → result ≡ field_number name.now def None }
{
    match plan.struct_plan_by_id(id) {
        Some(found) => found.field_lookup.find(name, plan.lookups()),
        None => None,
    }
}

impl<'t> Work<'t> {
    /// The plan, and the number of its node of the place at which the builder works.
    pub fn place_in_plan(&self) -> (&TypePlanCore, NodeId)
        ensures plan { result.0.now ≡ self.now.plan }
        ensures node { result.1 ≡ cursor_node result.0.now self.now.state }
        ensures shape { IsOfShape result.0.now result.1 (shape_at self.now) }
        ensures parts { HasParts result.0.now result.1
            (def_of self.now.shapes (shape_at self.now)) }
    {
        law_plan_lookups();
        law_plan_reach();
        let parts = &*self.parts;
        let plan = parts.plan.core();
        (plan, told_here(plan, &parts.frames).0)
    }

    /// The plan's node of the place, which there always is.
    pub fn plan_node(&self) -> Option<&TypePlanNode>
        ensures node { option_copied result
            ≡ node_at self.now.plan (cursor_node self.now.plan self.now.state) }
        ensures shape { IfSome result (λ node. node.now.shape.0 ≡ shape_at self.now) }
        ensures some { IsSome result }
    {
        let (plan, id) = self.place_in_plan();
        Some(plan.node(id))
    }

    /// The number of that node.
    pub fn plan_node_id(&self) -> Option<NodeId>
        ensures node { result ≡ Some (cursor_node self.now.plan self.now.state) }
        ensures inside { IfSome result (λ id. id.0 < length self.now.plan.nodes) }
    {
        let (_, id) = self.place_in_plan();
        Some(id)
    }

    /// The strategy of the node that serves there.
    pub fn deser_strategy(&self) -> Option<&DeserStrategy>
        ensures strategy { option_copied result
            ≡ option_map (λ (node : Node). node.strategy)
            (serving_at self.now.plan (cursor_node self.now.plan self.now.state)) }
        ensures some { IsSome result }
    {
        let (plan, id) = self.place_in_plan();
        Some(&serving(plan, plan.node(id)).strategy)
    }

    /// Its proxies.
    pub fn proxy_nodes(&self) -> Option<&ProxyNodes>
        ensures proxies { option_copied result
            ≡ option_map (λ (node : Node). node.proxies)
            (serving_at self.now.plan (cursor_node self.now.plan self.now.state)) }
        ensures some { IsSome result }
    {
        let (plan, id) = self.place_in_plan();
        Some(&serving(plan, plan.node(id)).proxies)
    }

    /// The plan of the struct at which the builder works.
    pub fn struct_plan(&self) -> Option<&StructPlan>
        ensures plan { option_copied result
            ≡ by_id self.now.plan (struct_plan_at self.now.plan)
            (cursor_node self.now.plan self.now.state) }
        ensures structs { is_some result ≡ is_struct (def_of self.now.shapes (shape_at self.now)) }
    {
        let (plan, id) = self.place_in_plan();
        plan.struct_plan_by_id(id)
    }

    /// The plan of the enum at which the builder works.
    pub fn enum_plan(&self) -> Option<&EnumPlan>
        ensures plan { option_copied result
            ≡ by_id self.now.plan (enum_plan_at self.now.plan)
            (cursor_node self.now.plan self.now.state) }
        ensures enums { is_some result ≡ is_enum (def_of self.now.shapes (shape_at self.now)) }
    {
        let (plan, id) = self.place_in_plan();
        plan.enum_plan_by_id(id)
    }

    /// The plan of the variant as which the enum is begun at which the builder works.
    pub fn selected_variant_plan(&self) -> Option<&VariantPlanMeta>
        ensures plan { option_copied result
            ≡ variant_plan_at self.now.plan (selected (tree_at_site self.now))
            (cursor_node self.now.plan self.now.state) }
        ensures begun { is_some result ≡ is_some (selected (tree_at_site self.now)) }
    {
        self.law_sound();
        let (plan, id) = self.place_in_plan();
        match self.selected_here() {
            Some(variant) => variant_plan(plan, id, variant),
            None => None,
        }
    }

    /// The plans of the fields of the struct, or of the selected variant, at which it works.
    pub fn field_plans(&self) -> Option<&[FieldPlan]>
        ensures plans { option_copied result
            ≡ field_plans_at self.now.plan (selected (tree_at_site self.now))
            (cursor_node self.now.plan self.now.state) }
        ensures fields { is_some result ≡ (is_struct (def_of self.now.shapes (shape_at self.now))
            || is_some (selected (tree_at_site self.now))) }
    {
        self.law_sound();
        let (plan, id) = self.place_in_plan();
        match field_range(plan, id, self.selected_here()) {
            Some(range) => Some(plan.fields(range)),
            None => None,
        }
    }

    /// The number of the first field that goes by this name, or has it as its alias, in the struct
    /// or the selected variant at which the builder works.
    pub fn field_index(&self, name: &str) -> Option<usize>
        ensures index { result
            ≡ field_number name.now (def_of self.now.shapes (shape_at self.now))
            (selected (tree_at_site self.now)) }
    {
        let (plan, id) = self.place_in_plan();
        match self.selected_here() {
            Some(variant) => found_in_variant(plan, id, variant, name),
            None => found_in_struct(plan, id, name),
        }
    }
}
