//! Plans: what is known of a type, and of all that it is made of, before a value of it is built.
#![tactic(auto)]

mod fields;
mod laws;
mod lookups;
mod node_building;
mod node_children;
mod nodes;
mod outlines;
mod plan_lists;
mod plans;
mod shape_fields;
mod strategies;
mod telling;
mod type_plan;
mod variant_numbers;
mod variants;
mod walking;

pub use laws::{
    law_first_refusal, law_plan_complete, law_plan_lookups, law_plan_parts, law_plan_paths,
    law_plan_reach, law_plan_size,
};
pub use nodes::{DeserStrategy, NodeId, ProxyNodes, TypePlanNode, TypePlanNodeKind};
pub use plans::{
    EnumPlan, FieldInitPlan, FieldPlan, FieldRange, StructPlan, ValidatorRange, VariantPlanMeta,
    VariantRange,
};
pub use type_plan::TypePlanCore;
