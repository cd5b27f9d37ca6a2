//! The plans of structs and enums. Their fields and variants lie in lists of the whole plan, and
//! are told by ranges.
ghost use Rattle.std.specs.Prelude.{◌≡◌, not};
ghost use Rattle.fr_plan.specs.FillQuestions.{is_defaultable};

use crate::nodes::NodeId;
use fr_arena::SliceRange;
use fr_rules::{FieldLookup, FillRule, PrecomputedValidator, VariantLookup};
use fr_shape::{FieldRef, ShapeId};

/// Fields that lie side by side in a plan.
pub type FieldRange = SliceRange<FieldPlan>;

/// Variants that lie side by side in a plan.
pub type VariantRange = SliceRange<VariantPlanMeta>;

/// Validators that lie side by side in a plan.
pub type ValidatorRange = SliceRange<PrecomputedValidator>;

/// A field as those call it who only fill it.
pub type FieldInitPlan = FieldPlan;

/// A struct: its fields in order, and how they are found by name.
#[derive(Drop)]
pub struct StructPlan {
    pub fields: FieldRange,
    pub field_lookup: FieldLookup,
    pub has_flatten: bool,
    pub deny_unknown_fields: bool,
}

/// A field of a struct or of an enum's variant. `type_node` is the node of its shape, or, where the
/// field has proxies, a node of its own that refers back to it.
#[derive(Drop)]
pub struct FieldPlan {
    pub field: FieldRef,
    pub is_flattened: bool,
    pub type_node: NodeId,
    pub index: u32,
    pub field_shape: ShapeId,
    pub fill_rule: FillRule,
    pub validators: ValidatorRange,
}

impl FieldPlan {
    /// Whether a hole takes a default. There may be none to take, where the field is marked but its
    /// shape has none.
    pub fn has_default(&self) -> bool
        ensures default { result ≡ is_defaultable self.now.fill_rule }
    {
        matches!(self.fill_rule, FillRule::Defaultable(_))
    }

    /// Whether a hole has to be filled by the caller.
    pub fn is_required(&self) -> bool
        ensures required { result ≡ not (is_defaultable self.now.fill_rule) }
    {
        !self.has_default()
    }
}

/// An enum: its variants in order, and how they are found by name. The variant that takes unknown
/// names is the first marked `other`.
#[derive(Drop)]
pub struct EnumPlan {
    pub variants: VariantRange,
    pub variant_lookup: VariantLookup,
    pub num_variants: u32,
    pub other_variant_idx: Option<u32>,
}

/// A variant of an enum: its fields in order, and how they are found by name. `shape` is the enum.
#[derive(Drop)]
pub struct VariantPlanMeta {
    pub shape: ShapeId,
    pub variant: u32,
    pub fields: FieldRange,
    pub field_lookup: FieldLookup,
    pub has_flatten: bool,
}
