//! The lists of a plan in which the parts of its nodes lie.
ghost use Rattle.std.specs.Prelude.{◌≡◌, IfOk};
ghost use Rattle.fr_rules.specs.Pools.{Continues};

use crate::plans::{FieldPlan, FieldRange, ValidatorRange, VariantPlanMeta, VariantRange};
use fr_arena::Arena;
use fr_rules::{LookupPool, PrecomputedValidator};
use fr_shape::OutOfMemory;
use std::alloc::Global;

/// The fields, variants and validators of all nodes, and the pool of all lookups of fields. They
/// only grow.
#[derive(Drop)]
pub struct PlanLists {
    pub fields: Arena<FieldPlan>,
    pub variants: Arena<VariantPlanMeta>,
    pub validators: Arena<PrecomputedValidator>,
    pub lookups: LookupPool,
}

impl PlanLists {
    ghost use Rattle.fr_plan.specs.Plans.{Names};

    /// Lists of nothing, which take no memory.
    pub(crate) fn new(alloc: Global) -> PlanLists {
        PlanLists {
            fields: Arena::new(alloc),
            variants: Arena::new(alloc),
            validators: Arena::new(alloc),
            lookups: LookupPool::new(alloc),
        }
    }

    /// Puts fields behind the others, side by side.
    pub(crate) fn add_fields(&mut self, plans: Vec<FieldPlan>) -> Result<FieldRange, OutOfMemory>
        ensures added { IfOk result (λ range. Names self.new.fields range plans.items) }
        ensures others { self.new ≡ record self.old { fields = self.new.fields } }
        ensures grown { Continues self.old.fields self.new.fields }
    {
        if plans.len() > u32::MAX as usize - self.fields.len() {
            return Err(OutOfMemory);
        }
        self.fields
            .alloc_extend(plans)
            .map_err(|_refused| OutOfMemory)
    }

    /// Puts variants behind the others, side by side.
    pub(crate) fn add_variants(
        &mut self,
        plans: Vec<VariantPlanMeta>,
    ) -> Result<VariantRange, OutOfMemory>
        ensures added { IfOk result (λ range. Names self.new.variants range plans.items) }
        ensures others { self.new ≡ record self.old { variants = self.new.variants } }
        ensures grown { Continues self.old.variants self.new.variants }
    {
        if plans.len() > u32::MAX as usize - self.variants.len() {
            return Err(OutOfMemory);
        }
        self.variants
            .alloc_extend(plans)
            .map_err(|_refused| OutOfMemory)
    }

    /// Puts validators behind the others, side by side.
    pub(crate) fn add_validators(
        &mut self,
        validators: Vec<PrecomputedValidator>,
    ) -> Result<ValidatorRange, OutOfMemory>
        ensures added { IfOk result (λ range. Names self.new.validators range validators.items) }
        ensures others { self.new ≡ record self.old { validators = self.new.validators } }
        ensures grown { Continues self.old.validators self.new.validators }
    {
        if validators.len() > u32::MAX as usize - self.validators.len() {
            return Err(OutOfMemory);
        }
        self.validators
            .alloc_extend(validators)
            .map_err(|_refused| OutOfMemory)
    }
}
