//! The ways to start a builder: by a shape, whose plan it makes, or by a plan that is lent to it.
ghost use Rattle.std.specs.Prelude.{◌≡◌};
ghost use Rattle.fr_partial.specs.Common.{IfOk, IsChecked, IsIn, IsNumbered, IsPlanFrom, IsPlanOf, plan_in, unsized_refusal};
ghost use Rattle.fr_model.specs.Run.{alloc_refusal};
ghost use Rattle.fr_model.specs.Tree.{initial};
ghost use Rattle.fr_work.specs.Starting.{RefusedWith};

use crate::Partial;
use fr_moves::HeldPlan;
use fr_plan::{TypePlanCore, law_first_refusal, law_plan_paths};
use fr_shape::{Hooks, PlanError, ShapeId, ShapeTable};
use fr_work::Work;
use std::alloc::Global;

impl<'t, H: Hooks> Partial<'t, H> {
    /// A builder of a value of this shape, at which nothing was put yet. It makes the plan of the
    /// shape for itself. It is refused with the first shape in build order that can't be planned,
    /// and then where the shape itself is unsized.
    pub fn alloc_shape(
        alloc: Global,
        table: &'t ShapeTable,
        id: ShapeId,
        hooks: &'t H,
    ) -> Result<Partial<'t, H>, PlanError>
        requires shape { IsIn table.now id.0 }
        requires numbered { IsNumbered table.now }
        requires checked { IsChecked table.now }
        ensures shapes { IfOk result (λ p. p.shapes ≡ table.now) }
        ensures hooks { IfOk result (λ p. p.hooks ≡ hooks.now) }
        ensures root { IfOk result (λ p. p.root ≡ id.0) }
        ensures plan { IfOk result (λ p. IsPlanOf table.now id p.plan) }
        ensures state { IfOk result (λ p. p.state ≡ initial table.now id.0) }
        ensures refused { RefusedWith (alloc_refusal table.now id.0) result }
    {
        law_first_refusal();
        match TypePlanCore::from_shape(alloc, table, id) {
            Ok(plan) => match Box::new(alloc, plan) {
                Ok(own) => Partial::start(alloc, table, HeldPlan::Own(own), id, hooks),
                Err(_) => Err(PlanError::OutOfMemory),
            },
            Err(refused) => Err(refused),
        }
    }

    /// The same as `alloc_shape`.
    pub fn alloc_shape_owned(
        alloc: Global,
        table: &'t ShapeTable,
        id: ShapeId,
        hooks: &'t H,
    ) -> Result<Partial<'t, H>, PlanError>
        requires shape { IsIn table.now id.0 }
        requires numbered { IsNumbered table.now }
        requires checked { IsChecked table.now }
        ensures shapes { IfOk result (λ p. p.shapes ≡ table.now) }
        ensures hooks { IfOk result (λ p. p.hooks ≡ hooks.now) }
        ensures root { IfOk result (λ p. p.root ≡ id.0) }
        ensures plan { IfOk result (λ p. IsPlanOf table.now id p.plan) }
        ensures state { IfOk result (λ p. p.state ≡ initial table.now id.0) }
        ensures refused { RefusedWith (alloc_refusal table.now id.0) result }
    {
        Partial::alloc_shape(alloc, table, id, hooks)
    }

    /// A builder of a value of the plan's root, at which nothing was put yet. The plan can serve
    /// any number of builders. The refusals are those of `alloc_shape`; of a plan that is there
    /// only the unsized root is left.
    pub fn alloc_with_plan(
        alloc: Global,
        table: &'t ShapeTable,
        plan: &'t TypePlanCore,
        hooks: &'t H,
    ) -> Result<Partial<'t, H>, PlanError>
        requires plan { IsPlanFrom table.now plan.now }
        requires numbered { IsNumbered table.now }
        requires checked { IsChecked table.now }
        ensures shapes { IfOk result (λ p. p.shapes ≡ table.now) }
        ensures hooks { IfOk result (λ p. p.hooks ≡ hooks.now) }
        ensures root { IfOk result (λ p.
            (from : IsPlanFrom table.now plan.now) → p.root ≡ from.root.0) }
        ensures plan { IfOk result (λ p. p.plan ≡ plan.now) }
        ensures state { IfOk result (λ p.
            (from : IsPlanFrom table.now plan.now) → p.state ≡ initial table.now from.root.0) }
        ensures refused { (from : IsPlanFrom table.now plan.now)
            → RefusedWith (alloc_refusal table.now from.root.0) result }
    {
        law_first_refusal();
        law_plan_paths();
        let root = plan.root().shape;
        Partial::start(alloc, table, HeldPlan::Lent(plan), root, hooks)
    }

    /// The same as `alloc_with_plan`.
    pub fn alloc_owned_with_plan(
        alloc: Global,
        table: &'t ShapeTable,
        plan: &'t TypePlanCore,
        hooks: &'t H,
    ) -> Result<Partial<'t, H>, PlanError>
        requires plan { IsPlanFrom table.now plan.now }
        requires numbered { IsNumbered table.now }
        requires checked { IsChecked table.now }
        ensures shapes { IfOk result (λ p. p.shapes ≡ table.now) }
        ensures hooks { IfOk result (λ p. p.hooks ≡ hooks.now) }
        ensures root { IfOk result (λ p.
            (from : IsPlanFrom table.now plan.now) → p.root ≡ from.root.0) }
        ensures plan { IfOk result (λ p. p.plan ≡ plan.now) }
        ensures state { IfOk result (λ p.
            (from : IsPlanFrom table.now plan.now) → p.state ≡ initial table.now from.root.0) }
        ensures refused { (from : IsPlanFrom table.now plan.now)
            → RefusedWith (alloc_refusal table.now from.root.0) result }
    {
        Partial::alloc_with_plan(alloc, table, plan, hooks)
    }

    /// A builder at a root that was planned, unless the root is unsized.
    fn start(
        alloc: Global,
        table: &'t ShapeTable,
        plan: HeldPlan<'t>,
        root: ShapeId,
        hooks: &'t H,
    ) -> Result<Partial<'t, H>, PlanError>
        requires plan { IsPlanOf table.now root (plan_in plan) }
        requires inside { IsIn table.now root.0 }
        requires numbered { IsNumbered table.now }
        requires checked { IsChecked table.now }
        ensures shapes { IfOk result (λ p. p.shapes ≡ table.now) }
        ensures hooks { IfOk result (λ p. p.hooks ≡ hooks.now) }
        ensures root { IfOk result (λ p. p.root ≡ root.0) }
        ensures plan { IfOk result (λ p. p.plan ≡ plan_in plan.entry) }
        ensures state { IfOk result (λ p. p.state ≡ initial table.now root.0) }
        ensures refused { RefusedWith (unsized_refusal table.now root.0) result }
    {
        match Work::start(alloc, table, plan, root) {
            Ok(work) => Ok(Partial { hooks, work }),
            Err(refused) => Err(refused),
        }
    }
}
