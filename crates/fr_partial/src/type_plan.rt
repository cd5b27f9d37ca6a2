//! The plan of a Rust type's shape.
ghost use Rattle.fr_partial.specs.Common.{IfErr, IfOk, IsChecked, IsNumbered, IsPlanFrom, IsPlanOf};
ghost use Rattle.std.specs.Prelude.{◌≡◌, Some};
ghost use Rattle.fr_model.specs.Run.{alloc_refusal};
ghost use Rattle.fr_model.specs.Tree.{initial};
ghost use Rattle.fr_work.specs.Starting.{RefusedWith};
ghost use Rattle.fr_partial.specs.Typed.{HasShape, own_shape};
ghost use Rattle.fr_plan.specs.Build.{planned};
ghost use Rattle.fr_plan.specs.Lookups.{node_at};
ghost use Rattle.fr_plan.specs.Results.{IsMeant};

use crate::Partial;
use crate::typed::shape_of;
use fr_facet::Facet;
use fr_plan::{TypePlanCore, TypePlanNode};
use fr_shape::{Hooks, PlanError, ShapeTable};
use std::alloc::Global;
use std::marker::{Model, PhantomData};

/// The plan of the first shape of `T` in a table. It can serve any number of builders. Contracts see
/// it as its plan.
#[derive(Drop)]
pub struct TypePlan<T> {
    core: TypePlanCore,
    of: PhantomData<T>,
}

impl<T> Model for TypePlan<T> {
    ghost use Rattle.fr_plan.specs.TypePlan.{Plan};

    ghost Value = { Plan };

    ghost view = { λ plan. plan.core };
}

impl<T: Facet> TypePlan<T> {
    /// The plan of the type's first shape in the table, which has one. The refusals are those of
    /// `TypePlanCore::from_shape`.
    pub fn build(alloc: Global, table: &ShapeTable) -> Result<TypePlan<T>, PlanError>
        requires shape { HasShape T.is_own table.now }
        requires checked { IsChecked table.now }
        ensures plan { IfOk result (IsPlanOf table.now (own_shape T.is_own table.now)) }
        ensures from { IfOk result (IsPlanFrom table.now) }
        ensures refused { IfErr result (IsMeant
            (planned table.now (own_shape T.is_own table.now))) }
    {
        match TypePlanCore::from_shape(alloc, table, shape_of::<T>(table)) {
            Ok(core) => Ok(TypePlan {
                core,
                of: PhantomData,
            }),
            Err(refused) => Err(refused),
        }
    }

    /// The same as `build`: a plan has the proxies of every format.
    pub fn build_for_format(
        alloc: Global,
        table: &ShapeTable,
        _format: Option<&str>,
    ) -> Result<TypePlan<T>, PlanError>
        requires shape { HasShape T.is_own table.now }
        requires checked { IsChecked table.now }
        ensures plan { IfOk result (IsPlanOf table.now (own_shape T.is_own table.now)) }
        ensures from { IfOk result (IsPlanFrom table.now) }
        ensures refused { IfErr result (IsMeant
            (planned table.now (own_shape T.is_own table.now))) }
    {
        TypePlan::build(alloc, table)
    }

    /// The plan, whatever the type.
    pub fn core(&self) -> &TypePlanCore
        ensures core { result.now ≡ self.now }
    {
        &self.core
    }

    /// The root's node.
    pub fn root(&self) -> &TypePlanNode
        ensures root { node_at self.now self.now.root ≡ Some result.now }
    {
        self.core.root()
    }

    /// A builder of a value of the plan's root, at which nothing was put yet. The refusals are those
    /// of `alloc_with_plan`.
    pub fn partial<'t, H: Hooks>(
        &'t self,
        alloc: Global,
        table: &'t ShapeTable,
        hooks: &'t H,
    ) -> Result<Partial<'t, H>, PlanError>
        requires plan { IsPlanFrom table.now self.now }
        requires numbered { IsNumbered table.now }
        requires checked { IsChecked table.now }
        ensures shapes { IfOk result (λ p. p.shapes ≡ table.now) }
        ensures hooks { IfOk result (λ p. p.hooks ≡ hooks.now) }
        ensures root { IfOk result (λ p.
            (from : IsPlanFrom table.now self.now) → p.root ≡ from.root.0) }
        ensures plan { IfOk result (λ p. p.plan ≡ self.now) }
        ensures state { IfOk result (λ p.
            (from : IsPlanFrom table.now self.now) → p.state ≡ initial table.now from.root.0) }
        ensures refused { (from : IsPlanFrom table.now self.now)
            → RefusedWith (alloc_refusal table.now from.root.0) result }
    {
        Partial::alloc_with_plan(alloc, table, &self.core, hooks)
    }

    /// The same as `partial`.
    pub fn partial_owned<'t, H: Hooks>(
        &'t self,
        alloc: Global,
        table: &'t ShapeTable,
        hooks: &'t H,
    ) -> Result<Partial<'t, H>, PlanError>
        requires plan { IsPlanFrom table.now self.now }
        requires numbered { IsNumbered table.now }
        requires checked { IsChecked table.now }
        ensures shapes { IfOk result (λ p. p.shapes ≡ table.now) }
        ensures hooks { IfOk result (λ p. p.hooks ≡ hooks.now) }
        ensures root { IfOk result (λ p.
            (from : IsPlanFrom table.now self.now) → p.root ≡ from.root.0) }
        ensures plan { IfOk result (λ p. p.plan ≡ self.now) }
        ensures state { IfOk result (λ p.
            (from : IsPlanFrom table.now self.now) → p.state ≡ initial table.now from.root.0) }
        ensures refused { (from : IsPlanFrom table.now self.now)
            → RefusedWith (alloc_refusal table.now from.root.0) result }
    {
        self.partial(alloc, table, hooks)
    }
}
