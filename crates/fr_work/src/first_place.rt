//! What a builder works with at first: a root at which nothing was put yet.
ghost use Rattle.std.specs.Prelude.{◌≡◌};
ghost use Rattle.fr_work.specs.Common.{IfOk, IsChecked, IsIn, IsNumbered, IsOpenAt, IsPlanOf, NothingStored, [], def_of, fresh, plan_in, unsized_refusal};
ghost use Rattle.fr_shape.specs.Checked.{is_sized};
ghost use Rattle.fr_model.specs.Tree.{initial};
ghost use Rattle.fr_work.specs.Starting.{RefusedWith};

use crate::work::Work;
use fr_frame::{FrameOwner, Slots};
use fr_model::law_well;
use fr_moves::{Frames, HeldPlan, Parts};
use fr_path::Path;
use fr_plan::{TypePlanCore, law_plan_lookups};
use fr_refusals::Mode;
use fr_shape::{AllocError, Def, PlanError, PlanFault, ShapeId, ShapeTable};
use fr_store::{FrameStore, Stack};
use std::alloc::Global;

/// Whether the size of the shape's values is known.
fn is_sized(table: &ShapeTable, shape: ShapeId) -> bool
    ensures { result ≡ is_sized (def_of table.now shape.0) }
{
    let Some(entry) = table.get(shape) else {
        return true;
    };
    match &entry.def {
        Def::Str | Def::Slice(_) => false,
        Def::Scalar(_) | Def::Opaque | Def::Struct(_) | Def::Enum(_) | Def::Option(_) => true,
        Def::Result(_, _) | Def::List(_) | Def::Map(_, _) | Def::Set(_) | Def::Array(_, _) => true,
        Def::Pointer(_) | Def::Dynamic | Def::Undefined | Def::Other => true,
    }
}

/// The slot of a root at which nothing was put yet, and the stack of it alone, unless the root is
/// unsized.
fn first_place(
    alloc: Global,
    table: &ShapeTable,
    plan: &TypePlanCore,
    root: ShapeId,
) -> Result<(Slots, Stack), PlanError>
    requires checked { IsChecked table.now }
    requires inside { IsIn table.now root.0 }
    requires planned { IsPlanOf table.now root plan.now }
    ensures open { IfOk result (λ both.
        IsOpenAt plan.now both.0 both.1 [] (fresh (def_of table.now root.0))) }
    ensures nothing { IfOk result (λ both. NothingStored both.0) }
    ensures refused { RefusedWith (unsized_refusal table.now root.0) result }
{
    law_plan_lookups();
    if !is_sized(table, root) {
        return Err(PlanError::Alloc(AllocError {
            shape: root,
            operation: PlanFault::NotSized,
        }));
    }
    let mut slots = Slots::new(alloc);
    let mut stack = Stack::new(alloc);
    let Ok(top) = slots.enter(table, plan, plan.root_id(), FrameOwner::Root) else {
        return Err(PlanError::OutOfMemory);
    };
    let Ok(()) = stack.push(top) else {
        return Err(PlanError::OutOfMemory);
    };
    Ok((slots, stack))
}

impl<'t> Work<'t> {
    /// At a root that was planned nothing was put yet, unless the root is unsized.
    pub fn start(
        alloc: Global,
        table: &'t ShapeTable,
        plan: HeldPlan<'t>,
        root: ShapeId,
    ) -> Result<Work<'t>, PlanError>
        requires plan { IsPlanOf table.now root (plan_in plan) }
        requires inside { IsIn table.now root.0 }
        requires numbered { IsNumbered table.now }
        requires checked { IsChecked table.now }
        ensures shapes { IfOk result (λ work. work.shapes ≡ table.now) }
        ensures root { IfOk result (λ work. work.root ≡ root.0) }
        ensures plan { IfOk result (λ work. work.plan ≡ plan_in plan.entry) }
        ensures state { IfOk result (λ work. work.state ≡ initial table.now root.0) }
        ensures refused { RefusedWith (unsized_refusal table.now root.0) result }
    {
        law_well();
        let (slots, stack) = match first_place(alloc, table, plan.core(), root) {
            Ok(both) => both,
            Err(refused) => return Err(refused),
        };
        let frames = Frames {
            table,
            root,
            slots,
            stack,
            store: FrameStore::new(alloc),
            mode: Mode::Strict,
        };
        let parts = Parts {
            alloc,
            plan,
            frames,
            path: Path::new(alloc),
            calls: 0,
        };
        let Ok(parts) = Box::new(alloc, parts) else {
            return Err(PlanError::OutOfMemory);
        };
        Ok(Work { parts })
    }
}
