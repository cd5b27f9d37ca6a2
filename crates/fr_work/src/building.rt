//! The end of a builder: the value of the root.
ghost use Rattle.std.specs.Prelude.{◌≡◌, ◌≢◌, Err};
ghost use Rattle.fr_work.specs.Common.{Conserved, IfErr, IfOk, IsChecked, IsErr, IsIn, IsPlanOf, None, OnErr, OnOk, Room, RoseBy, cursor_tree, fits, held_at, occurs, path_of, takes_no_memory, true, view};
ghost use Rattle.fr_shape.specs.declared.error.Invariant.{Invariant as Broken};
ghost use Rattle.fr_shape.specs.declared.error.ReflectErrorKind.{ReflectErrorKind as Kind};
ghost use Rattle.fr_shape.specs.Invariants.{keeps_invariants};
ghost use Rattle.fr_model.specs.Step.{violates};
ghost use Rattle.fr_work.specs.Building.{left_built};
ghost use Rattle.fr_work.specs.Building.{build_refusal, meant_by_build, IsBuiltSo, IsKeptIf};
ghost use Rattle.fr_moves.specs.CompletedPlaces.{PassesValidators};

use crate::work::Work;
use crate::{Built, ReflectError};
use fr_model::law_completes;
use fr_moves::{Parts, take_root};
use fr_plan::TypePlanCore;
use fr_refusals::Mode;
use fr_shape::{
    Hooks, Invariant, Ledger, ReflectErrorKind, ShapeId, ShapeTable, Value, keeps_invariants,
    law_hooks, law_invariants, release,
};

/// Whether a value of the root keeps its invariants. Nothing is asked where the root reaches none.
fn root_keeps_invariants<H: Hooks>(
    plan: &TypePlanCore,
    table: &ShapeTable,
    root: ShapeId,
    hooks: &H,
    value: &Value,
) -> bool
    requires checked { IsChecked table.now }
    requires inside { IsIn table.now root.0 }
    requires planned { IsPlanOf table.now root plan.now }
    requires fits { fits table.now root.0 (view value.now) ≡ true }
    ensures { result ≡
        keeps_invariants (H.means hooks.now).check table.now root.0 (view value.now) }
{
    law_invariants();
    !plan.has_invariants() || keeps_invariants(table, hooks, root, value)
}

/// The value of the root back, if it keeps its invariants; else it is released.
fn keep_root<H: Hooks>(
    plan: &TypePlanCore,
    table: &ShapeTable,
    root: ShapeId,
    hooks: &H,
    value: Value,
    ledger: &mut Ledger,
) -> Result<Value, ReflectErrorKind>
    requires checked { IsChecked table.now }
    requires inside { IsIn table.now root.0 }
    requires planned { IsPlanOf table.now root plan.now }
    requires fits { fits table.now root.0 (view value) ≡ true }
    requires room { Room (occurs (view value)) ledger.old }
    ensures kept { IsKeptIf
        (keeps_invariants (H.means hooks.now).check table.now root.0 (view value))
        (view value) result }
    ensures unreleased { OnOk result (ledger.new ≡ ledger.old) }
    ensures released { OnErr result (RoseBy (occurs (view value)) ledger.old ledger.new) }
{
    if root_keeps_invariants(plan, table, root, hooks, &value) {
        return Ok(value);
    }
    release(value, ledger);
    let invariant = Invariant::TypeInvariant;
    Err(ReflectErrorKind::InvariantViolation { invariant })
}

impl<'t> Work<'t> {
    /// Why there is nothing to be built yet, if so: deferred mode isn't over, or the builder isn't
    /// at the root.
    pub fn build_refusal(&self) -> Option<Invariant>
        ensures refusal { result ≡ build_refusal self.now.state }
    {
        match self.mode() {
            Mode::Deferred(_) => Some(Invariant::BuildDeferred),
            Mode::Strict if self.depth() == 0 => None,
            Mode::Strict => Some(Invariant::BuildOpenFrames),
        }
    }

    /// Completes the root and hands its value over, if it keeps its invariants. Where that can't
    /// be, all is released.
    pub fn take_root<H: Hooks>(self, hooks: &H, ledger: &mut Ledger) -> Result<Built, ReflectError>
        requires room { Room (held_at self) ledger.old }
        requires admitted { build_refusal self.state ≡ None }
        ensures built { IsBuiltSo (H.means hooks.now) self.entry result }
        ensures path { IfErr result (λ error. error.path ≡ path_of self.entry.state) }
        ensures fits { IfOk result (λ built.
            fits self.entry.shapes self.entry.root built.value ≡ true) }
        ensures tokens { Conserved (held_at self.entry) ledger.old (left_built result) ledger.new }
        ensures refused { IsErr (meant_by_build (H.means hooks.now) self.entry)
            → PassesValidators (meant_by_build (H.means hooks.now) self.entry)
            → meant_by_build (H.means hooks.now) self.entry ≢ Err (violates Broken.TypeInvariant)
            → IfErr result (λ error. error.kind ≢ Kind.OutOfMemory) }
        ensures memory { takes_no_memory (cursor_tree self.entry.state) ≡ true
            → PassesValidators (meant_by_build (H.means hooks.now) self.entry)
            → IfErr result (λ error. error.kind ≢ Kind.OutOfMemory) }
    {
        law_hooks::<H>();
        law_completes();
        let Work { parts } = self;
        let Parts {
            alloc: _,
            plan,
            frames,
            path,
            calls,
        } = Box::into_inner(parts);
        let (table, root) = (frames.table, frames.root);
        let value = match take_root(plan.core(), hooks, frames, ledger) {
            Ok(value) => value,
            Err(kind) => return Err(ReflectError { kind, path }),
        };
        match keep_root(plan.core(), table, root, hooks, value, ledger) {
            Ok(value) => Ok(Built { value, calls }),
            Err(kind) => Err(ReflectError { kind, path }),
        }
    }
}
