//! The calls that go by a Rust type: a builder of its shape, a value of it at a place, and one made
//! of a value.
ghost use Rattle.std.specs.Prelude.{◌+◌, ◌∷◌, ◌≡◌};
ghost use Rattle.fr_facet.specs.Facets.{IsReadIf};
ghost use Rattle.fr_partial.specs.Common.{Call, IfOk, IsChecked, IsIn, IsNotOutOfMemory, IsNumbered, IsPlanOf, OnErr, OnOk, Room, RoseBy, [], false, fits, holds, occurs, true, view};
ghost use Rattle.fr_refusals.specs.SettingDynamic.{copies_at};
ghost use Rattle.fr_model.specs.Run.{alloc_refusal};
ghost use Rattle.fr_model.specs.Tree.{initial};
ghost use Rattle.fr_partial.specs.Builder.{IsCall, here};
ghost use Rattle.fr_partial.specs.Several.{AreCalls};
ghost use Rattle.fr_work.specs.Starting.{RefusedWith};
ghost use Rattle.fr_partial.specs.Typed.{HasShape, own_number, own_shape};

use crate::{Partial, ReflectError};
use fr_facet::{Facet, FacetFault, law_facet};
use fr_shape::{
    Hooks, Ledger, OutOfMemory, PlanError, ReflectErrorKind, ShapeId, ShapeTable, Shaped, Value,
};
use std::alloc::Global;

/// The element of a type that a value is. It is refused just where the value fits no shape of the
/// type, and what is refused, or lacks memory, is released.
pub fn materialize<T: Facet>(
    alloc: Global,
    value: Value,
    ledger: &mut Ledger,
) -> Result<T, FacetFault>
    requires room { Room (occurs (view value)) ledger.old }
    ensures element { IfOk result (λ x. T.shown x ≡ view value) }
    ensures read { IsReadIf (T.takes (view value)) result }
    ensures unreleased { OnOk result (ledger.new ≡ ledger.old) }
    ensures released { OnErr result (RoseBy (occurs (view value)) ledger.old ledger.new) }
{
    T::from_value(alloc, value, ledger)
}

/// The first shape of the type in the table, which has one.
pub(crate) fn shape_of<T: Facet>(table: &ShapeTable) -> ShapeId
    requires shape { HasShape T.is_own table.now }
    ensures number { result.0 ≡ own_number T.is_own table.now }
    ensures inside { IsIn table.now result.0 }
{
    match T::find(table) {
        Some(id) => id,
        None => unreachable!(),
    }
}

/// A value of the type with the number of its shape. Where there is no memory, its tokens are
/// released.
pub(crate) fn shaped<U: Facet>(
    alloc: Global,
    table: &ShapeTable,
    value: U,
    ledger: &mut Ledger,
) -> Result<Shaped, OutOfMemory>
    requires shape { HasShape U.is_own table.now }
    requires room { Room (occurs (U.shown value)) ledger.old }
    ensures shape { IfOk result (λ s. s.shape ≡ own_number U.is_own table.now) }
    ensures value { IfOk result (λ s. s.value ≡ U.shown value) }
    ensures fits { IfOk result (λ s. fits table.now s.shape s.value ≡ true) }
    ensures unreleased { OnOk result (ledger.new ≡ ledger.old) }
    ensures released { OnErr result (RoseBy (occurs (U.shown value)) ledger.old ledger.new) }
{
    law_facet::<U>();
    let shape = shape_of::<U>(table);
    let plain = value.into_value(alloc, ledger)?;
    Ok(Shaped::new(table, shape, plain))
}

impl<'t, H: Hooks> Partial<'t, H> {
    /// A builder of a value of the type's first shape in the table, which has one. The refusals are
    /// those of `alloc_shape`.
    pub fn alloc<T: Facet>(
        alloc: Global,
        table: &'t ShapeTable,
        hooks: &'t H,
    ) -> Result<Partial<'t, H>, PlanError>
        requires shape { HasShape T.is_own table.now }
        requires numbered { IsNumbered table.now }
        requires checked { IsChecked table.now }
        ensures shapes { IfOk result (λ p. p.shapes ≡ table.now) }
        ensures hooks { IfOk result (λ p. p.hooks ≡ hooks.now) }
        ensures root { IfOk result (λ p. p.root ≡ own_number T.is_own table.now) }
        ensures plan { IfOk result (λ p.
            IsPlanOf table.now (own_shape T.is_own table.now) p.plan) }
        ensures state { IfOk result (λ p.
            p.state ≡ initial table.now (own_number T.is_own table.now)) }
        ensures refused { RefusedWith (alloc_refusal table.now (own_number T.is_own table.now))
            result }
    {
        Partial::alloc_shape(alloc, table, shape_of::<T>(table), hooks)
    }

    /// The same as `alloc`.
    pub fn alloc_owned<T: Facet>(
        alloc: Global,
        table: &'t ShapeTable,
        hooks: &'t H,
    ) -> Result<Partial<'t, H>, PlanError>
        requires shape { HasShape T.is_own table.now }
        requires numbered { IsNumbered table.now }
        requires checked { IsChecked table.now }
        ensures shapes { IfOk result (λ p. p.shapes ≡ table.now) }
        ensures hooks { IfOk result (λ p. p.hooks ≡ hooks.now) }
        ensures root { IfOk result (λ p. p.root ≡ own_number T.is_own table.now) }
        ensures plan { IfOk result (λ p.
            IsPlanOf table.now (own_shape T.is_own table.now) p.plan) }
        ensures state { IfOk result (λ p.
            p.state ≡ initial table.now (own_number T.is_own table.now)) }
        ensures refused { RefusedWith (alloc_refusal table.now (own_number T.is_own table.now))
            result }
    {
        Partial::alloc::<T>(alloc, table, hooks)
    }

    /// `set_shape` of a value of the type, whose first shape in the table, which has one, the value
    /// is given. To make the value may want memory, also where it is refused.
    pub fn set<U: Facet>(
        self,
        value: U,
        ledger: &mut Ledger,
    ) -> Result<Partial<'t, H>, ReflectError>
        requires shape { HasShape U.is_own self.shapes }
        requires room { Room (λ t. holds self t + occurs (U.shown value) t) ledger.old }
        ensures call { AreCalls (H.means self.entry.hooks) self.entry
            (Call.Set (own_number U.is_own self.entry.shapes) (U.shown value) ∷ [])
            result ledger.old ledger.new }
    {
        match shaped(self.work.alloc(), self.table(), value, ledger) {
            Ok(value) => self.set_shape(value, ledger),
            Err(OutOfMemory) => Err(self.refuse(ReflectErrorKind::OutOfMemory, ledger)),
        }
    }

    /// The same as `set_shape`.
    pub fn set_from_peek(
        self,
        value: Shaped,
        ledger: &mut Ledger,
    ) -> Result<Partial<'t, H>, ReflectError>
        requires fits { fits self.shapes value.shape value.value ≡ true }
        requires room { Room (λ t. holds self t + occurs value.value t) ledger.old }
        ensures call { IsCall (H.means self.entry.hooks) self.entry
            (Call.Set value.shape value.value) result ledger.old ledger.new }
        ensures memory { copies_at self.entry.shapes (here self.entry) value.shape ≡ false
            → IsNotOutOfMemory result }
    {
        self.set_shape(value, ledger)
    }
}
