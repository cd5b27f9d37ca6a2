//! Completing one place by itself: what it lacks is found first, and then its holes take copies of
//! their templates.
ghost use Rattle.std.specs.Prelude.{◌<◌, ◌≡◌, ◌≢◌, ◌⊎◌};
ghost use Rattle.fr_frame.specs.Common.{Becomes, FillsAt, IfErr, IfInUse, IsChecked, IsClosed, IsClosedAt, IsFull, IsInUse, IsPlanFor, IsUnfilled, KeepsTracker, MayComplete, None, OnOk, SameTokens, Shows, WhyNot, asked, body_occurs, body_of, column_of, defaulted, false, heap_of, is_conversion_body, length, question_of, shape_of, strict_column, ℕ};
ghost use Rattle.fr_shape.specs.declared.error.ReflectErrorKind.{ReflectErrorKind as Kind};

use crate::field_plans::FillColumn;
use crate::filling::fill;
use crate::lacking::{Question, test_partial};
use crate::places::{PartialValue, SlotId};
use crate::slots::Slots;
use fr_plan::{NodeId, TypePlanCore};
use fr_shape::{Hooks, OutOfMemory, ReflectErrorKind, ShapeTable};
use std::alloc::Global;

/// What is asked of a place before it takes its fills by these rules.
fn question_for(column: FillColumn) -> Question
    ensures { result ≡ question_of column }
{
    match column {
        FillColumn::Strict => Question::Strict,
        FillColumn::Deferred => Question::Marks,
    }
}

/// Lets a place, all of whose children are given or not there, take its fills by the rules of this
/// column. Only copies of templates, and what is said of a value that fails, need memory. Where
/// there is none, some of its holes may be filled.
fn fill_partial<H: Hooks>(
    alloc: Global,
    table: &ShapeTable,
    plan: &TypePlanCore,
    hooks: &H,
    node: NodeId,
    column: FillColumn,
    partial: &mut PartialValue,
) -> Result<(), ReflectErrorKind>
    requires checked { IsChecked table.now }
    requires planned { IsPlanFor table.now plan.now }
    requires inside { node.0 < length plan.now.nodes }
    requires full { IsFull table.now (shape_of plan.now node) (body_of partial.old) }
    requires closed { IsClosed (body_of partial.old) }
    requires unconverted { is_conversion_body (body_of partial.old) ≡ false }
    ensures filled { OnOk result (body_of partial.new ≡ defaulted (column_of column) table.now
        (shape_of plan.now node) (body_of partial.old)) }
    ensures met { OnOk result (asked (question_of column) (H.means hooks.now) table.now
        (shape_of plan.now node) (body_of partial.old) ≡ None) }
    ensures why { IfErr result (IsUnfilled column (H.means hooks.now) table.now
        (shape_of plan.now node) (body_of partial.old)) }
    ensures unchanged { IfErr result (λ kind. (kind ≡ Kind.OutOfMemory)
        ⊎ (body_of partial.new ≡ body_of partial.old)) }
    ensures tokens { (t : ℕ) →
        body_occurs (body_of partial.new) t ≡ body_occurs (body_of partial.old) t }
    ensures closed { IsClosed (body_of partial.new) }
{
    let question = question_for(column);
    test_partial(alloc, table, plan, hooks, node, question, partial)?;
    match fill(alloc, table, plan, node, column, partial) {
        Ok(()) => Ok(()),
        Err(OutOfMemory) => Err(ReflectErrorKind::OutOfMemory),
    }
}

impl SlotId {
    /// Lets the place take its fills by the rules of this column. What the column asks before is
    /// found before anything is copied.
    pub(crate) fn fill_by<H: Hooks>(
        self,
        slots: &mut Slots,
        table: &ShapeTable,
        plan: &TypePlanCore,
        hooks: &H,
        column: FillColumn,
    ) -> Result<(), ReflectErrorKind>
        requires in_use { IsInUse slots.old self.0 }
        requires checked { IsChecked table.now }
        requires plan { IsPlanFor table.now plan.now }
        requires place { IfInUse slots.old self.0 (MayComplete table.now plan.now) }
        ensures filled { OnOk result (IfInUse slots.old self.0 (λ at.
            Becomes slots.old slots.new self.0 at
            (defaulted (column_of column) table.now (shape_of plan.now at.node) at.body))) }
        ensures met { OnOk result (IfInUse slots.old self.0 (λ at. asked (question_of column)
            (H.means hooks.now) table.now (shape_of plan.now at.node) at.body ≡ None)) }
        ensures why { IfErr result (λ kind. IfInUse slots.old self.0 (λ at. IsUnfilled column
            (H.means hooks.now) table.now (shape_of plan.now at.node) at.body kind)) }
        ensures unchanged { IfErr result (λ kind. (kind ≡ Kind.OutOfMemory)
            ⊎ Shows slots.new (heap_of slots.old)) }
        ensures others { (n : ℕ) → n ≢ self.0 → heap_of slots.new n ≡ heap_of slots.old n }
        ensures closed { IfInUse slots.old self.0 (IsClosedAt slots.old slots.new self.0) }
        ensures tokens { SameTokens slots.old slots.new }
    {
        let alloc = slots.alloc();
        let place = slots.place_mut(self);
        fill_partial(
            alloc,
            table,
            plan,
            hooks,
            place.node,
            column,
            &mut place.partial,
        )
    }

    /// Completes the place, so that its value can be taken out: a child that isn't there takes a
    /// copy of its template, and every child's value has to pass its field's validators. What is
    /// lacking is found before anything is copied.
    pub fn fill_and_require_fields<H: Hooks>(
        self,
        slots: &mut Slots,
        table: &ShapeTable,
        plan: &TypePlanCore,
        hooks: &H,
    ) -> Result<(), ReflectErrorKind>
        requires in_use { IsInUse slots.old self.0 }
        requires checked { IsChecked table.now }
        requires plan { IsPlanFor table.now plan.now }
        requires place { IfInUse slots.old self.0 (MayComplete table.now plan.now) }
        ensures filled { OnOk result (IfInUse slots.old self.0 (FillsAt strict_column
            (H.means hooks.now) table.now plan.now slots.old slots.new self.0)) }
        ensures tracker { OnOk result (IfInUse slots.old self.0 (λ at.
            IfInUse slots.new self.0 (λ after. KeepsTracker at.body after.body))) }
        ensures why { IfErr result (λ kind. IfInUse slots.old self.0 (λ at.
            WhyNot (H.means hooks.now) table.now (shape_of plan.now at.node) at.body kind)) }
        ensures unchanged { IfErr result (λ kind. (kind ≡ Kind.OutOfMemory)
            ⊎ Shows slots.new (heap_of slots.old)) }
        ensures others { (n : ℕ) → n ≢ self.0 → heap_of slots.new n ≡ heap_of slots.old n }
        ensures closed { IfInUse slots.old self.0 (IsClosedAt slots.old slots.new self.0) }
        ensures tokens { SameTokens slots.old slots.new }
    {
        self.fill_by(slots, table, plan, hooks, FillColumn::Strict)
    }
}
