//! Completing one place by the rules of the end of deferred mode: its holes take their fills, then
//! none may be left, then its fields' validators run.
ghost use Rattle.std.specs.Prelude.{◌≡◌, ◌≢◌, ◌⊎◌};
ghost use Rattle.fr_frame.specs.Common.{Becomes, FillsAt, HasAllChildren, IfErr, IfInUse, IsCauseOf, IsChecked, IsClosedAt, IsInUse, IsPlanFor, IsPlanned, KeepsTracker, MayComplete, None, OnOk, SameTokens, Shows, Some, Table, WhyNotDefault, defaulted, deferred_column, first_hole_left, heap_of, invalid, shape_of, takes_template, true, unmet, ℕ};
ghost use Rattle.fr_shape.specs.declared.error.ReflectErrorKind.{ReflectErrorKind as Kind};

use crate::field_plans::FillColumn;
use crate::lacking::{Question, test_partial};
use crate::partial_values::is_list;
use crate::places::SlotId;
use crate::slots::Slots;
use crate::validating::test_valid;
use fr_plan::TypePlanCore;
use fr_shape::{Hooks, ReflectErrorKind, ShapeTable};

impl SlotId {
    /// Lets each hole of the place take its fill by the rules of deferred mode, where it has one,
    /// and an entered place what it makes of itself. A field that is marked to take a default that
    /// there isn't is found before anything is copied.
    pub fn fill_defaults<H: Hooks>(
        self,
        slots: &mut Slots,
        table: &ShapeTable,
        plan: &TypePlanCore,
        hooks: &H,
    ) -> Result<(), ReflectErrorKind>
        requires in_use { IsInUse slots.old self.0 }
        requires checked { IsChecked table.now }
        requires plan { IsPlanFor table.now plan.now }
        requires place { IfInUse slots.old self.0 (MayComplete table.now plan.now) }
        ensures filled { OnOk result (IfInUse slots.old self.0 (λ at.
            Becomes slots.old slots.new self.0 at
            (defaulted deferred_column table.now (shape_of plan.now at.node) at.body))) }
        ensures met { OnOk result (IfInUse slots.old self.0 (λ at.
            unmet table.now (shape_of plan.now at.node) at.body ≡ None)) }
        ensures why { IfErr result (λ kind. IfInUse slots.old self.0 (λ at.
            ((kind ≡ Kind.OutOfMemory) × (takes_template at.body ≡ true))
            ⊎ (unmet table.now (shape_of plan.now at.node) at.body ≡ Some kind))) }
        ensures unchanged { IfErr result (λ kind. (kind ≡ Kind.OutOfMemory)
            ⊎ Shows slots.new (heap_of slots.old)) }
        ensures others { (n : ℕ) → n ≢ self.0 → heap_of slots.new n ≡ heap_of slots.old n }
        ensures closed { IfInUse slots.old self.0 (IsClosedAt slots.old slots.new self.0) }
        ensures tokens { SameTokens slots.old slots.new }
    {
        self.fill_by(slots, table, plan, hooks, FillColumn::Deferred)
    }

    /// Tests that nothing of the place is left out: that it isn't just entered, and that each child
    /// is there. Takes no memory.
    pub fn require_full_initialization<H: Hooks>(
        self,
        slots: &mut Slots,
        table: &ShapeTable,
        plan: &TypePlanCore,
        hooks: &H,
    ) -> Result<(), ReflectErrorKind>
        requires in_use { IsInUse slots.old self.0 }
        requires checked { IsChecked table.now }
        requires plan { IsPlanFor table.now plan.now }
        requires place { IfInUse slots.old self.0 (MayComplete table.now plan.now) }
        ensures full { OnOk result (IfInUse slots.old self.0 (λ at.
            first_hole_left (shape_of plan.now at.node) at.body ≡ None)) }
        ensures why { IfErr result (λ kind. IfInUse slots.old self.0 (λ at.
            first_hole_left (shape_of plan.now at.node) at.body ≡ Some kind)) }
        ensures unchanged { slots.new ≡ slots.old }
    {
        let alloc = slots.alloc();
        let place = slots.place_mut(self);
        test_partial(
            alloc,
            table,
            plan,
            hooks,
            place.node,
            Question::There,
            &place.partial,
        )
    }

    /// Runs the validators of the fields of a begun struct or variant whose children are all there,
    /// in index order. Any other place, be it entered, whole, an array, or begun around one child,
    /// has none to run, and passes. Only what is said of a value that fails takes memory.
    pub fn run_validators<H: Hooks>(
        self,
        slots: &Slots,
        plan: &TypePlanCore,
        hooks: &H,
    ) -> Result<(), ReflectErrorKind>
        requires planned { IfInUse slots.now self.0 (λ at. IsPlanned plan.now at.node) }
        requires full { IfInUse slots.now self.0 (λ at. HasAllChildren at.body) }
        ensures passing { OnOk result (IfInUse slots.now self.0 (λ at.
            (table : Table) → IsChecked table → IsPlanFor table plan.now
            → MayComplete table plan.now at
            → invalid (H.means hooks.now) table (shape_of plan.now at.node) at.body ≡ None)) }
        ensures failing { IfErr result (λ kind. IfInUse slots.now self.0 (λ at.
            (table : Table) → IsChecked table → IsPlanFor table plan.now
            → MayComplete table plan.now at
            → IsCauseOf (invalid (H.means hooks.now) table (shape_of plan.now at.node) at.body)
            kind)) }
    {
        match slots.place(self) {
            Some(place) => {
                // What is told of a list doesn't say whether its items are there, and it has no
                // fields.
                if is_list(&place.partial) {
                    return Ok(());
                }
                test_valid(slots.alloc(), plan, hooks, place.node, &place.partial)
            }
            None => unreachable!(),
        }
    }

    /// Completes the place by the rules of the end of deferred mode, so that its value can be taken
    /// out: fills, then that nothing is left out, then validators. A begun place stays begun.
    pub fn complete_by_defaults<H: Hooks>(
        self,
        slots: &mut Slots,
        table: &ShapeTable,
        plan: &TypePlanCore,
        hooks: &H,
    ) -> Result<(), ReflectErrorKind>
        requires in_use { IsInUse slots.old self.0 }
        requires checked { IsChecked table.now }
        requires plan { IsPlanFor table.now plan.now }
        requires place { IfInUse slots.old self.0 (MayComplete table.now plan.now) }
        ensures filled { OnOk result (IfInUse slots.old self.0 (FillsAt deferred_column
            (H.means hooks.now) table.now plan.now slots.old slots.new self.0)) }
        ensures tracker { OnOk result (IfInUse slots.old self.0 (λ at.
            IfInUse slots.new self.0 (λ after. KeepsTracker at.body after.body))) }
        ensures why { IfErr result (λ kind. IfInUse slots.old self.0 (λ at.
            WhyNotDefault (H.means hooks.now) table.now (shape_of plan.now at.node) at.body kind)) }
        ensures others { (n : ℕ) → n ≢ self.0 → heap_of slots.new n ≡ heap_of slots.old n }
        ensures closed { IfInUse slots.old self.0 (IsClosedAt slots.old slots.new self.0) }
        ensures tokens { SameTokens slots.old slots.new }
    {
        self.fill_defaults(slots, table, plan, hooks)?;
        self.require_full_initialization(slots, table, plan, hooks)?;
        self.run_validators(slots, plan, hooks)
    }
}
