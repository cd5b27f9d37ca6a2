//! Converting the source of a conversion, as it ends.
ghost use Rattle.std.specs.Prelude.{◌<◌, ◌≡◌, ◌⊎◌};
ghost use Rattle.fr_frame.specs.Common.{Conserved, Err, IfErr, IfInUse, IfNone, IfOk, IfSome, IsChecked, IsSome, None, OnErr, OnOk, Room, RoseBy, body_occurs, heap_of, occurs, option_map, shape_of, slots_occur, value_of, view};
ghost use Rattle.fr_frame.specs.Converting.{IsConverted, IsConvertible, IsOver, IsRefused, OfSource, Refuses, conversion_over};
ghost use Rattle.fr_frame.specs.Heap.{as_conversion};
ghost use Rattle.fr_shape.specs.Hooks.{Answers, Meaning, gives};
ghost use Rattle.fr_shape.specs.Look.{IsIn};
ghost use Rattle.fr_shape.specs.declared.error.ReflectErrorKind.{ReflectErrorKind as Kind};

use crate::places::{Conversion, FrameOwner, PartialValue, SlotId, Through};
use crate::slots::Slots;
use fr_plan::{NodeId, TypePlanCore};
use fr_shape::{
    HookFault, Hooks, Ledger, ReflectErrorKind, ShapeId, ShapeTable, Text, TryFromFault, Value,
};
use std::alloc::Global;

/// The place above a source, its plan's node, and the conversion as which it is begun.
#[derive(Clone, Copy)]
struct Over {
    place: SlotId,
    node: NodeId,
    conversion: Conversion,
}

impl Conversion {
    /// Why the conversion gives no value of the shape `target`, after this fault of its hook. A
    /// proxy whose hook doesn't do this has an empty message.
    fn refusal(self, target: ShapeId, fault: HookFault) -> ReflectErrorKind
        ensures { (meaning : Meaning) → Answers meaning (Err fault) → (result ≡ Kind.OutOfMemory)
            ⊎ Refuses target.0 (as_conversion self) meaning result }
    {
        match (self.through, fault) {
            (_, HookFault::OutOfMemory) => ReflectErrorKind::OutOfMemory,
            (Through::Proxy, HookFault::Refused(message)) => {
                ReflectErrorKind::CustomDeserializationError {
                    message,
                    src_shape: self.source,
                    dst_shape: target,
                }
            }
            (Through::Proxy, HookFault::Unsupported) => {
                ReflectErrorKind::CustomDeserializationError {
                    message: Text::default(),
                    src_shape: self.source,
                    dst_shape: target,
                }
            }
            (Through::Wrapper, HookFault::Refused(message)) => ReflectErrorKind::TryFromError {
                src_shape: self.source,
                dst_shape: target,
                inner: TryFromFault::Generic(message),
            },
            (Through::Wrapper, HookFault::Unsupported) => ReflectErrorKind::TryFromError {
                src_shape: self.source,
                dst_shape: target,
                inner: TryFromFault::UnsupportedSourceType,
            },
        }
    }

    /// What its hook makes of a source's value: a value of the shape `target`. Where it makes none
    /// the source's value is released.
    fn value_of<H: Hooks>(
        self,
        alloc: Global,
        table: &ShapeTable,
        hooks: &H,
        target: ShapeId,
        value: Value,
        ledger: &mut Ledger,
    ) -> Result<Value, ReflectErrorKind>
        requires checked { IsChecked table.now }
        requires target { IsIn table.now target.0 }
        requires room { Room (occurs (view value)) ledger.old }
        ensures given { IfOk result (λ made. (H.means hooks.now).convert table.now self.hook.0
            target.0 (view value) ≡ gives (view made)) }
        ensures why { IfErr result (λ kind. (kind ≡ Kind.OutOfMemory)
            ⊎ IsRefused (H.means hooks.now) table.now target.0 (as_conversion self) (view value)
            kind) }
        ensures conserved { IfOk result (λ made. Conserved (occurs (view value)) ledger.old
            (occurs (view made)) ledger.new) }
        ensures released { OnErr result (RoseBy (occurs (view value)) ledger.old ledger.new) }
    {
        match hooks.convert(alloc, table, self.hook, target, value, ledger) {
            Ok(made) => Ok(made),
            Err(fault) => Err(self.refusal(target, fault)),
        }
    }
}

impl SlotId {
    /// What stands over a source, if the place is one.
    fn over(self, slots: &Slots) -> Option<Over>
        ensures over { IfSome result (IsOver (heap_of slots.now) self.0) }
        ensures none { IfNone result (conversion_over (heap_of slots.now) self.0 ≡ None) }
    {
        let FrameOwner::Child(parent, _) = &slots.place(self)?.owner else {
            return None;
        };
        let above = slots.place(*parent)?;
        let PartialValue::Begun(tracker, _) = &above.partial else {
            return None;
        };
        Some(Over {
            place: *parent,
            node: above.node,
            conversion: tracker.conversion()?,
        })
    }

    /// The conversion whose source the place is, if it is one's.
    pub fn conversion_above(self, slots: &Slots) -> Option<Conversion>
        ensures conversion { option_map as_conversion result
            ≡ conversion_over (heap_of slots.now) self.0 }
    {
        Some(self.over(slots)?.conversion)
    }

    /// Converts the value of a source, which is whole, or begun with each child there: what the
    /// hook makes of it is the value of the place above, which is whole then. No place is in the
    /// source's slot then. Where there is no memory for the source's value, or the hook makes
    /// nothing of it, what was put at the source is released.
    pub fn convert<H: Hooks>(
        self,
        slots: &mut Slots,
        table: &ShapeTable,
        plan: &TypePlanCore,
        hooks: &H,
        ledger: &mut Ledger,
    ) -> Result<(), ReflectErrorKind>
        requires checked { IsChecked table.now }
        requires complete { IfInUse slots.old self.0 (λ at. IsSome (value_of at.body)) }
        requires source { IfInUse slots.old self.0
            (IsConvertible table.now plan.now (heap_of slots.old) self.0) }
        requires room { IfInUse slots.old self.0 (λ at. Room (body_occurs at.body) ledger.old) }
        ensures converted { OnOk result (IfInUse slots.old self.0 (λ at.
            OfSource (heap_of slots.old) self.0 at (λ above. IsConverted (H.means hooks.now)
            table.now slots.old slots.new self.0 at.owner (shape_of plan.now above.node)))) }
        ensures why { IfErr result (λ kind. (kind ≡ Kind.OutOfMemory)
            ⊎ IfInUse slots.old self.0 (λ at. OfSource (heap_of slots.old) self.0 at
            (λ above conversion value. IsRefused (H.means hooks.now) table.now
            (shape_of plan.now above.node) conversion value kind))) }
        ensures conserved { Conserved (slots_occur slots.old) ledger.old (slots_occur slots.new)
            ledger.new }
    {
        let Some(over) = self.over(slots) else {
            unreachable!()
        };
        let target = plan.node(over.node).shape;
        let Ok(value) = self.into_value(slots, ledger) else {
            return Err(ReflectErrorKind::OutOfMemory);
        };
        let alloc = slots.alloc();
        let made = over
            .conversion
            .value_of(alloc, table, hooks, target, value, ledger)?;
        over.place.put(slots, made, ledger);
        Ok(())
    }
}
