//! A look at a place that has a value so far.
ghost use Rattle.std.specs.Option.{option_and_then, option_copied, option_map};
ghost use Rattle.std.specs.Prelude.{length, slice_get, true, ◌<◌, ◌≡◌};
ghost use Rattle.fr_frame.specs.Heap.{as_tracker, body_of, heap_of};
ghost use Rattle.fr_shape.specs.View.{view};
ghost use Rattle.fr_work.specs.PlaceViews.{all_valued, child_value, has_parts, initialized_in, is_initialized, variant_shown, whole_in};

use fr_frame::{Children, ContentKind, PartialValue, SlotId, Slots, Tracker};
use fr_shape::{ShapeId, Value};
use std::marker::Model;

/// What is at a place that has a value so far: it is whole, or it is begun as a struct, an array, a
/// variant, an option, a side of a result or a pointer, and its children are all whole. It is lent
/// by the builder, and holds no copy. Contracts see what its calls return.
#[derive(Drop)]
pub struct PlaceView<'a> {
    shape: ShapeId,
    slots: &'a Slots,
    partial: &'a PartialValue,
}

impl<'a> Model for PlaceView<'a> {
    ghost use Rattle.std.specs.Prelude.{true, ◌≡◌};
    ghost use Rattle.fr_frame.specs.Heap.{body_of, heap_of};
    ghost use Rattle.fr_work.specs.PlaceViews.{Initialized, initialized_code, is_initialized, seen_in};

    ghost Value = { Initialized };

    ghost coded = { initialized_code };

    ghost view = { λ it. seen_in it.shape.0 (heap_of it.slots.now) (body_of it.partial.now) };

    ghost invariant = { λ it.
        is_initialized (heap_of it.slots.now) (body_of it.partial.now) ≡ true };
}

/// The value of the place in a slot, where it is whole.
fn whole_in_slot(slots: &Slots, slot: u32) -> Option<&Value>
    ensures { option_map view (option_copied result) ≡ whole_in (heap_of slots.now slot) }
{
    match &slots.place(SlotId(slot))?.partial {
        PartialValue::Whole(value) => Some(value),
        PartialValue::Entered | PartialValue::Begun(..) => None,
    }
}

/// The value of a child that is there, or whole in a slot of its own.
fn child_value<'a>(slots: &'a Slots, children: &'a Children, i: usize) -> Option<&'a Value>
    requires { i < length children.now }
    ensures { option_map view (option_copied result)
        ≡ option_and_then (child_value (heap_of slots.now)) (slice_get children.now i) }
{
    match children.value(i) {
        Some(value) => Some(value),
        None => whole_in_slot(slots, children.slot(i)?),
    }
}

/// The same, and none where there is no such child.
fn nth_value<'a>(slots: &'a Slots, children: &'a Children, i: usize) -> Option<&'a Value>
    ensures { option_map view (option_copied result)
        ≡ option_and_then (child_value (heap_of slots.now)) (slice_get children.now i) }
{
    if i < children.len() {
        child_value(slots, children, i)
    } else {
        None
    }
}

/// Whether all children have a value.
fn all_valued(slots: &Slots, children: &Children) -> bool
    ensures { result ≡ all_valued (heap_of slots.now) children.now }
{
    for i in 0..children.len() {
        match child_value(slots, children, i) {
            Some(_) => {}
            None => return false,
        }
    }
    true
}

/// Whether the value of a place that is begun so is made of its children's, one for each field or
/// element, or of the one that it holds.
fn has_parts(tracker: &Tracker) -> bool
    ensures { result ≡ has_parts (as_tracker tracker.now) }
{
    match tracker {
        Tracker::Fields(_) | Tracker::Elements => true,
        Tracker::Content(ContentKind::Source(_)) => false,
        Tracker::Content(
            ContentKind::Some | ContentKind::Ok | ContentKind::Err | ContentKind::Pointer,
        ) => true,
        Tracker::Items(_) | Tracker::Entries(_) => false,
    }
}

/// Whether a place has a value so far.
fn is_initialized(slots: &Slots, partial: &PartialValue) -> bool
    ensures { result ≡ is_initialized (heap_of slots.now) (body_of partial.now) }
{
    match partial {
        PartialValue::Entered => false,
        PartialValue::Whole(_) => true,
        PartialValue::Begun(tracker, children) => has_parts(tracker) && all_valued(slots, children),
    }
}

/// The look at a place of this shape, where this was put and whose children are in these slots. It
/// takes no memory.
pub fn view_of<'a>(
    slots: &'a Slots,
    shape: ShapeId,
    partial: &'a PartialValue,
) -> Option<PlaceView<'a>>
    ensures view { result ≡ initialized_in shape.0 (heap_of slots.now) (body_of partial.now) }
{
    if !is_initialized(slots, partial) {
        return None;
    }
    Some(PlaceView {
        shape,
        slots,
        partial,
    })
}

impl<'a> PlaceView<'a> {
    /// The shape of the place.
    pub fn shape(&self) -> ShapeId
        ensures shape { result.0 ≡ self.now.shape }
    {
        self.shape
    }

    /// The value of the place, where it is whole.
    pub fn whole(&self) -> Option<&Value>
        ensures whole { option_map view (option_copied result) ≡ self.now.whole_value }
    {
        match self.partial {
            PartialValue::Whole(value) => Some(value),
            PartialValue::Entered | PartialValue::Begun(..) => None,
        }
    }

    /// How many children it has; a whole place shows none.
    pub fn len(&self) -> usize
        ensures count { result ≡ length self.now.children }
    {
        match self.partial {
            PartialValue::Begun(_, children) => children.len(),
            PartialValue::Entered | PartialValue::Whole(_) => 0,
        }
    }

    /// The value of a child. It takes the same time whichever it is.
    pub fn get(&self, i: usize) -> Option<&Value>
        ensures child { option_map view (option_copied result) ≡ slice_get self.now.children i }
    {
        match self.partial {
            PartialValue::Begun(_, children) => nth_value(self.slots, children, i),
            PartialValue::Entered | PartialValue::Whole(_) => None,
        }
    }

    /// The number of the variant as which an enum is begun, 0 for the content of an option or the ok
    /// side of a result, and 1 for its err side.
    pub fn variant(&self) -> Option<u32>
        ensures variant { result ≡ self.now.variant }
    {
        match self.partial {
            PartialValue::Begun(tracker, _) => variant_shown(tracker),
            PartialValue::Entered | PartialValue::Whole(_) => None,
        }
    }
}

/// The number of the variant as which a place is begun.
fn variant_shown(tracker: &Tracker) -> Option<u32>
    ensures { result ≡ variant_shown (as_tracker tracker.now) }
{
    match tracker {
        Tracker::Fields(selected) => *selected,
        Tracker::Content(ContentKind::Some | ContentKind::Ok) => Some(0),
        Tracker::Content(ContentKind::Err) => Some(1),
        Tracker::Content(ContentKind::Pointer | ContentKind::Source(_)) => None,
        Tracker::Elements | Tracker::Items(_) | Tracker::Entries(_) => None,
    }
}
