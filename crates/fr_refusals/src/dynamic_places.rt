//! What of a dynamic place is kept where it is begun as an array or as an object.
ghost use Rattle.std.specs.Prelude.{is_some, ◌≡◌};
ghost use Rattle.fr_frame.specs.Bodies.{own_tree};
ghost use Rattle.fr_frame.specs.Heap.{as_tracker, body_of};
ghost use Rattle.fr_model.specs.Tree.{Trees, begun, whole};
ghost use Rattle.fr_refusals.specs.DynamicBeginnings.{beginning_as, kept_as, tracker_with};
ghost use Rattle.fr_shape.specs.Look.{def_of};
ghost use Rattle.fr_shape.specs.Plannable.{is_dynamic};
ghost use Rattle.fr_shape.specs.View.{view};

use crate::beginning::Beginning;
use fr_frame::{EntriesKind, ItemsKind, Keys, PartialValue, Tracker};
use fr_shape::{Def, Dyn, ShapeId, ShapeTable, Value};

/// What a dynamic place is begun with: the elements of an array, or the entries of an object.
#[derive(Clone, Copy)]
pub enum DynamicParts {
    Elements,
    Entries,
}

/// Whether the shape is a dynamic one.
pub fn is_dynamic(table: &ShapeTable, shape: ShapeId) -> bool
    ensures dynamic { result ≡ is_dynamic (def_of table.now shape.0) }
{
    match table.get(shape) {
        Some(entry) => matches!(&entry.def, Def::Dynamic),
        None => false,
    }
}

/// Whether the value has such parts.
fn has_parts(parts: DynamicParts, value: &Value) -> bool
    ensures { result ≡ is_some (kept_as parts (whole (view value.now))) }
{
    match parts {
        DynamicParts::Elements => matches!(value, Value::Dyn(Dyn::Array(_))),
        DynamicParts::Entries => matches!(value, Value::Dyn(Dyn::Object(_))),
    }
}

/// Whether a place that is begun so has such parts.
fn is_begun_with(parts: DynamicParts, tracker: &Tracker) -> bool
    ensures { (children : Trees)
        → result ≡ is_some (kept_as parts (begun (as_tracker tracker.now) children)) }
{
    match (parts, tracker) {
        (DynamicParts::Elements, Tracker::Items(ItemsKind::Array)) => true,
        (DynamicParts::Entries, Tracker::Entries(EntriesKind::Object(_))) => true,
        (DynamicParts::Elements | DynamicParts::Entries, _) => false,
    }
}

/// What of the place is kept where it is begun with such parts.
pub fn beginning_as(parts: DynamicParts, partial: &PartialValue) -> Beginning
    ensures kept { result ≡ beginning_as parts (own_tree (body_of partial.now)) }
{
    match partial {
        PartialValue::Whole(value) if has_parts(parts, value) => Beginning::InPlace,
        PartialValue::Begun(tracker, _) if is_begun_with(parts, tracker) => Beginning::AsItIs,
        PartialValue::Entered | PartialValue::Whole(_) | PartialValue::Begun(..) => Beginning::Anew,
    }
}

/// As what a dynamic place is begun with such parts, none of which is there.
pub fn tracker_with(parts: DynamicParts) -> Tracker
    ensures tracker { as_tracker result ≡ tracker_with parts }
{
    match parts {
        DynamicParts::Elements => Tracker::Items(ItemsKind::Array),
        DynamicParts::Entries => Tracker::Entries(EntriesKind::Object(Keys::none())),
    }
}
