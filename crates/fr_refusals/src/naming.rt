//! How a refusal names the place that it is told of.
ghost use Rattle.std.specs.Prelude.{IfSome, ◌≡◌, ◌≢◌};
ghost use Rattle.fr_frame.specs.Heap.{as_tracker};
ghost use Rattle.fr_model.specs.Step.{at_shape};
ghost use Rattle.fr_model.specs.Trackers.{tracker_kind};
ghost use Rattle.fr_shape.specs.declared.error.ReflectErrorKind.{ReflectErrorKind as Kind};

use fr_frame::{ContentKind, EntriesKind, ItemsKind, Tracker};
use fr_shape::{InitCall, Operation, ReflectErrorKind, ShapeId, TrackerKind};

/// The tracker of a begun place, as refusals name it.
fn tracker_kind(tracker: &Tracker) -> TrackerKind
    ensures { result ≡ tracker_kind (as_tracker tracker.now) }
{
    match tracker {
        Tracker::Fields(None) => TrackerKind::Struct,
        Tracker::Elements => TrackerKind::Array,
        Tracker::Fields(Some(_)) => TrackerKind::Enum,
        Tracker::Content(ContentKind::Some) => TrackerKind::Option,
        Tracker::Content(ContentKind::Ok | ContentKind::Err) => TrackerKind::Result,
        Tracker::Content(ContentKind::Pointer) => TrackerKind::SmartPointer,
        Tracker::Content(ContentKind::Source(_)) => TrackerKind::Inner,
        Tracker::Items(ItemsKind::List) => TrackerKind::List,
        Tracker::Items(ItemsKind::Slice | ItemsKind::ClosedSlice) => TrackerKind::SmartPointerSlice,
        Tracker::Items(ItemsKind::Set) => TrackerKind::Set,
        Tracker::Entries(EntriesKind::Map(_)) => TrackerKind::Map,
        Tracker::Items(ItemsKind::Array) => TrackerKind::DynamicValue,
        Tracker::Entries(EntriesKind::Object(_)) => TrackerKind::DynamicValue,
    }
}

/// The refusal of a call that is to begin a place that is begun so already.
pub fn unexpected(call: InitCall, tracker: &Tracker) -> ReflectErrorKind
    ensures { result ≡ Kind.UnexpectedTracker call (tracker_kind (as_tracker tracker.now)) }
{
    let current = tracker_kind(tracker);
    ReflectErrorKind::UnexpectedTracker { call, current }
}

/// The refusal of this operation at a place of this shape, if it is refused.
pub fn at_shape(shape: ShapeId, refused: Option<Operation>) -> Option<ReflectErrorKind>
    ensures refused { result ≡ at_shape shape.0 refused }
    ensures named { IfSome result (λ kind. kind ≢ Kind.OutOfMemory) }
{
    let operation = refused?;
    Some(ReflectErrorKind::OperationFailed { shape, operation })
}
