//! Where stored places belong, and where they come among the children of the place above.
ghost use Rattle.fr_store.specs.Common.{BelongsTo, HasOwner, IfInUse, IsNarrow, IsNonDecreasingBy, IsNoted, as_entries, as_tracker, body_of, heap_of, key_of, order_as, slots_of};
ghost use Rattle.std.specs.Prelude.{All, IsPermutation, ◌≡◌};
ghost use Rattle.fr_model.specs.Trackers.{EntriesKind as TreeEntriesKind};
ghost use Rattle.fr_store.specs.PlaceOrder.{order_at, order_in};

use fr_frame::{EntriesKind, FrameOwner, PartialValue, SlotId, Slots, Tracker};

/// A place that is stored, by its slot. For the walk alone there is beside it the number of the
/// slot of the place above, which child of that it is, and where it comes among the children there:
/// a map's keys come before its values.
#[derive(Clone, Copy)]
pub(crate) struct StoredPlace {
    pub slot: SlotId,
    pub parent: u32,
    pub number: u32,
    pub order: u32,
}

/// Where child `i` of a map comes among its children: all keys before all values.
fn order_in_map(i: u32) -> u32
    ensures { result ≡ order_as (as_entries (TreeEntriesKind.Map 0)) i }
{
    if i % 2 == 0 {
        i / 2
    } else {
        i / 2 + 2147483648
    }
}

/// Where child `i` of a place that is begun so comes among its children.
fn order_of(tracker: &Tracker, i: u32) -> u32
    ensures { result ≡ order_as (as_tracker tracker.now) i }
{
    match tracker {
        Tracker::Entries(EntriesKind::Map(_)) => order_in_map(i),
        Tracker::Entries(EntriesKind::Object(_)) => i,
        Tracker::Fields(_) | Tracker::Elements | Tracker::Content(_) | Tracker::Items(_) => i,
    }
}

/// Where child `i` of a place comes among its children, by what was put at it.
fn order_among(partial: &PartialValue, i: u32) -> u32
    ensures { result ≡ order_in (body_of partial.now) i }
{
    match partial {
        PartialValue::Begun(tracker, _) => order_of(tracker, i),
        PartialValue::Entered | PartialValue::Whole(_) => i,
    }
}

/// Where child `i` of the place in a slot comes among its children.
fn order_below(slots: &Slots, parent: SlotId, i: u32) -> u32
    ensures { result ≡ order_at (heap_of slots.now parent.0) i }
{
    match slots.place(parent) {
        Some(above) => order_among(&above.partial, i),
        None => i,
    }
}

/// The place in a slot, with where it belongs.
pub(crate) fn noted(slots: &Slots, slot: SlotId) -> StoredPlace
    requires owned { IfInUse slots.now slot.0 (λ at. HasOwner at.owner) }
    ensures belongs { IfInUse slots.now slot.0 (λ at.
        BelongsTo (heap_of slots.now) result at.owner) }
    ensures slot { result.slot ≡ slot }
    ensures narrow { IsNarrow result }
{
    let Some(place) = slots.place(slot) else {
        unreachable!()
    };
    match &place.owner {
        FrameOwner::Child(parent, number) => StoredPlace {
            slot,
            parent: parent.0,
            number: *number,
            order: order_below(slots, *parent, *number),
        },
        FrameOwner::Root => unreachable!(),
    }
}

/// Notes where each of these places belongs.
pub(crate) fn note_all(slots: &Slots, places: &mut [StoredPlace])
    requires owned { All (λ place. IfInUse slots.now place.slot.0 (λ at. HasOwner at.owner))
        places.old }
    ensures slots { slots_of places.new ≡ slots_of places.old }
    ensures noted { All (IsNoted (heap_of slots.now)) places.new }
    ensures narrow { All IsNarrow places.new }
{
    for i in 0..places.len() {
        places[i] = noted(slots, places[i].slot);
    }
}

/// By what stored places are sorted: those of one place above are together, the last child of the
/// walk first.
pub(crate) fn key(place: &StoredPlace) -> u64
    ensures { result ≡ key_of place.now }
{
    place.parent as u64 * 4294967296 + (u32::MAX - place.order) as u64
}

/// Sorts stored places by the place above; of one place the last child of the walk comes first.
pub(crate) fn sort(places: &mut [StoredPlace])
    ensures same { IsPermutation places.old places.new }
    ensures sorted { IsNonDecreasingBy key_of places.new }
{
    places.sort_unstable_by_key(|place| key(place));
}
