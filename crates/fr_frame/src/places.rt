//! The places in slots.
ghost use Rattle.std.specs.Borrow.{Lends, sem};
ghost use Rattle.std.specs.Prelude.{[], false, not, IsOk, ◌≡◌};
ghost use Rattle.fr_frame.specs.Common.{IfOk, None, Some, as_entries};
ghost use Rattle.fr_model.specs.Paths.{step_as};
ghost use Rattle.fr_model.specs.Trackers.{EntriesKind as TreeEntriesKind};

use fr_arena::{Idx, ListRope};
use fr_path::PathStep;
use fr_plan::NodeId;
use fr_shape::{HookId, OutOfMemory, ShapeId, Text, Value};
use fr_values::{Children, Keys};
use std::alloc::Global;

/// The number of a slot.
#[derive(Clone, Copy, PartialEq, Eq, Hash)]
pub struct SlotId(pub u32);

impl SlotId {
    /// The slot of this index.
    pub fn of(idx: Idx<Slot>) -> SlotId
        ensures number { result.0 ≡ idx }
    {
        SlotId(idx.raw())
    }

    /// The index of the slot.
    pub fn idx(self) -> Idx<Slot>
        ensures number { result ≡ self.0 }
    {
        Idx::new(self.0)
    }
}

/// Where a place belongs: it is the root, or the child of this number of the place in a slot.
#[derive(Drop)]
pub enum FrameOwner {
    Root,
    Child(SlotId, u32),
}

/// What a place is converted through: the wrapper that its shape is, or a proxy.
#[derive(Clone, Copy)]
pub enum Through {
    Wrapper,
    Proxy,
}

/// A conversion: what it goes through, the hook that makes it, and the shape of its source.
#[derive(Clone, Copy)]
pub struct Conversion {
    pub through: Through,
    pub hook: HookId,
    pub source: ShapeId,
}

/// Around what a place is begun: the content of an option, of either side of a result, what a
/// pointer points to, or the source of a conversion.
#[derive(Clone, Copy)]
pub enum ContentKind {
    Some,
    Ok,
    Err,
    Pointer,
    Source(Conversion),
}

/// Whose items a place has: a list's, those of a pointer to a slice, which is open for more of them
/// or closed, a set's, or a dynamic array's.
#[derive(Clone, Copy)]
pub enum ItemsKind {
    List,
    Slice,
    ClosedSlice,
    Set,
    Array,
}

/// Whose entries a place has: those of a map, whose keys and values take turns, over as many as it
/// had when it was begun; or those of a dynamic object, with a child for the value under each of
/// these keys.
#[derive(Drop)]
pub enum EntriesKind {
    Map(u32),
    Object(Keys),
}

/// As what a place is begun, told by what its children are: the fields of a struct, or of an enum's
/// variant of this number, the elements of an array, the one thing that it holds, items, or
/// entries.
#[derive(Drop)]
pub enum Tracker {
    Fields(Option<u32>),
    Elements,
    Content(ContentKind),
    Items(ItemsKind),
    Entries(EntriesKind),
}

/// The step to child `i` of a map over a base of so many entries: to a key or a value of an entry,
/// whose number doesn't count them.
fn entry_step(base: u32, i: u32) -> PathStep
    ensures step { result ≡ step_as (as_entries (TreeEntriesKind.Map base)) i }
{
    let number = (i / 2).saturating_sub(base);
    if i % 2 == 0 {
        PathStep::MapKey(number)
    } else {
        PathStep::MapValue(number)
    }
}

impl Through {
    ghost use Rattle.fr_model.specs.Paths.{step_through};
    ghost use Rattle.fr_model.specs.Trackers.{number_through};
    ghost use Rattle.fr_frame.specs.Heap.{as_through};

    /// The step to the source of a conversion through this.
    fn step(self) -> PathStep
        ensures { result ≡ step_through (as_through self) }
    {
        match self {
            Through::Wrapper => PathStep::Inner,
            Through::Proxy => PathStep::Proxy,
        }
    }

    /// A number for each, behind those of the other ways in which a place without variants is
    /// begun.
    fn number(self) -> u64
        ensures { result ≡ number_through (as_through self) }
    {
        match self {
            Through::Wrapper => 13,
            Through::Proxy => 14,
        }
    }
}

impl EntriesKind {
    ghost use Rattle.fr_model.specs.Trackers.{keys_of_tracker, same_keys};
    ghost use Rattle.fr_frame.specs.Heap.{as_entries_kind};

    /// Whether these are the entries of an object with keys.
    fn has_keys(&self) -> bool
        ensures { result
            ≡ not (same_keys (keys_of_tracker (as_entries (as_entries_kind self.now))) []) }
    {
        match self {
            EntriesKind::Map(_) => false,
            EntriesKind::Object(keys) => keys.len() > 0,
        }
    }
}

impl Tracker {
    ghost use Rattle.fr_model.specs.DynamicPlaces.{is_object_tracker};
    ghost use Rattle.fr_model.specs.Trackers.{base_of_tracker, hook_of_tracker, keys_of_tracker, source_of_tracker, tracker_number, same_keys, same_tracker};
    ghost use Rattle.fr_frame.specs.Bodies.{boxes, gathers};
    ghost use Rattle.fr_frame.specs.Common.{option_map};
    ghost use Rattle.fr_frame.specs.Converting.{conversion_of};
    ghost use Rattle.fr_frame.specs.Heap.{as_conversion, as_tracker, fields_of_tracker};
    ghost use Rattle.fr_frame.specs.ListItems.{keeps_items};
    ghost use Rattle.fr_frame.specs.Outlines.{has_items};

    /// The step to child `i` of a place that is begun so. A content, a side, a pointee or a source
    /// is child 0; of a map's children each other one is a key, before its value. Only the step to
    /// an entry of an object takes memory, for its key.
    pub fn step(&self, alloc: Global, i: u32) -> Result<PathStep, OutOfMemory>
        ensures step { IfOk result (λ step. step ≡ step_as (as_tracker self.now) i) }
        ensures memory { is_object_tracker (as_tracker self.now) ≡ false → IsOk result }
    {
        Ok(match self {
            Tracker::Fields(_) => PathStep::Field(i),
            Tracker::Elements => PathStep::Index(i),
            Tracker::Content(ContentKind::Some) => PathStep::OptionSome,
            Tracker::Content(ContentKind::Ok) => PathStep::ResultOk,
            Tracker::Content(ContentKind::Err) => PathStep::ResultErr,
            Tracker::Content(ContentKind::Pointer) => PathStep::Deref,
            Tracker::Content(ContentKind::Source(conversion)) => conversion.through.step(),
            Tracker::Items(ItemsKind::Set) => PathStep::SetItem,
            Tracker::Items(
                ItemsKind::List | ItemsKind::Slice | ItemsKind::ClosedSlice | ItemsKind::Array,
            ) => PathStep::Index(i),
            Tracker::Entries(EntriesKind::Map(base)) => entry_step(*base, i),
            Tracker::Entries(EntriesKind::Object(keys)) => PathStep::Entry(keys.copy(alloc, i)?),
        })
    }

    /// A number for each.
    fn number(&self) -> u64
        ensures { result ≡ tracker_number (as_tracker self.now) }
    {
        match self {
            Tracker::Fields(None) => 0,
            Tracker::Elements => 1,
            Tracker::Content(ContentKind::Some) => 2,
            Tracker::Content(ContentKind::Ok) => 3,
            Tracker::Content(ContentKind::Err) => 4,
            Tracker::Content(ContentKind::Pointer) => 5,
            Tracker::Items(ItemsKind::List) => 6,
            Tracker::Items(ItemsKind::Slice) => 7,
            Tracker::Items(ItemsKind::ClosedSlice) => 8,
            Tracker::Items(ItemsKind::Set) => 9,
            Tracker::Entries(EntriesKind::Map(_)) => 10,
            Tracker::Items(ItemsKind::Array) => 11,
            Tracker::Entries(EntriesKind::Object(_)) => 12,
            Tracker::Content(ContentKind::Source(conversion)) => conversion.through.number(),
            Tracker::Fields(Some(k)) => 15 + *k as u64,
        }
    }

    /// How many entries a map had when it was begun.
    fn base(&self) -> u32
        ensures { result ≡ base_of_tracker (as_tracker self.now) }
    {
        match self {
            Tracker::Entries(EntriesKind::Map(base)) => *base,
            Tracker::Entries(EntriesKind::Object(_)) => 0,
            Tracker::Fields(_) | Tracker::Elements | Tracker::Content(_) | Tracker::Items(_) => 0,
        }
    }

    /// The conversion as which a place is begun, if it is one.
    pub(crate) fn conversion(&self) -> Option<Conversion>
        ensures { option_map as_conversion result ≡ conversion_of (as_tracker self.now) }
    {
        match self {
            Tracker::Content(ContentKind::Source(conversion)) => Some(*conversion),
            Tracker::Content(
                ContentKind::Some | ContentKind::Ok | ContentKind::Err | ContentKind::Pointer,
            ) => None,
            Tracker::Fields(_) | Tracker::Elements | Tracker::Items(_) | Tracker::Entries(_) => {
                None
            }
        }
    }

    /// The number of a conversion's hook.
    fn hook(&self) -> u32
        ensures { result ≡ hook_of_tracker (as_tracker self.now) }
    {
        match self.conversion() {
            Some(conversion) => conversion.hook.0,
            None => 0,
        }
    }

    /// The number of the shape of a conversion's source.
    fn source(&self) -> u32
        ensures { result ≡ source_of_tracker (as_tracker self.now) }
    {
        match self.conversion() {
            Some(conversion) => conversion.source.0,
            None => 0,
        }
    }

    /// Whether it is an object with keys.
    fn has_keys(&self) -> bool
        ensures { result ≡ not (same_keys (keys_of_tracker (as_tracker self.now)) []) }
    {
        match self {
            Tracker::Entries(kind) => kind.has_keys(),
            Tracker::Fields(_) | Tracker::Elements | Tracker::Content(_) | Tracker::Items(_) => {
                false
            }
        }
    }

    /// Whether both are the same way to be begun, where the other is no object with keys.
    pub fn is(&self, other: &Tracker) -> bool
        requires keyless { keys_of_tracker (as_tracker other.now) ≡ [] }
        ensures same { result ≡ same_tracker (as_tracker self.now) (as_tracker other.now) }
    {
        !self.has_keys()
            && self.base() == other.base()
            && self.hook() == other.hook()
            && self.source() == other.source()
            && self.number() == other.number()
    }

    /// Whether what is made of a place that is begun so holds a box.
    pub(crate) fn boxes(&self) -> bool
        ensures { result ≡ boxes (as_tracker self.now) }
    {
        match self {
            Tracker::Content(_) | Tracker::Items(ItemsKind::Slice | ItemsKind::ClosedSlice) => true,
            Tracker::Items(ItemsKind::List | ItemsKind::Set | ItemsKind::Array) => false,
            Tracker::Fields(_) | Tracker::Elements | Tracker::Entries(_) => false,
        }
    }

    /// Whether what is made of a place that is begun so is put together anew.
    pub(crate) fn gathers(&self) -> bool
        ensures { result ≡ gathers (as_tracker self.now) }
    {
        match self {
            Tracker::Items(ItemsKind::Set | ItemsKind::Array) | Tracker::Entries(_) => true,
            Tracker::Items(ItemsKind::List | ItemsKind::Slice | ItemsKind::ClosedSlice) => false,
            Tracker::Fields(_) | Tracker::Elements | Tracker::Content(_) => false,
        }
    }

    /// Whether the items of a place that is begun so keep their slots: it is a list or a pointer to
    /// a slice.
    pub(crate) fn keeps_items(&self) -> bool
        ensures told { result ≡ has_items (as_tracker self.now) }
        ensures kept { result ≡ keeps_items self.now }
    {
        match self {
            Tracker::Items(ItemsKind::List | ItemsKind::Slice | ItemsKind::ClosedSlice) => true,
            Tracker::Items(ItemsKind::Set | ItemsKind::Array) => false,
            Tracker::Fields(_) | Tracker::Elements | Tracker::Content(_) | Tracker::Entries(_) => {
                false
            }
        }
    }

    /// Whose fields the children of a place are that is begun so, if they are fields: there are
    /// fills and validators for them alone.
    pub(crate) fn fields(&self) -> Option<Option<u32>>
        ensures { result ≡ fields_of_tracker (as_tracker self.now) }
    {
        match self {
            Tracker::Fields(selected) => Some(*selected),
            Tracker::Elements | Tracker::Content(_) | Tracker::Items(_) | Tracker::Entries(_) => {
                None
            }
        }
    }
}

/// The way to a child of a begun place: to the one of this number, as it is; to a new item behind
/// the other children; to the key of a new entry of a map, whose value isn't there yet; or to the
/// value that a dynamic object has under a key, if need be of a new entry.
#[derive(Clone, Copy)]
pub enum ChildWay<'k> {
    Child(u32),
    Item,
    Key,
    Entry(&'k str),
}

/// What takes the value of a place that completes.
#[derive(Clone, Copy)]
pub enum Taker {
    /// The place above, at its child of the place's number.
    Above,
    /// The set above, behind its other items.
    Set,
    /// The place itself, which is whole then.
    Itself,
}

/// What comes behind the children of a begun place: an item; the key and the value of an entry of a
/// map; or the value that a dynamic object has under a key, which it didn't have.
#[derive(Drop)]
pub(crate) enum Growth {
    Item,
    Entry,
    EntryFor(Text),
}

/// What was put at a place so far: nothing, all of its value, or some of its children.
#[derive(Drop)]
pub enum PartialValue {
    Entered,
    Whole(Value),
    Begun(Tracker, Children),
}

/// A place in a slot. `stored` says that the builder isn't at it or below it, and that it will be
/// completed later.
#[derive(Drop)]
pub struct Place {
    pub node: NodeId,
    pub owner: FrameOwner,
    pub stored: bool,
    pub depth: u32,
    pub partial: PartialValue,
}

/// An item of the list in a slot that has completed: its value, and its number among the list's
/// children.
#[derive(Drop)]
pub struct Item {
    pub value: Value,
    pub list: SlotId,
    pub number: u32,
}

/// A slot: free, with the free one that comes after it; kept for a place that is about to come; in
/// use; in use by a list, or a pointer to a slice, whose last children are items that lie in these
/// slots; or with an item that has completed, which keeps its slot until its list completes, starts
/// anew or is released. In the list's partial value an item isn't there, but has its room, so that
/// the list needs no memory to complete.
#[derive(Drop)]
pub enum Slot {
    Free(Option<SlotId>),
    Reserved,
    Used(Place),
    List(Place, Box<ListRope<SlotId>>),
    Item(Item),
}

impl Slot {
    ghost use Rattle.fr_frame.specs.contracts.places.Slot.{the_row};
    ghost use Rattle.fr_frame.specs.contracts.places.Place as place;
    ghost use Rattle.fr_frame.specs.declared.places.Slot.{Slot as Entry};
    ghost use Rattle.fr_frame.specs.ListItems.{IsPlain};

    /// The place in a slot that is in use, but by no list with items, for writing.
    pub(crate) fn place_mut(&mut self) -> &mut Place
        requires { IsPlain self.old }
        ensures* writes_back { sem 𝓛 (Lends the_row place.the_row self.entry result
            (λ new. Entry.Used new)) }
        ensures value { self.old ≡ Entry.Used result.now }
    {
        match self {
            Slot::Used(place) => place,
            Slot::Free(_) | Slot::Reserved | Slot::List(..) | Slot::Item(_) => unreachable!(),
        }
    }
}
