//! What a call comes to, once it is decided.
ghost use Rattle.fr_moves.specs.Common.{IfOk, OnOk, as_tracker, number_told, step_as};
ghost use Rattle.std.specs.Prelude.{◌<◌, ◌^◌, ◌≡◌};
ghost use Rattle.fr_frame.specs.Bodies.{own_tree};
ghost use Rattle.fr_frame.specs.Heap.{body_of};
ghost use Rattle.fr_moves.specs.Moving.{child_way, step_told};

use fr_frame::{Opening, PartialValue, Taker, Tracker};
use fr_path::PathStep;
use fr_refusals::{Beginning, Chosen, DynamicParts, is_conversion};
use fr_shape::{OutOfMemory, Text, Value};
use std::alloc::Global;

/// A child to go on to, and as what the place is begun for it: a field or an element, entered as it
/// is; one of a place that starts anew first; a new item behind the others; the key of a new entry
/// of a map; the value that its last entry lacks; the entry of a key of a dynamic object; the
/// content, a side, what is pointed to, or the source, of a place that comes to be begun so.
#[derive(Drop)]
pub enum Way<'k> {
    Child(usize, Opening),
    Anew(usize, Opening),
    Item(Opening),
    Key(Opening),
    Value(Opening),
    Entry(&'k str),
    Content(Tracker, Beginning),
}

/// What comes of the place at which the builder works, which stays there: nothing; a value takes
/// its place; a value without tokens takes the place of a child; it is begun as its definition
/// tells; as a variant of an enum; with such parts of a dynamic value; as a pointer to a slice that
/// is open for items, or closed. A conversion starts anew for a child, and where it is begun as its
/// definition tells.
#[derive(Drop)]
pub enum Change {
    Nothing,
    Put(Value),
    PutChild(usize, Opening, Value),
    Open(Opening),
    Select(Chosen),
    Gather(DynamicParts),
    OpenSlice,
    CloseSlice,
}

/// The rules by which a place completes: those of strict mode, or those of the end of deferred
/// mode, for all beneath it too.
#[derive(Clone, Copy)]
pub enum Rules {
    Strict,
    Deferred,
}

/// What a call does.
#[derive(Drop)]
pub enum Move<'k> {
    /// On to a child.
    Go(Way<'k>),
    /// The builder stays, and the place becomes another.
    Stay(Change),
    /// Up, and the place is left as it is.
    Leave,
    /// The place is completed, and its value handed over.
    Complete(Rules, Taker),
    /// The place, a source, is completed by the rules of strict mode, and its value converted: that
    /// goes up.
    Convert,
    /// Into deferred mode.
    Defer,
    /// All that was left is completed, and strict mode is back.
    Finish,
}

impl<'k> Way<'k> {
    /// The step to the child. A number that doesn't fit into 32 bits is out of memory; else only
    /// the entry of a key takes memory.
    pub fn step(&self, alloc: Global) -> Result<PathStep, OutOfMemory>
        ensures step { IfOk result (λ step. step ≡ step_told self.now) }
        ensures small { OnOk result (number_told self.now < 2 ^ 32) }
    {
        match self {
            Way::Child(i, opening) | Way::Anew(i, opening) => step_of(alloc, &opening.tracker, *i),
            Way::Item(opening) | Way::Key(opening) | Way::Value(opening) => {
                step_of(alloc, &opening.tracker, opening.count)
            }
            Way::Entry(key) => Ok(PathStep::Entry(Text::new(alloc, key)?)),
            Way::Content(tracker, _) => tracker.step(alloc, 0),
        }
    }
}

/// The way to field or element `i` of a place at which this stands: a conversion starts anew first.
#[inline]
pub fn child_way<'k>(partial: &PartialValue, i: usize, opening: Opening) -> Way<'k>
    ensures way { result ≡ child_way (own_tree (body_of partial.now)) i opening }
{
    if is_conversion(partial) {
        Way::Anew(i, opening)
    } else {
        Way::Child(i, opening)
    }
}

/// The step to child `i` of a place that is begun so.
fn step_of(alloc: Global, tracker: &Tracker, i: usize) -> Result<PathStep, OutOfMemory>
    ensures step { IfOk result (λ step. step ≡ step_as (as_tracker tracker.now) i) }
    ensures small { OnOk result (i < 2 ^ 32) }
{
    match u32::try_from(i) {
        Ok(i) => tracker.step(alloc, i),
        Err(_) => Err(OutOfMemory),
    }
}
