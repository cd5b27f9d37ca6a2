//! Why no list and no dynamic array is begun at a place, and as what it takes one more item.
ghost use Rattle.std.specs.Prelude.{IfOk, IfSome, ◌≡◌, ◌≢◌};
ghost use Rattle.std.specs.Result.{result_err};
ghost use Rattle.fr_frame.specs.Bodies.{own_tree};
ghost use Rattle.fr_frame.specs.Heap.{as_tracker, body_of};
ghost use Rattle.fr_model.specs.Items.{is_list_like, item_refusal, unbegun_refusal, unless_list};
ghost use Rattle.fr_model.specs.Step.{init_list_refusal};
ghost use Rattle.fr_refusals.specs.Openings.{HasItems};
ghost use Rattle.fr_shape.specs.Look.{def_of};
ghost use Rattle.fr_shape.specs.declared.error.ReflectErrorKind.{ReflectErrorKind as Kind};

use crate::naming::{at_shape, unexpected};
use fr_frame::{EntriesKind, ItemsKind, Opening, PartialValue, Tracker};
use fr_shape::{Def, InitCall, Operation, ReflectErrorKind, Shape, ShapeId, ShapeTable};

/// Nothing, where the shape is a list or a dynamic one; else this refusal.
fn unless_list(table: &ShapeTable, shape: ShapeId, refusal: Operation) -> Option<Operation>
    ensures { result ≡ unless_list refusal (def_of table.now shape.0) }
{
    match table.get(shape) {
        Some(
            Shape {
                def: Def::List(_) | Def::Dynamic,
                ..
            },
        ) => None,
        _ => Some(refusal),
    }
}

/// Whether a place that is begun so is left as it is where a list is to be begun.
fn is_list_like(tracker: &Tracker) -> bool
    ensures { result ≡ is_list_like (as_tracker tracker.now) }
{
    matches!(
        tracker,
        Tracker::Items(
            ItemsKind::List | ItemsKind::Slice | ItemsKind::ClosedSlice | ItemsKind::Array,
        ) | Tracker::Entries(EntriesKind::Object(_))
    )
}

/// Why no list can be begun at a place of this shape at which this stands, if none can.
pub fn init_list_refusal(
    table: &ShapeTable,
    shape: ShapeId,
    partial: &PartialValue,
) -> Option<ReflectErrorKind>
    ensures refused { result
        ≡ init_list_refusal shape.0 (def_of table.now shape.0) (own_tree (body_of partial.now)) }
    ensures named { IfSome result (λ kind. kind ≢ Kind.OutOfMemory) }
{
    match partial {
        PartialValue::Begun(tracker, _) if is_list_like(tracker) => None,
        PartialValue::Begun(tracker, _) => Some(unexpected(InitCall::List, tracker)),
        PartialValue::Entered => at_shape(
            shape,
            unless_list(table, shape, Operation::InitListOfOther),
        ),
        PartialValue::Whole(_) => {
            at_shape(
                shape,
                unless_list(table, shape, Operation::InitListOfWholeOther),
            )
        }
    }
}

/// The refusal of an item at a place of this shape that isn't begun with items.
fn unbegun_refusal(table: &ShapeTable, shape: ShapeId) -> Operation
    ensures { result ≡ unbegun_refusal (def_of table.now shape.0) }
{
    match table.get(shape) {
        Some(
            Shape {
                def: Def::List(_),
                ..
            },
        ) => Operation::ItemBeforeInitList,
        _ => Operation::ItemOfOther,
    }
}

/// As what a place is begun that takes one more item, and how many it has, or why it takes none.
#[tactic(auto, using(crate::proofs::BegunLooks::begun_items))]
#[inline]
pub fn item_opening(
    table: &ShapeTable,
    shape: ShapeId,
    partial: &PartialValue,
) -> Result<Opening, Operation>
    ensures items { IfOk result (λ opening.
        HasItems (as_tracker opening.tracker) opening.count (own_tree (body_of partial.now))) }
    ensures refused { result_err result
        ≡ item_refusal (def_of table.now shape.0) (own_tree (body_of partial.now)) }
{
    let PartialValue::Begun(tracker, children) = partial else {
        return Err(unbegun_refusal(table, shape));
    };
    let count = children.len();
    match tracker {
        Tracker::Items(kind) => match kind {
            ItemsKind::List | ItemsKind::Slice | ItemsKind::Array => {
                let tracker = Tracker::Items(*kind);
                Ok(Opening { tracker, count })
            }
            ItemsKind::ClosedSlice => Err(Operation::ItemStillOpen),
            ItemsKind::Set => Err(unbegun_refusal(table, shape)),
        },
        Tracker::Fields(_) | Tracker::Elements | Tracker::Content(_) | Tracker::Entries(_) => {
            Err(unbegun_refusal(table, shape))
        }
    }
}
