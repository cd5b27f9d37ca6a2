//! Why no set is begun at a place, and as what it takes one more item.
ghost use Rattle.std.specs.Prelude.{IfOk, IfSome, ◌≡◌, ◌≢◌};
ghost use Rattle.std.specs.Result.{result_err};
ghost use Rattle.fr_frame.specs.Bodies.{TakesItems, own_tree};
ghost use Rattle.fr_frame.specs.Heap.{as_tracker, body_of};
ghost use Rattle.fr_model.specs.Collections.{is_set_tracker, set_item_refusal, unless_set};
ghost use Rattle.fr_model.specs.Step.{init_set_refusal};
ghost use Rattle.fr_refusals.specs.Openings.{HasItems};
ghost use Rattle.fr_shape.specs.Look.{def_of};
ghost use Rattle.fr_shape.specs.declared.error.ReflectErrorKind.{ReflectErrorKind as Kind};

use crate::naming::{at_shape, unexpected};
use fr_frame::{ItemsKind, Opening, PartialValue, Tracker};
use fr_shape::{Def, InitCall, Operation, ReflectErrorKind, Shape, ShapeId, ShapeTable};

/// Whether a place that is begun so is a set.
pub fn is_set(tracker: &Tracker) -> bool
    ensures set { result ≡ is_set_tracker (as_tracker tracker.now) }
{
    matches!(tracker, Tracker::Items(ItemsKind::Set))
}

/// Nothing, where the shape is a set; else this refusal.
fn unless_set(table: &ShapeTable, shape: ShapeId, refusal: Operation) -> Option<Operation>
    ensures { result ≡ unless_set refusal (def_of table.now shape.0) }
{
    match table.get(shape) {
        Some(
            Shape {
                def: Def::Set(_),
                ..
            },
        ) => None,
        _ => Some(refusal),
    }
}

/// Why no set can be begun at a place of this shape at which this stands, if none can.
pub fn init_set_refusal(
    table: &ShapeTable,
    shape: ShapeId,
    partial: &PartialValue,
) -> Option<ReflectErrorKind>
    ensures refused { result
        ≡ init_set_refusal shape.0 (def_of table.now shape.0) (own_tree (body_of partial.now)) }
    ensures named { IfSome result (λ kind. kind ≢ Kind.OutOfMemory) }
{
    match partial {
        PartialValue::Begun(Tracker::Items(ItemsKind::Set), _) => None,
        PartialValue::Begun(tracker, _) => Some(unexpected(InitCall::Set, tracker)),
        PartialValue::Entered | PartialValue::Whole(_) => at_shape(
            shape,
            unless_set(table, shape, Operation::InitSetOfOther),
        ),
    }
}

/// As what a set is begun that takes one more item, and how many it has, or why the place takes
/// none.
#[tactic(auto, using(crate::proofs::BegunLooks::begun_items))]
#[inline]
pub fn set_item_opening(
    table: &ShapeTable,
    shape: ShapeId,
    partial: &PartialValue,
) -> Result<Opening, Operation>
    ensures items { IfOk result (λ opening.
        HasItems (as_tracker opening.tracker) opening.count (own_tree (body_of partial.now))) }
    ensures grows { IfOk result (λ opening. TakesItems (as_tracker opening.tracker)) }
    ensures refused { result_err result
        ≡ set_item_refusal (def_of table.now shape.0) (own_tree (body_of partial.now)) }
{
    if let Some(operation) = unless_set(table, shape, Operation::SetItemOfOther) {
        return Err(operation);
    }
    let PartialValue::Begun(made, children) = partial else {
        return Err(Operation::SetItemBeforeInitSet);
    };
    match made {
        Tracker::Items(ItemsKind::Set) => {
            let (tracker, count) = (Tracker::Items(ItemsKind::Set), children.len());
            Ok(Opening { tracker, count })
        }
        _ => Err(Operation::SetItemBeforeInitSet),
    }
}
