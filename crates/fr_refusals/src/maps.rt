//! Why no map is begun at a place, and as what it takes one more key, or the value that the last
//! entry lacks.
ghost use Rattle.std.specs.Prelude.{IfOk, IfSome, suc, true, ◌≡◌, ◌≢◌};
ghost use Rattle.std.specs.Result.{result_err};
ghost use Rattle.fr_frame.specs.Bodies.{own_tree};
ghost use Rattle.fr_frame.specs.Heap.{as_tracker, body_of};
ghost use Rattle.fr_model.specs.Collections.{is_map_tracker, unless_map};
ghost use Rattle.fr_model.specs.Step.{init_map_refusal};
ghost use Rattle.fr_refusals.specs.Looks.{ends_absent, lacks_last};
ghost use Rattle.fr_refusals.specs.KeyRefusals.{key_refusal_by, value_refusal_by};
ghost use Rattle.fr_refusals.specs.Openings.{HasItems};
ghost use Rattle.fr_shape.specs.Look.{def_of};
ghost use Rattle.fr_shape.specs.declared.error.ReflectErrorKind.{ReflectErrorKind as Kind};

use crate::naming::{at_shape, unexpected};
use fr_frame::{Children, EntriesKind, ItemsKind, Opening, PartialValue, Tracker};
use fr_shape::{Def, InitCall, Operation, ReflectErrorKind, Shape, ShapeId, ShapeTable};

/// Nothing, where the shape is a map or a dynamic one; else this refusal.
fn unless_map(table: &ShapeTable, shape: ShapeId, refusal: Operation) -> Option<Operation>
    ensures { result ≡ unless_map refusal (def_of table.now shape.0) }
{
    match table.get(shape) {
        Some(
            Shape {
                def: Def::Map(_, _) | Def::Dynamic,
                ..
            },
        ) => None,
        _ => Some(refusal),
    }
}

/// Why no map can be begun at a place of this shape at which this stands, if none can.
pub fn init_map_refusal(
    table: &ShapeTable,
    shape: ShapeId,
    partial: &PartialValue,
) -> Option<ReflectErrorKind>
    ensures refused { result
        ≡ init_map_refusal shape.0 (def_of table.now shape.0) (own_tree (body_of partial.now)) }
    ensures named { IfSome result (λ kind. kind ≢ Kind.OutOfMemory) }
{
    match partial {
        PartialValue::Begun(Tracker::Entries(_) | Tracker::Items(ItemsKind::Array), _) => None,
        PartialValue::Begun(tracker, _) => Some(unexpected(InitCall::Map, tracker)),
        PartialValue::Entered | PartialValue::Whole(_) => at_shape(
            shape,
            unless_map(table, shape, Operation::InitMapOfOther),
        ),
    }
}

/// Whether the last of these children isn't there.
fn lacks_last(children: &Children) -> bool
    ensures { result ≡ ends_absent children.now }
{
    let count = children.len();
    if count == 0 {
        return false;
    }
    let last = count - 1;
    match (children.value(last), children.slot(last)) {
        (None, None) => true,
        (Some(_), _) | (None, Some(_)) => false,
    }
}

/// As what a begun map is entered at one more key, and how many children it has, or why none can be
/// begun.
#[tactic(auto, using(crate::proofs::BegunLooks::begun_items))]
#[inline]
pub fn key_opening(partial: &PartialValue) -> Result<Opening, Operation>
    ensures items { IfOk result (λ opening.
        HasItems (as_tracker opening.tracker) opening.count (own_tree (body_of partial.now))) }
    ensures map { IfOk result (λ opening. is_map_tracker (as_tracker opening.tracker) ≡ true) }
    ensures refused { result_err result
        ≡ key_refusal_by (own_tree (body_of partial.now)) (lacks_last (body_of partial.now)) }
{
    let PartialValue::Begun(made, children) = partial else {
        return Err(Operation::KeyBeforeInitMap);
    };
    let count = children.len();
    match made {
        Tracker::Entries(EntriesKind::Map(_)) if lacks_last(children) => Err(
            Operation::KeyBeforeValue,
        ),
        Tracker::Entries(EntriesKind::Map(base)) => {
            let tracker = Tracker::Entries(EntriesKind::Map(*base));
            Ok(Opening { tracker, count })
        }
        _ => Err(Operation::KeyBeforeInitMap),
    }
}

/// As what a begun map is entered at the value that its last entry lacks, and the number of that
/// child, or why it can't be begun.
#[inline]
pub fn value_opening(partial: &PartialValue) -> Result<Opening, Operation>
    ensures items { IfOk result (λ opening.
        HasItems (as_tracker opening.tracker) (suc opening.count) (own_tree
        (body_of partial.now))) }
    ensures map { IfOk result (λ opening. is_map_tracker (as_tracker opening.tracker) ≡ true) }
    ensures refused { result_err result
        ≡ value_refusal_by (own_tree (body_of partial.now)) (lacks_last (body_of partial.now)) }
{
    let PartialValue::Begun(made, children) = partial else {
        return Err(Operation::ValueBeforeKey);
    };
    let Tracker::Entries(kind) = made else {
        return Err(Operation::ValueBeforeKey);
    };
    match kind {
        EntriesKind::Map(base) if lacks_last(children) => {
            let tracker = Tracker::Entries(EntriesKind::Map(*base));
            let count = children.len() - 1;
            Ok(Opening { tracker, count })
        }
        EntriesKind::Map(_) | EntriesKind::Object(_) => Err(Operation::ValueBeforeKey),
    }
}
