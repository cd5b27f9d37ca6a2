//! Why no entry of a dynamic object is begun at a place.
ghost use Rattle.std.specs.Prelude.{◌≡◌};
ghost use Rattle.fr_frame.specs.Bodies.{own_tree};
ghost use Rattle.fr_frame.specs.Heap.{body_of};
ghost use Rattle.fr_model.specs.DynamicPlaces.{entry_refusal};
ghost use Rattle.fr_shape.specs.Look.{def_of};

use crate::dynamic_places::is_dynamic;
use fr_frame::{EntriesKind, PartialValue, Tracker};
use fr_shape::{Operation, ShapeId, ShapeTable};

/// Why no entry can be begun at a place of this shape at which this stands, if none can.
pub fn entry_refusal(
    table: &ShapeTable,
    shape: ShapeId,
    partial: &PartialValue,
) -> Option<Operation>
    ensures refused { result
        ≡ entry_refusal (def_of table.now shape.0) (own_tree (body_of partial.now)) }
{
    match (is_dynamic(table, shape), partial) {
        (true, PartialValue::Begun(Tracker::Entries(EntriesKind::Object(_)), _)) => None,
        (true, _) => Some(Operation::EntryBeforeInitMap),
        (false, _) => Some(Operation::EntryOfOther),
    }
}
