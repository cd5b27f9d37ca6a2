//! What `init_map`, `begin_key` and `begin_value` come to.
ghost use Rattle.fr_work.specs.Common.{Call, Decides, NeedsNone, cursor_tree, is_begun, true};
ghost use Rattle.std.specs.Prelude.{◌≡◌};

use crate::work::Work;
use fr_frame::{EntriesKind, Opening, Tracker};
use fr_moves::{Change, Move, Way};
use fr_refusals::{DynamicParts, init_map_refusal, is_dynamic, key_opening, value_opening};
use fr_shape::ReflectErrorKind;

impl<'t> Work<'t> {
    /// A map is begun, or a dynamic object.
    pub fn init_map_move<'k>(&self) -> Result<Move<'k>, ReflectErrorKind>
        ensures decides { Decides self.now Call.InitMap result }
        ensures memory { is_begun (cursor_tree self.now.state) ≡ true
            → NeedsNone (cursor_tree self.now.state) result }
    {
        self.law_sound();
        let (table, shape, partial) = self.place();
        match init_map_refusal(table, shape, partial) {
            Some(kind) => Err(kind),
            None if is_dynamic(table, shape) => Ok(Move::Stay(Change::Gather(
                DynamicParts::Entries,
            ))),
            None => {
                let (tracker, count) = (Tracker::Entries(EntriesKind::Map(0)), 0);
                Ok(Move::Stay(Change::Open(Opening { tracker, count })))
            }
        }
    }

    /// On to the key of a new entry.
    #[inline(always)]
    pub fn begin_key_move<'k>(&self) -> Result<Move<'k>, ReflectErrorKind>
        ensures decides { Decides self.now Call.BeginKey result }
    {
        let (_, shape, partial) = self.place();
        match key_opening(partial) {
            Ok(opening) => Ok(Move::Go(Way::Key(opening))),
            Err(operation) => Err(ReflectErrorKind::OperationFailed { shape, operation }),
        }
    }

    /// On to the value that the last entry lacks.
    #[inline(always)]
    pub fn begin_value_move<'k>(&self) -> Result<Move<'k>, ReflectErrorKind>
        ensures decides { Decides self.now Call.BeginValue result }
    {
        let (_, shape, partial) = self.place();
        match value_opening(partial) {
            Ok(opening) => Ok(Move::Go(Way::Value(opening))),
            Err(operation) => Err(ReflectErrorKind::OperationFailed { shape, operation }),
        }
    }
}
