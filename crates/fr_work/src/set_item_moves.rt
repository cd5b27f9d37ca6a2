//! What `init_set` and `begin_set_item` come to.
ghost use Rattle.std.specs.Prelude.{◌≡◌};
ghost use Rattle.fr_work.specs.Common.{Call, Decides, NeedsNone, cursor_tree, is_begun, true};

use crate::work::Work;
use fr_frame::{ItemsKind, Opening, Tracker};
use fr_moves::{Change, Move, Way};
use fr_refusals::{init_set_refusal, set_item_opening};
use fr_shape::ReflectErrorKind;

impl<'t> Work<'t> {
    /// A set is begun.
    pub fn init_set_move<'k>(&self) -> Result<Move<'k>, ReflectErrorKind>
        ensures decides { Decides self.now Call.InitSet result }
        ensures memory { is_begun (cursor_tree self.now.state) ≡ true
            → NeedsNone (cursor_tree self.now.state) result }
    {
        self.law_sound();
        let (table, shape, partial) = self.place();
        match init_set_refusal(table, shape, partial) {
            Some(kind) => Err(kind),
            None => {
                let (tracker, count) = (Tracker::Items(ItemsKind::Set), 0);
                Ok(Move::Stay(Change::Open(Opening { tracker, count })))
            }
        }
    }

    /// On to a new item of a set.
    #[inline(always)]
    pub fn begin_set_item_move<'k>(&self) -> Result<Move<'k>, ReflectErrorKind>
        ensures decides { Decides self.now Call.BeginSetItem result }
    {
        let (table, shape, partial) = self.place();
        match set_item_opening(table, shape, partial) {
            Ok(opening) => Ok(Move::Go(Way::Item(opening))),
            Err(operation) => Err(ReflectErrorKind::OperationFailed { shape, operation }),
        }
    }
}
