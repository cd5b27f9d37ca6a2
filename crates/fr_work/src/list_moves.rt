//! What `init_list` and `begin_list_item` come to.
ghost use Rattle.std.specs.Prelude.{◌≡◌};
ghost use Rattle.fr_work.specs.Common.{Call, Decides, NeedsNone, cursor_tree, is_begun, true};

use crate::work::Work;
use fr_frame::{ItemsKind, Opening, Tracker};
use fr_moves::{Change, Move, Way};
use fr_refusals::{DynamicParts, init_list_refusal, is_dynamic, item_opening};
use fr_shape::ReflectErrorKind;

impl<'t> Work<'t> {
    /// A list is begun, or a dynamic array.
    pub fn init_list_move<'k>(&self) -> Result<Move<'k>, ReflectErrorKind>
        ensures decides { Decides self.now Call.InitList result }
        ensures memory { is_begun (cursor_tree self.now.state) ≡ true
            → NeedsNone (cursor_tree self.now.state) result }
    {
        self.law_sound();
        let (table, shape, partial) = self.place();
        match init_list_refusal(table, shape, partial) {
            Some(kind) => Err(kind),
            None if is_dynamic(table, shape) => Ok(Move::Stay(Change::Gather(
                DynamicParts::Elements,
            ))),
            None => {
                let (tracker, count) = (Tracker::Items(ItemsKind::List), 0);
                Ok(Move::Stay(Change::Open(Opening { tracker, count })))
            }
        }
    }

    /// On to a new item of a list, a slice or a dynamic array.
    #[inline(always)]
    pub fn begin_list_item_move<'k>(&self) -> Result<Move<'k>, ReflectErrorKind>
        ensures decides { Decides self.now Call.BeginListItem result }
    {
        let (table, shape, partial) = self.place();
        match item_opening(table, shape, partial) {
            Ok(opening) => Ok(Move::Go(Way::Item(opening))),
            Err(operation) => Err(ReflectErrorKind::OperationFailed { shape, operation }),
        }
    }
}
