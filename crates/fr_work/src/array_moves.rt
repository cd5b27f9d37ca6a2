//! What `init_array` comes to.
ghost use Rattle.std.specs.Prelude.{◌≡◌};
ghost use Rattle.fr_work.specs.Common.{Call, Decides, NeedsNone, cursor_tree, false, is_begun, is_begun_conversion, true};

use crate::work::Work;
use fr_frame::{Opening, Tracker};
use fr_moves::{Change, Move};
use fr_refusals::array_opening;
use fr_shape::ReflectErrorKind;

impl<'t> Work<'t> {
    /// An array is begun.
    pub fn init_array_move<'k>(&self) -> Result<Move<'k>, ReflectErrorKind>
        ensures decides { Decides self.now Call.InitArray result }
        ensures memory { is_begun (cursor_tree self.now.state) ≡ true
            → is_begun_conversion (cursor_tree self.now.state) ≡ false
            → NeedsNone (cursor_tree self.now.state) result }
    {
        let (table, shape, partial) = self.place();
        match array_opening(table, shape, partial) {
            Ok(count) => {
                let tracker = Tracker::Elements;
                Ok(Move::Stay(Change::Open(Opening { tracker, count })))
            }
            Err(operation) => Err(ReflectErrorKind::OperationFailed { shape, operation }),
        }
    }
}
