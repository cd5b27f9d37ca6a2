//! What `begin_ok` and `begin_err` come to.
ghost use Rattle.fr_work.specs.Common.{Decides, as_tracker, side_call};
ghost use Rattle.fr_work.specs.Sides.{IsSide};

use crate::work::Work;
use fr_frame::Tracker;
use fr_moves::{Move, Way};
use fr_refusals::{beginning_in, is_result};
use fr_shape::{Expected, ReflectErrorKind};

impl<'t> Work<'t> {
    /// On to this side of a result.
    pub fn begin_side_move<'k>(&self, side: Tracker) -> Result<Move<'k>, ReflectErrorKind>
        requires { IsSide (as_tracker side) }
        ensures decides { Decides self.now (side_call (as_tracker side)) result }
    {
        self.law_sound();
        let (table, actual, partial) = self.place();
        if !is_result(table, actual) {
            let expected = Expected::Result;
            return Err(ReflectErrorKind::WasNotA { expected, actual });
        }
        let beginning = beginning_in(self.mode(), &side, partial);
        Ok(Move::Go(Way::Content(side, beginning)))
    }
}
