//! What `begin_some` comes to.
ghost use Rattle.fr_work.specs.Common.{Call, Decides};

use crate::work::Work;
use fr_frame::{ContentKind, Tracker};
use fr_moves::{Move, Way};
use fr_refusals::{beginning_of_some, content_of};
use fr_shape::{Expected, ReflectErrorKind};

impl<'t> Work<'t> {
    /// On to the content of an option.
    pub fn begin_some_move<'k>(&self) -> Result<Move<'k>, ReflectErrorKind>
        ensures decides { Decides self.now Call.BeginSome result }
    {
        self.law_sound();
        let (table, shape, partial) = self.place();
        let Some(content) = content_of(table, shape) else {
            let (expected, actual) = (Expected::Option, shape);
            return Err(ReflectErrorKind::WasNotA { expected, actual });
        };
        let beginning = beginning_of_some(table, content, self.mode(), partial);
        Ok(Move::Go(Way::Content(Tracker::Content(ContentKind::Some), beginning)))
    }
}
