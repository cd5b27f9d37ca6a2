//! What `begin_inner` comes to.
ghost use Rattle.fr_work.specs.Common.{Call, Decides};

use crate::work::Work;
use fr_frame::{ContentKind, PartialValue, Tracker, nth_opening};
use fr_moves::{Move, Way};
use fr_refusals::{beginning_of_inner, by_wrapper, content_of, convert_in, source_in};
use fr_shape::{Operation, ReflectErrorKind};

impl<'t> Work<'t> {
    /// On to what a wrapper wraps or is built from.
    pub fn begin_inner_move<'k>(&self) -> Result<Move<'k>, ReflectErrorKind>
        ensures decides { Decides self.now Call.BeginInner result }
    {
        self.law_sound();
        let (table, shape, partial) = self.place();
        let Some(source) = source_in(table, shape) else {
            let operation = Operation::NoInner;
            return Err(ReflectErrorKind::OperationFailed { shape, operation });
        };
        let Some(hook) = convert_in(table, shape) else {
            return match nth_opening(table, shape, &PartialValue::Entered, 0) {
                Ok(opening) => Ok(Move::Go(Way::Anew(0, opening))),
                Err(operation) => Err(ReflectErrorKind::OperationFailed { shape, operation }),
            };
        };
        if let Some(content) = content_of(table, shape) {
            let beginning = beginning_of_inner(table, content, self.mode(), partial);
            return Ok(Move::Go(Way::Content(Tracker::Content(ContentKind::Some), beginning)));
        }
        Ok(self.on_to_source(by_wrapper(hook, source)))
    }
}
