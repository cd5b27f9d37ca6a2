//! What `begin_object_entry` comes to.
ghost use Rattle.fr_work.specs.Common.{Call, Decides};

use crate::work::Work;
use fr_moves::{Move, Way};
use fr_refusals::entry_refusal;
use fr_shape::ReflectErrorKind;

impl<'t> Work<'t> {
    /// On to the entry of this key of a dynamic object.
    pub fn begin_object_entry_move<'k>(&self, key: &'k str) -> Result<Move<'k>, ReflectErrorKind>
        ensures decides { Decides self.now (Call.BeginObjectEntry key.now) result }
    {
        let (table, shape, partial) = self.place();
        match entry_refusal(table, shape, partial) {
            None => Ok(Move::Go(Way::Entry(key))),
            Some(operation) => Err(ReflectErrorKind::OperationFailed { shape, operation }),
        }
    }
}
