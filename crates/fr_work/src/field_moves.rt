//! What `begin_field`, `begin_nth_field` and `set_nth_field_to_default` come to.
ghost use Rattle.fr_work.specs.Common.{Call, Decides};

use crate::set_moves::copy_template;
use crate::work::Work;
use fr_frame::{named_refusal, nth_opening, opening_at, selected};
use fr_moves::{Change, Move, child_way};
use fr_refusals::default_in;
use fr_shape::{OutOfMemory, ReflectErrorKind};

impl<'t> Work<'t> {
    /// On to the first field that is declared under this name.
    #[inline(always)]
    pub fn begin_field_move<'k>(&self, name: &str) -> Result<Move<'k>, ReflectErrorKind>
        ensures decides { Decides self.now (Call.BeginField name.now) result }
    {
        let (table, shape, partial) = self.place();
        if let Some(operation) = named_refusal(table, shape, partial) {
            return Err(ReflectErrorKind::OperationFailed { shape, operation });
        }
        match self.field_named(shape, selected(partial), name) {
            Some(i) => {
                let opening = opening_at(table, shape, partial, i);
                Ok(Move::Go(child_way(partial, i, opening)))
            }
            None => Err(ReflectErrorKind::FieldError { shape }),
        }
    }

    /// On to the field or element of this number.
    #[inline(always)]
    pub fn begin_nth_field_move<'k>(&self, idx: usize) -> Result<Move<'k>, ReflectErrorKind>
        ensures decides { Decides self.now (Call.BeginNthField idx) result }
    {
        let (table, shape, partial) = self.place();
        match nth_opening(table, shape, partial, idx) {
            Ok(opening) => Ok(Move::Go(child_way(partial, idx, opening))),
            Err(operation) => Err(ReflectErrorKind::OperationFailed { shape, operation }),
        }
    }

    /// A copy of its default takes the place of the field of this number.
    pub fn set_nth_field_to_default_move<'k>(
        &self,
        idx: usize,
    ) -> Result<Move<'k>, ReflectErrorKind>
        ensures decides { Decides self.now (Call.SetNthFieldToDefault idx) result }
    {
        self.law_sound();
        let (table, shape, partial) = self.place();
        let template = match default_in(table, shape, partial, idx) {
            Ok(template) => template,
            Err(kind) => return Err(kind),
        };
        let opening = opening_at(table, shape, partial, idx);
        match copy_template(self.alloc(), template) {
            Ok(value) => Ok(Move::Stay(Change::PutChild(idx, opening, value))),
            Err(OutOfMemory) => Err(ReflectErrorKind::OutOfMemory),
        }
    }
}
