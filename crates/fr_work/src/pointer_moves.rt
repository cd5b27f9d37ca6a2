//! What `begin_smart_ptr` and `set_empty_shared_slice` come to.
ghost use Rattle.std.specs.Prelude.{◌≡◌};
ghost use Rattle.fr_work.specs.Common.{Call, Decides, IfOk, list_of, no_vals, view};
ghost use Rattle.fr_shape.specs.Val.{ptr};

use crate::work::Work;
use fr_frame::{ContentKind, Tracker};
use fr_moves::{Change, Move, Way};
use fr_refusals::{beginning_in, pointer_refusal, points_to_slice, shared_slice_refusal};
use fr_shape::{Items, OutOfMemory, ReflectErrorKind, Value};
use std::alloc::Global;

/// A pointer to no items.
fn empty_slice(alloc: Global) -> Result<Value, OutOfMemory>
    ensures { IfOk result (λ v. view v ≡ ptr (list_of no_vals)) }
{
    Ok(Value::Ptr(Box::new(alloc, Value::List(Items::new(alloc)))?))
}

impl<'t> Work<'t> {
    /// On to what a pointer points to, or the pointer is open for the items of a slice.
    pub fn begin_smart_ptr_move<'k>(&self) -> Result<Move<'k>, ReflectErrorKind>
        ensures decides { Decides self.now Call.BeginSmartPtr result }
    {
        self.law_sound();
        let (table, shape, partial) = self.place();
        if let Some(operation) = pointer_refusal(table, shape) {
            return Err(ReflectErrorKind::OperationFailed { shape, operation });
        }
        if points_to_slice(table, shape) {
            return Ok(Move::Stay(Change::OpenSlice));
        }
        let beginning = beginning_in(
            self.mode(),
            &Tracker::Content(ContentKind::Pointer),
            partial,
        );
        Ok(Move::Go(Way::Content(Tracker::Content(ContentKind::Pointer), beginning)))
    }

    /// A pointer to no items takes the place.
    pub fn set_empty_shared_slice_move<'k>(&self) -> Result<Move<'k>, ReflectErrorKind>
        ensures decides { Decides self.now Call.SetEmptySharedSlice result }
    {
        let (table, shape, _) = self.place();
        if let Some(operation) = shared_slice_refusal(table, shape) {
            return Err(ReflectErrorKind::OperationFailed { shape, operation });
        }
        match empty_slice(self.alloc()) {
            Ok(value) => Ok(Move::Stay(Change::Put(value))),
            Err(OutOfMemory) => Err(ReflectErrorKind::OutOfMemory),
        }
    }
}
