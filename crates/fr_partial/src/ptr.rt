//! `begin_smart_ptr`: on to what a pointer points to; and `set_empty_shared_slice`.
ghost use Rattle.fr_partial.specs.Common.{Call, IsCall, Room, holds};

use crate::{Partial, ReflectError};
use fr_shape::{Hooks, Ledger};

impl<'t, H: Hooks> Partial<'t, H> {
    /// Enters what a pointer points to, a `str` only where the pointer is known to own it. A
    /// pointer that is begun is entered again as it is in deferred mode; any other starts anew. At
    /// a pointer to a slice, which has to own it too, the builder stays, and the pointer is open
    /// for items; in deferred mode one that is begun keeps those that it has. Where it can't be
    /// begun, that is the refusal, and never out of memory.
    #[inline(never)]
    pub fn begin_smart_ptr(self, ledger: &mut Ledger) -> Result<Partial<'t, H>, ReflectError>
        requires room { Room (holds self) ledger.old }
        ensures call { IsCall (H.means self.entry.hooks) self.entry Call.BeginSmartPtr result
            ledger.old ledger.new }
    {
        let decided = self.work.begin_smart_ptr_move();
        self.run(decided, ledger)
    }

    /// Sets a pointer that is known as a shared reference to a slice to no items, in the stead of
    /// all that was put at the place and beneath it. Any other place is refused, and never out of
    /// memory.
    #[inline(never)]
    pub fn set_empty_shared_slice(self, ledger: &mut Ledger) -> Result<Partial<'t, H>, ReflectError>
        requires room { Room (holds self) ledger.old }
        ensures call { IsCall (H.means self.entry.hooks) self.entry Call.SetEmptySharedSlice result
            ledger.old ledger.new }
    {
        let decided = self.work.set_empty_shared_slice_move();
        self.run(decided, ledger)
    }
}
