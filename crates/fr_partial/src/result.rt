//! `begin_ok` and `begin_err`: on to either side of a result.
ghost use Rattle.fr_partial.specs.Common.{Call, IsCall, Room, holds};

use crate::{Partial, ReflectError};
use fr_frame::{ContentKind, Tracker};
use fr_shape::{Hooks, Ledger};

impl<'t, H: Hooks> Partial<'t, H> {
    /// Enters the ok side of a result. One that is begun on that side is entered again as it is in
    /// deferred mode; any other, on the other side too, starts anew. Where the place is no result,
    /// that is the refusal, and never out of memory.
    #[inline(never)]
    pub fn begin_ok(self, ledger: &mut Ledger) -> Result<Partial<'t, H>, ReflectError>
        requires room { Room (holds self) ledger.old }
        ensures call { IsCall (H.means self.entry.hooks) self.entry Call.BeginOk result
            ledger.old ledger.new }
    {
        let decided = self.work.begin_side_move(Tracker::Content(ContentKind::Ok));
        self.run(decided, ledger)
    }

    /// The same for the err side.
    #[inline(never)]
    pub fn begin_err(self, ledger: &mut Ledger) -> Result<Partial<'t, H>, ReflectError>
        requires room { Room (holds self) ledger.old }
        ensures call { IsCall (H.means self.entry.hooks) self.entry Call.BeginErr result
            ledger.old ledger.new }
    {
        let decided = self
            .work
            .begin_side_move(Tracker::Content(ContentKind::Err));
        self.run(decided, ledger)
    }
}
