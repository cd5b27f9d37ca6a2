//! `begin_inner`: on to what a wrapper wraps, or is built from.
ghost use Rattle.fr_partial.specs.Common.{Call, IsCall, Room, holds};

use crate::{Partial, ReflectError};
use fr_shape::{Hooks, Ledger};

impl<'t, H: Hooks> Partial<'t, H> {
    /// Enters the source of a wrapper: what it is built from, else what it wraps. As the source
    /// ends, its hook makes the wrapper's value of it. In deferred mode a wrapper that is begun so
    /// is entered again as it is; any other place starts anew. An option is entered as by
    /// `begin_some`, in strict mode anew. A wrapper without a hook starts anew, and its field or
    /// element 0 is entered. Where the place wraps nothing, or has no such field, that is the
    /// refusal, and never out of memory.
    #[inline(never)]
    pub fn begin_inner(self, ledger: &mut Ledger) -> Result<Partial<'t, H>, ReflectError>
        requires room { Room (holds self) ledger.old }
        ensures call { IsCall (H.means self.entry.hooks) self.entry Call.BeginInner result
            ledger.old ledger.new }
    {
        let decided = self.work.begin_inner_move();
        self.run(decided, ledger)
    }
}
