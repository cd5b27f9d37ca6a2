//! `begin_some`: on to the content of an option.
ghost use Rattle.fr_partial.specs.Common.{Call, IsCall, Room, holds};

use crate::{Partial, ReflectError};
use fr_shape::{Hooks, Ledger};

impl<'t, H: Hooks> Partial<'t, H> {
    /// Enters the content of an option. One that is begun is entered again as it is in deferred
    /// mode. A whole `Some` is entered in place where more can be added to its content: a list, a
    /// map, a set or dynamic data, in deferred mode a struct or an enum besides. Every other option
    /// starts anew. Where the place is no option, that is the refusal, and never out of memory.
    #[inline(never)]
    pub fn begin_some(self, ledger: &mut Ledger) -> Result<Partial<'t, H>, ReflectError>
        requires room { Room (holds self) ledger.old }
        ensures call { IsCall (H.means self.entry.hooks) self.entry Call.BeginSome result
            ledger.old ledger.new }
    {
        let decided = self.work.begin_some_move();
        self.run(decided, ledger)
    }
}
