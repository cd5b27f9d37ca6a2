//! `begin_object_entry`: a dynamic value that is an object, entry by entry.
ghost use Rattle.fr_partial.specs.Common.{Call, IsCall, Room, holds};

use crate::{Partial, ReflectError};
use fr_shape::{Hooks, Ledger};

impl<'t, H: Hooks> Partial<'t, H> {
    /// Enters the entry of this key of a dynamic value that is begun as an object: the one that it
    /// has, as it was left, or a new one behind the others. Anywhere else it is refused, and never
    /// out of memory.
    pub fn begin_object_entry(
        self,
        key: &str,
        ledger: &mut Ledger,
    ) -> Result<Partial<'t, H>, ReflectError>
        requires room { Room (holds self) ledger.old }
        ensures call { IsCall (H.means self.entry.hooks) self.entry
            (Call.BeginObjectEntry key.now) result ledger.old ledger.new }
    {
        let decided = self.work.begin_object_entry_move(key);
        self.run(decided, ledger)
    }
}
