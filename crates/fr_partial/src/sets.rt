//! `init_set` and `begin_set_item`: a set, item by item.
ghost use Rattle.std.specs.Prelude.{◌≡◌};
ghost use Rattle.fr_partial.specs.Common.{Call, IsCall, IsNotOutOfMemory, Room, cursor_tree, holds, is_begun, true};

use crate::{Partial, ReflectError};
use fr_shape::{Hooks, Ledger};

impl<'t, H: Hooks> Partial<'t, H> {
    /// Begins a set: a whole one keeps its items, in front of those that come. A set that is begun
    /// stays as it is. Anything else is refused, and never out of memory.
    #[inline(never)]
    pub fn init_set(self, ledger: &mut Ledger) -> Result<Partial<'t, H>, ReflectError>
        requires room { Room (holds self) ledger.old }
        ensures call { IsCall (H.means self.entry.hooks) self.entry Call.InitSet result
            ledger.old ledger.new }
        ensures memory { is_begun (cursor_tree self.entry.state) ≡ true → IsNotOutOfMemory result }
    {
        let decided = self.work.init_set_move();
        self.run(decided, ledger)
    }

    /// Enters a new item behind the others of a set that is begun. It comes to the set as it ends,
    /// if that doesn't have it yet. Anywhere else it is refused, and never out of memory.
    pub fn begin_set_item(self, ledger: &mut Ledger) -> Result<Partial<'t, H>, ReflectError>
        requires room { Room (holds self) ledger.old }
        ensures call { IsCall (H.means self.entry.hooks) self.entry Call.BeginSetItem result
            ledger.old ledger.new }
    {
        let decided = self.work.begin_set_item_move();
        self.run(decided, ledger)
    }
}
