//! `init_map`, `begin_key` and `begin_value`: a map, entry by entry.
ghost use Rattle.fr_partial.specs.Common.{Call, IsCall, IsNotOutOfMemory, Room, cursor_tree, holds, is_begun, true};
ghost use Rattle.std.specs.Prelude.{◌≡◌};

use crate::{Partial, ReflectError};
use fr_shape::{Hooks, Ledger};

impl<'t, H: Hooks> Partial<'t, H> {
    /// Begins a map: a whole one keeps its entries, in front of those that come. A map that is
    /// begun stays as it is. A dynamic value becomes an object: one that is an object already keeps
    /// its entries, and any other starts anew. Anything else is refused, and never out of memory.
    #[inline(never)]
    pub fn init_map(self, ledger: &mut Ledger) -> Result<Partial<'t, H>, ReflectError>
        requires room { Room (holds self) ledger.old }
        ensures call { IsCall (H.means self.entry.hooks) self.entry Call.InitMap result
            ledger.old ledger.new }
        ensures memory { is_begun (cursor_tree self.entry.state) ≡ true → IsNotOutOfMemory result }
    {
        let decided = self.work.init_map_move();
        self.run(decided, ledger)
    }

    /// Enters the key of a new entry, behind the others, of a map that is begun. Where the last
    /// entry has no value yet, or the place isn't such a map, that is the refusal, and never out of
    /// memory.
    pub fn begin_key(self, ledger: &mut Ledger) -> Result<Partial<'t, H>, ReflectError>
        requires room { Room (holds self) ledger.old }
        ensures call { IsCall (H.means self.entry.hooks) self.entry Call.BeginKey result
            ledger.old ledger.new }
    {
        let decided = self.work.begin_key_move();
        self.run(decided, ledger)
    }

    /// Enters the value of the last entry of a map that is begun, where that entry has none yet.
    /// Anywhere else it is refused, and never out of memory.
    pub fn begin_value(self, ledger: &mut Ledger) -> Result<Partial<'t, H>, ReflectError>
        requires room { Room (holds self) ledger.old }
        ensures call { IsCall (H.means self.entry.hooks) self.entry Call.BeginValue result
            ledger.old ledger.new }
    {
        let decided = self.work.begin_value_move();
        self.run(decided, ledger)
    }
}
