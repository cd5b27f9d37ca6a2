//! `init_array`: an array whose elements aren't there yet.
ghost use Rattle.std.specs.Prelude.{◌≡◌};
ghost use Rattle.fr_partial.specs.Common.{Call, IsCall, IsNotOutOfMemory, Room, cursor_tree, false, holds, is_begun, is_begun_conversion, true};

use crate::{Partial, ReflectError};
use fr_shape::{Hooks, Ledger};

impl<'t, H: Hooks> Partial<'t, H> {
    /// Begins an array whose elements aren't there yet. One that is begun stays as it is, but for a
    /// conversion, which starts anew. A whole one, one of too many elements or anything else is
    /// refused, and never out of memory.
    #[inline(never)]
    pub fn init_array(self, ledger: &mut Ledger) -> Result<Partial<'t, H>, ReflectError>
        requires room { Room (holds self) ledger.old }
        ensures call { IsCall (H.means self.entry.hooks) self.entry Call.InitArray result
            ledger.old ledger.new }
        ensures memory { is_begun (cursor_tree self.entry.state) ≡ true
            → is_begun_conversion (cursor_tree self.entry.state) ≡ false
            → IsNotOutOfMemory result }
    {
        let decided = self.work.init_array_move();
        self.run(decided, ledger)
    }
}
