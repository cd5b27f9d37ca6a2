//! `init_list`, `init_list_with_capacity` and `begin_list_item`: a list, a dynamic array or a slice
//! behind a pointer, item by item.
ghost use Rattle.std.specs.Prelude.{◌≡◌};
ghost use Rattle.fr_partial.specs.Common.{Call, IsCall, IsNotOutOfMemory, Room, cursor_tree, holds, is_begun, true};

use crate::{Partial, ReflectError};
use fr_shape::{Hooks, Ledger};

impl<'t, H: Hooks> Partial<'t, H> {
    /// Begins a list: a whole one keeps its items, in front of those that come. A list that is
    /// begun, and a pointer to a slice that is, stays as it is. A dynamic value becomes an array:
    /// one that is an array already keeps its elements, and any other starts anew. Anything else is
    /// refused, and never out of memory.
    #[inline(never)]
    pub fn init_list(self, ledger: &mut Ledger) -> Result<Partial<'t, H>, ReflectError>
        requires room { Room (holds self) ledger.old }
        ensures call { IsCall (H.means self.entry.hooks) self.entry Call.InitList result
            ledger.old ledger.new }
        ensures memory { is_begun (cursor_tree self.entry.state) ≡ true → IsNotOutOfMemory result }
    {
        let decided = self.work.init_list_move();
        self.run(decided, ledger)
    }

    /// The same as `init_list`: the capacity is a hint that changes nothing.
    #[inline(never)]
    pub fn init_list_with_capacity(
        self,
        capacity: usize,
        ledger: &mut Ledger,
    ) -> Result<Partial<'t, H>, ReflectError>
        requires room { Room (holds self) ledger.old }
        ensures call { IsCall (H.means self.entry.hooks) self.entry
            (Call.InitListWithCapacity capacity) result ledger.old ledger.new }
        ensures memory { is_begun (cursor_tree self.entry.state) ≡ true → IsNotOutOfMemory result }
    {
        let _hint = capacity;
        self.init_list(ledger)
    }

    /// Enters a new item behind the others, of a list or a dynamic array that is begun or of an
    /// open pointer to a slice. Where the place takes no items, that is the refusal, and never out
    /// of memory.
    pub fn begin_list_item(self, ledger: &mut Ledger) -> Result<Partial<'t, H>, ReflectError>
        requires room { Room (holds self) ledger.old }
        ensures call { IsCall (H.means self.entry.hooks) self.entry Call.BeginListItem result
            ledger.old ledger.new }
    {
        let decided = self.work.begin_list_item_move();
        self.run(decided, ledger)
    }
}
