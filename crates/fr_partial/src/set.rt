//! `set_shape` and `set_default`: a whole value at the place at which the builder works.
ghost use Rattle.std.specs.Prelude.{◌+◌, ◌≡◌};
ghost use Rattle.fr_partial.specs.Common.{Call, IsCall, IsNotOutOfMemory, Room, false, fits, holds, occurs, true};
ghost use Rattle.fr_partial.specs.Builder.{here};
ghost use Rattle.fr_refusals.specs.SettingDynamic.{copies_at};

use crate::{Partial, ReflectError};
use fr_shape::{Hooks, Ledger, Shaped};

impl<'t, H: Hooks> Partial<'t, H> {
    /// Puts a value of the place's own shape there, or at a `str` an owned text, in the stead of
    /// all that was put at the place and beneath it. A dynamic place takes values of other shapes
    /// besides, as dynamic ones: truths, characters, numbers of up to 64 bits, texts and, where its
    /// shape says so, lists of bytes; a character and a list are copied, which takes memory. Any
    /// other value is refused, and never out of memory.
    pub fn set_shape(
        self,
        value: Shaped,
        ledger: &mut Ledger,
    ) -> Result<Partial<'t, H>, ReflectError>
        requires fits { fits self.shapes value.shape value.value ≡ true }
        requires room { Room (λ t. holds self t + occurs value.value t) ledger.old }
        ensures call { IsCall (H.means self.entry.hooks) self.entry
            (Call.Set value.shape value.value) result ledger.old ledger.new }
        ensures memory { copies_at self.entry.shapes (here self.entry) value.shape ≡ false
            → IsNotOutOfMemory result }
    {
        let decided = self.work.set_shape_move(value, ledger);
        self.run(decided, ledger)
    }

    /// Puts a copy of the default of the place's shape there, in the stead of all that was put at
    /// the place and beneath it. Where there is no default, that is the refusal, and never out of
    /// memory.
    pub fn set_default(self, ledger: &mut Ledger) -> Result<Partial<'t, H>, ReflectError>
        requires room { Room (holds self) ledger.old }
        ensures call { IsCall (H.means self.entry.hooks) self.entry Call.SetDefault result
            ledger.old ledger.new }
    {
        let decided = self.work.set_default_move();
        self.run(decided, ledger)
    }
}
