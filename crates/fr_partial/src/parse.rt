//! `parse_from_str` and `parse_from_bytes`: a value that a text or bytes mean.
ghost use Rattle.std.specs.Prelude.{◌≡◌};
ghost use Rattle.fr_partial.specs.Common.{Call, IsCall, IsNotOutOfMemory, Room, false, holds};
ghost use Rattle.fr_partial.specs.Builder.{here};
ghost use Rattle.fr_work.specs.declared.parse_moves.ParseInput.{ParseInput as TheInput};
ghost use Rattle.fr_work.specs.ParseHooks.{may_want_memory};

use crate::{Partial, ReflectError};
use fr_shape::{Hooks, Ledger};
use fr_work::ParseInput;

impl<'t, H: Hooks> Partial<'t, H> {
    /// Puts the value that a text means at the place, in place of all that was put there and
    /// beneath it: what the hook of the place's shape makes of it, and without a hook the scalar
    /// that it writes: `true` or `false`, one character, an integer in the range of its kind, its
    /// digits behind an optional `+`, or `-` at signed kinds, or the text itself. Refused where the
    /// text means no value, or nothing is parsed there; a hook's own message isn't told. Without a
    /// hook only a text needs memory.
    pub fn parse_from_str(
        self,
        text: &str,
        ledger: &mut Ledger,
    ) -> Result<Partial<'t, H>, ReflectError>
        requires room { Room (holds self) ledger.old }
        ensures call { IsCall (H.means self.entry.hooks) self.entry (Call.ParseFromStr text.now)
            result ledger.old ledger.new }
        ensures memory { may_want_memory self.entry.shapes (here self.entry)
            (TheInput.Text text.entry) ≡ false → IsNotOutOfMemory result }
    {
        let decided = self.work.parse_move(self.hooks, ParseInput::Text(text));
        self.run(decided, ledger)
    }

    /// Puts the value that bytes mean at the place, in place of all that was put there and beneath
    /// it: what the hook of the place's shape makes of them. Refused where the hook refuses them,
    /// whose own message isn't told, or doesn't take bytes; without a hook it is refused, and never
    /// out of memory.
    pub fn parse_from_bytes(
        self,
        bytes: &[u8],
        ledger: &mut Ledger,
    ) -> Result<Partial<'t, H>, ReflectError>
        requires room { Room (holds self) ledger.old }
        ensures call { IsCall (H.means self.entry.hooks) self.entry (Call.ParseFromBytes bytes.now)
            result ledger.old ledger.new }
        ensures memory { may_want_memory self.entry.shapes (here self.entry)
            (TheInput.Bytes bytes.entry) ≡ false → IsNotOutOfMemory result }
    {
        let decided = self.work.parse_move(self.hooks, ParseInput::Bytes(bytes));
        self.run(decided, ledger)
    }
}
