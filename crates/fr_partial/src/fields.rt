//! `begin_field` and `begin_nth_field`: on to a field or element of the place at which the builder
//! works; and `set_nth_field_to_default`.
ghost use Rattle.fr_partial.specs.Common.{Call, IsCall, Room, holds};

use crate::{Partial, ReflectError};
use fr_shape::{Hooks, Ledger};

impl<'t, H: Hooks> Partial<'t, H> {
    /// Enters the first field that is declared under this name, of a struct or of the variant that
    /// is selected. One that holds something already keeps it; a place that is begun as a conversion
    /// starts anew first. Where no field has the name, or the place has no such fields, that is the
    /// refusal, and never out of memory.
    pub fn begin_field(
        self,
        field_name: &str,
        ledger: &mut Ledger,
    ) -> Result<Partial<'t, H>, ReflectError>
        requires room { Room (holds self) ledger.old }
        ensures call { IsCall (H.means self.entry.hooks) self.entry
            (Call.BeginField field_name.now) result ledger.old ledger.new }
    {
        let decided = self.work.begin_field_move(field_name);
        self.run(decided, ledger)
    }

    /// Enters the field or element of this number, counted from 0. One that holds something already
    /// keeps it; a place that is begun as a conversion starts anew first. Where it can't be entered,
    /// that is the refusal, and never out of memory.
    pub fn begin_nth_field(
        self,
        idx: usize,
        ledger: &mut Ledger,
    ) -> Result<Partial<'t, H>, ReflectError>
        requires room { Room (holds self) ledger.old }
        ensures call { IsCall (H.means self.entry.hooks) self.entry (Call.BeginNthField idx) result
            ledger.old ledger.new }
    {
        let decided = self.work.begin_nth_field_move(idx);
        self.run(decided, ledger)
    }

    /// Sets the field of this number, counted from 0, of a struct or of the variant that is
    /// selected, to its default: a copy of its own template where it is marked with one, else of
    /// its shape's default. What was put at the field is released, and the builder stays where it
    /// is; it is one call. A place that is begun as a conversion starts anew first. Where the field
    /// has no default, or there is no such field, that is the refusal, and never out of memory.
    #[inline(never)]
    pub fn set_nth_field_to_default(
        self,
        idx: usize,
        ledger: &mut Ledger,
    ) -> Result<Partial<'t, H>, ReflectError>
        requires room { Room (holds self) ledger.old }
        ensures call { IsCall (H.means self.entry.hooks) self.entry
            (Call.SetNthFieldToDefault idx) result ledger.old ledger.new }
    {
        let decided = self.work.set_nth_field_to_default_move(idx);
        self.run(decided, ledger)
    }
}
