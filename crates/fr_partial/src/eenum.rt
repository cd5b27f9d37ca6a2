//! `select_nth_variant`, `select_variant_named` and `select_variant`: the variant of an enum.
ghost use Rattle.fr_partial.specs.Common.{Call, IsCall, Room, holds};

use crate::{Partial, ReflectError};
use fr_shape::{Hooks, Ledger};

impl<'t, H: Hooks> Partial<'t, H> {
    /// Begins the enum as its variant of this number, counted from 0. One that is begun as that
    /// variant stays as it is, and any other starts anew, with none of the variant's fields there.
    /// Where there is no such variant, or it can't be selected, that is the refusal, and never out
    /// of memory.
    #[inline(never)]
    pub fn select_nth_variant(
        self,
        index: usize,
        ledger: &mut Ledger,
    ) -> Result<Partial<'t, H>, ReflectError>
        requires room { Room (holds self) ledger.old }
        ensures call { IsCall (H.means self.entry.hooks) self.entry
            (Call.SelectNthVariant index) result ledger.old ledger.new }
    {
        let decided = self.work.select_nth_variant_move(index);
        self.run(decided, ledger)
    }

    /// The same with the variant that goes by this name and isn't marked `other`.
    #[inline(never)]
    pub fn select_variant_named(
        self,
        variant_name: &str,
        ledger: &mut Ledger,
    ) -> Result<Partial<'t, H>, ReflectError>
        requires room { Room (holds self) ledger.old }
        ensures call { IsCall (H.means self.entry.hooks) self.entry
            (Call.SelectVariantNamed variant_name.now) result ledger.old ledger.new }
    {
        let decided = self.work.select_variant_named_move(variant_name);
        self.run(decided, ledger)
    }

    /// The same with the first variant that has this discriminant.
    #[inline(never)]
    pub fn select_variant(
        self,
        discriminant: i64,
        ledger: &mut Ledger,
    ) -> Result<Partial<'t, H>, ReflectError>
        requires room { Room (holds self) ledger.old }
        ensures call { IsCall (H.means self.entry.hooks) self.entry
            (Call.SelectVariant discriminant) result ledger.old ledger.new }
    {
        let decided = self.work.select_variant_move(discriminant);
        self.run(decided, ledger)
    }
}
