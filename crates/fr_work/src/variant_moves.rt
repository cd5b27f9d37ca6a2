//! What the calls come to that select a variant.
ghost use Rattle.fr_work.specs.Common.{Call, Decides};

use crate::choosing::select;
use crate::work::Work;
use fr_moves::Move;
use fr_refusals::nth_variant;
use fr_shape::{Operation, ReflectErrorKind};

impl<'t> Work<'t> {
    /// The variant of this number is selected.
    pub fn select_nth_variant_move<'k>(&self, index: usize) -> Result<Move<'k>, ReflectErrorKind>
        ensures decides { Decides self.now (Call.SelectNthVariant index) result }
    {
        self.law_sound();
        let (table, shape, _) = self.place();
        let found = nth_variant(table, shape, index);
        select(table, shape, found, Operation::VariantIndexOutOfBounds)
    }

    /// The variant of this name is selected.
    pub fn select_variant_named_move<'k>(&self, name: &str) -> Result<Move<'k>, ReflectErrorKind>
        ensures decides { Decides self.now (Call.SelectVariantNamed name.now) result }
    {
        let (table, shape, _) = self.place();
        let found = self.variant_named(shape, name);
        select(table, shape, found, Operation::VariantNameUnknown)
    }

    /// The first variant that has this discriminant is selected.
    pub fn select_variant_move<'k>(&self, discriminant: i64) -> Result<Move<'k>, ReflectErrorKind>
        ensures decides { Decides self.now (Call.SelectVariant discriminant) result }
    {
        let (table, shape, _) = self.place();
        let found = self.variant_told_by(shape, discriminant);
        select(table, shape, found, Operation::DiscriminantUnknown)
    }
}
