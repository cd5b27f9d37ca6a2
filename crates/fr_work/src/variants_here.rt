//! What is told of the place: a slice that is begun, the variant that is selected, and variants by
//! name.
ghost use Rattle.std.specs.Option.{option_copied};
ghost use Rattle.std.specs.Prelude.{IfSome, IsNone, None, Some, is_some, slice_get, ◌↔◌, ◌≡◌};
ghost use Rattle.fr_work.specs.Common.{def_of, selected, variant_named, variants_of};
ghost use Rattle.fr_work.specs.Readings.{is_begun_slice, variant_here};
ghost use Rattle.fr_moves.specs.Sites.{shape_at, tree_at_site};

use crate::work::Work;
use fr_frame::{ItemsKind, PartialValue, Tracker, selected};
use fr_refusals::enum_of;
use fr_shape::VariantDef;

impl<'t> Work<'t> {
    /// The variant that is selected at the place at which the builder works, if one is.
    pub fn selected_here(&self) -> Option<u32>
        ensures selected { result ≡ selected (tree_at_site self.now) }
    {
        selected(self.place().2)
    }

    /// Whether a pointer to a slice is begun there, open or closed.
    pub fn is_at_slice(&self) -> bool
        ensures slice { result ≡ is_begun_slice (tree_at_site self.now) }
    {
        matches!(
            self.place().2,
            PartialValue::Begun(Tracker::Items(ItemsKind::Slice | ItemsKind::ClosedSlice), _)
        )
    }

    /// The variant of this number of the enum of which the place is.
    fn variant_numbered(&self, number: u32) -> Option<&VariantDef>
        ensures variant { option_copied result
            ≡ slice_get (variants_of (def_of self.now.shapes (shape_at self.now))) number }
    {
        let (table, shape, _) = self.place();
        match enum_of(table, shape) {
            Some(described) => described.variants.get(number as usize),
            None => None,
        }
    }

    /// The variant that is selected at the place.
    pub fn selected_variant(&self) -> Option<&VariantDef>
        ensures variant { option_copied result
            ≡ variant_here (def_of self.now.shapes (shape_at self.now)) (tree_at_site self.now) }
        ensures begun { is_some result ≡ is_some (selected (tree_at_site self.now)) }
    {
        self.law_sound();
        match self.selected_here() {
            Some(number) => self.variant_numbered(number),
            None => None,
        }
    }

    /// The variant of this name in the enum of which the place is, and its number.
    pub fn find_variant(&self, name: &str) -> Option<(usize, &VariantDef)>
        ensures number { IfSome result (λ found.
            variant_named name.now (variants_of (def_of self.now.shapes (shape_at self.now)))
            ≡ Some found.0) }
        ensures variant { IfSome result (λ found.
            slice_get (variants_of (def_of self.now.shapes (shape_at self.now))) found.0
            ≡ Some found.1.now) }
        ensures none { IsNone result
            ↔ (variant_named name.now (variants_of (def_of self.now.shapes (shape_at self.now)))
            ≡ None) }
    {
        let Some(number) = self.variant_named(self.place().1, name) else {
            return None;
        };
        match self.variant_numbered(number) {
            Some(variant) => Some((number as usize, variant)),
            None => unreachable!(),
        }
    }
}
