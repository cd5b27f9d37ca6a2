//! What a builder tells of the place at which it works: what is begun there, the variant that is
//! selected, and variants by name.
ghost use Rattle.std.specs.Option.{option_copied};
ghost use Rattle.std.specs.Prelude.{IfSome, IsNone, IsSome, IsTrue, None, Some, is_some, slice_get, ◌↔◌, ◌≡◌};
ghost use Rattle.fr_partial.specs.Builder.{here};
ghost use Rattle.fr_partial.specs.Common.{cursor_tree, def_of, selected, variant_named, variants_of};
ghost use Rattle.fr_work.specs.Readings.{is_begun_slice, variant_here};

use crate::Partial;
use fr_frame::selected;
use fr_shape::{Hooks, ShapeId, VariantDef};

impl<'t, H: Hooks> Partial<'t, H> {
    /// Whether it can go on: a builder in hand always can.
    pub fn is_active(&self) -> bool
        ensures active { IsTrue result }
    {
        true
    }

    /// The shape of the place at which it works, which there always is.
    pub fn try_shape(&self) -> Option<ShapeId>
        ensures shape { IfSome result (λ shape. shape.0 ≡ here self.now) }
        ensures some { IsSome result }
    {
        Some(self.work.place().1)
    }

    /// Whether the place at which it works is begun as a pointer to a slice, open for more items or
    /// closed.
    pub fn is_building_smart_ptr_slice(&self) -> bool
        ensures slice { result ≡ is_begun_slice (cursor_tree self.now.state) }
    {
        self.work.is_at_slice()
    }

    /// The variant as which the enum is begun at which it works.
    pub fn selected_variant(&self) -> Option<&VariantDef>
        ensures variant { option_copied result
            ≡ variant_here (def_of self.now.shapes (here self.now)) (cursor_tree self.now.state) }
        ensures begun { is_some result ≡ is_some (selected (cursor_tree self.now.state)) }
    {
        self.work.selected_variant()
    }

    /// The variant of this name, and its number, in the enum at which it works. One marked `other`
    /// has no name. The variant needn't be the one that is selected.
    pub fn find_variant(&self, name: &str) -> Option<(usize, &VariantDef)>
        ensures number { IfSome result (λ found.
            variant_named name.now (variants_of (def_of self.now.shapes (here self.now)))
            ≡ Some found.0) }
        ensures variant { IfSome result (λ found.
            slice_get (variants_of (def_of self.now.shapes (here self.now))) found.0
            ≡ Some found.1.now) }
        ensures none { IsNone result
            ↔ (variant_named name.now (variants_of (def_of self.now.shapes (here self.now)))
            ≡ None) }
    {
        self.work.find_variant(name)
    }
}
