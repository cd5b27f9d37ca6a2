//! What a builder tells of fields: by name, whether one is set, and which one the place is at which it
//! works.
ghost use Rattle.std.specs.Option.{option_copied};
ghost use Rattle.std.specs.Prelude.{IsNone, false, ◌↔◌, ◌≡◌};
ghost use Rattle.fr_model.specs.Tree.{cursor_field};
ghost use Rattle.fr_partial.specs.Builder.{here};
ghost use Rattle.fr_partial.specs.Common.{cursor_tree, def_of, path_of, selected};
ghost use Rattle.fr_work.specs.Readings.{ends_in_field, field_number, has_field_step, is_set_at, nearest_field};

use crate::Partial;
use fr_shape::{Field, Hooks, ReflectErrorKind};

impl<'t, H: Hooks> Partial<'t, H> {
    /// The number of the first field that goes by this name, or has it as its alias, in the struct
    /// or the selected variant at which it works. It is looked up in the plan.
    pub fn field_index(&self, name: &str) -> Option<usize>
        ensures index { result ≡ field_number name.now (def_of self.now.shapes (here self.now))
            (selected (cursor_tree self.now.state)) }
    {
        self.work.field_index(name)
    }

    /// Whether the field of this number is set, at a place that is whole, entered, or begun as a
    /// struct, a variant, an option or a result. It takes no memory, and the same time however many
    /// fields there are.
    ///
    /// # Errors
    ///
    /// `InvalidOperation`: what is begun there has no such field, or no fields at all.
    pub fn is_field_set(&self, index: usize) -> Result<bool, ReflectErrorKind>
        ensures set { result
            ≡ is_set_at self.now.shapes (here self.now) (cursor_tree self.now.state) index }
    {
        self.work.is_field_set(index)
    }

    /// The field of the struct or variant above that the place is at which it works.
    pub fn parent_field(&self) -> Option<&Field>
        ensures field { option_copied result
            ≡ cursor_field self.now.shapes self.now.root self.now.state }
        ensures none { IsNone result ↔ (ends_in_field (path_of self.now.state) ≡ false) }
    {
        self.work.parent_field()
    }

    /// That field, or else the last one on the way to the place: it takes a look at each place
    /// above, as far as that.
    pub fn nearest_field(&self) -> Option<&Field>
        ensures field { option_copied result
            ≡ nearest_field self.now.shapes self.now.root self.now.state }
        ensures none { IsNone result ↔ (has_field_step (path_of self.now.state) ≡ false) }
    {
        self.work.nearest_field()
    }

    /// None: a builder works at no field of the place at which it works.
    pub fn current_field(&self) -> Option<&Field>
        ensures none { IsNone result }
    {
        None
    }
}
