//! What a builder shows of the place at which it works.
ghost use Rattle.std.specs.Prelude.{◌≡◌};
ghost use Rattle.fr_partial.specs.Builder.{here};
ghost use Rattle.fr_partial.specs.Common.{cursor_tree};
ghost use Rattle.fr_work.specs.PlaceViews.{initialized};

use crate::{Partial, PlaceView};
use fr_shape::Hooks;

impl<'t, H: Hooks> Partial<'t, H> {
    /// A look at what is there, where the place at which it works is whole, or is begun as a struct,
    /// an array, a variant, an option, a side of a result or a pointer, and its children are all
    /// whole, wherever these lie. It takes no memory, and at most a look at each child.
    pub fn initialized_value(&self) -> Option<PlaceView<'_>>
        ensures view { result ≡ initialized (here self.now) (cursor_tree self.now.state) }
    {
        self.work.initialized_here()
    }
}
