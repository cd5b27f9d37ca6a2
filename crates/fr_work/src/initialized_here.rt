//! What is shown of the place, where it has a value so far.
ghost use Rattle.std.specs.Prelude.{◌≡◌};
ghost use Rattle.fr_work.specs.PlaceViews.{initialized};
ghost use Rattle.fr_moves.specs.Sites.{shape_at, tree_at_site};

use crate::place_view::{PlaceView, view_of};
use crate::told_place::told_here;
use crate::work::Work;

impl<'t> Work<'t> {
    /// The look at the place, where it has a value so far.
    pub fn initialized_here(&self) -> Option<PlaceView<'_>>
        ensures view { result ≡ initialized (shape_at self.now) (tree_at_site self.now) }
    {
        let shape = self.place().1;
        let parts = &*self.parts;
        let (_, partial) = told_here(parts.plan.core(), &parts.frames);
        view_of(&parts.frames.slots, shape, partial)
    }
}
