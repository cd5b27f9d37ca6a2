//! On to the source of a conversion.
ghost use Rattle.fr_frame.specs.Heap.{as_conversion};
ghost use Rattle.fr_work.specs.Common.{Call, ComesTo};
ghost use Rattle.fr_work.specs.Sources.{Begins};

use crate::work::Work;
use fr_frame::Conversion;
use fr_moves::{Move, Way};
use fr_refusals::{beginning_in, source_tracker};

impl<'t> Work<'t> {
    /// The place is begun as this conversion, and its source is entered.
    pub fn on_to_source<'k>(&self, conversion: Conversion) -> Move<'k>
        ensures comes { (call : Call) → Begins self.now call (as_conversion conversion)
            → ComesTo self.now call result }
    {
        self.law_sound();
        let partial = self.place().2;
        let tracker = source_tracker(conversion);
        let beginning = beginning_in(self.mode(), &tracker, partial);
        Move::Go(Way::Content(tracker, beginning))
    }
}
