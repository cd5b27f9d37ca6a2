//! The builder.
ghost use Rattle.std.specs.Prelude.{◌+◌, ◌≡◌};
ghost use Rattle.fr_partial.specs.Common.{Call, ConversionsSuit, IfOk, IsCall, IsChecked, IsIn, IsInOrder, IsMeant, IsNotOutOfMemory, IsNumbered, IsPlanOf, List, NeedsNone, None, RestsAround, Room, RoseBy, cursor_tree, holds, path_of, ℕ};
ghost use Rattle.fr_partial.specs.Builder.{meaning, site_of};
ghost use Rattle.fr_moves.specs.CompletedPlaces.{PassesValidators};
ghost use Rattle.fr_work.specs.Deciding.{carries, DecidesBy, NeedsMessageAlone, WasDecided};

use crate::ReflectError;
use fr_model::law_removed;
use fr_moves::Move;
use fr_shape::{Hooks, Ledger, ReflectErrorKind, law_hooks};
use fr_work::Work;
use std::marker::Model;

/// A builder of one value of a shape of `table`. Each consuming call spends it and returns it
/// again, or is refused; a refusal has released every token that it held. It has no `Drop`: `build`
/// or `abandon` ends it.
pub struct Partial<'t, H> {
    pub(crate) hooks: &'t H,
    pub(crate) work: Work<'t>,
}

impl<'t, H> Model for Partial<'t, H> {
    ghost use Rattle.fr_partial.specs.Builder.{Builder, builder_code};

    ghost Value = { Builder H };

    ghost coded = { builder_code H.code };

    ghost view = { λ p. record {
      shapes = p.work.shapes;
      hooks = p.hooks.now;
      root = p.work.root;
      plan = p.work.plan;
      state = p.work.state;
    } };
}

impl<'t, H: Hooks> Partial<'t, H> {
    /// Does nothing: its contract is what is true of every builder, whoever made it. With it the
    /// laws of fr_plan apply to the plan of a builder that one was handed, which is a plan of its
    /// root, and those of fr_model to the builder: its state is well but for its tokens. That these
    /// are distinct follows from the caller's own premises, by `law_well`.
    pub fn law_in_order(&self)
        ensures numbered { IsNumbered self.now.shapes }
        ensures checked { IsChecked self.now.shapes }
        ensures inside { IsIn self.now.shapes self.now.root }
        ensures plan { IsPlanOf self.now.shapes (record { 0 = self.now.root }) self.now.plan }
        ensures in_order { IsInOrder self.now.shapes self.now.root self.now.state }
        ensures rests { RestsAround self.now.state.cursor self.now.state.tree }
        ensures conversions { ConversionsSuit self.now.shapes self.now.root None
            self.now.state.tree }
    {
        self.work.law_sound();
    }

    /// Does what was decided of a call. Where it is refused, or there is no memory, all is
    /// released.
    #[inline(always)]
    pub(crate) fn run(
        self,
        decided: Result<Move, ReflectErrorKind>,
        ledger: &mut Ledger,
    ) -> Result<Partial<'t, H>, ReflectError>
        requires meant { IfOk decided (IsMeant (site_of self)) }
        requires room { Room (λ t. holds self t + carries decided t) ledger.old }
        ensures call { (call : Call)
            → DecidesBy (H.means self.entry.hooks) (site_of self.entry) call decided.entry
            → (before : List ℕ) → WasDecided call decided.entry before ledger.old
            → IsCall (H.means self.entry.hooks) self.entry call result before ledger.new }
        ensures memory { NeedsNone (cursor_tree self.entry.state) decided.entry
            → IsNotOutOfMemory result }
        ensures message { (call : Call)
            → DecidesBy (H.means self.entry.hooks) (site_of self.entry) call decided.entry
            → NeedsMessageAlone (cursor_tree self.entry.state) decided.entry
            → PassesValidators (meaning (H.means self.entry.hooks) self.entry call)
            → IsNotOutOfMemory result }
    {
        law_hooks::<H>();
        law_removed();
        let Partial { hooks, work } = self;
        work.law_sound();
        match decided {
            Ok(decided) => match work.make(hooks, decided, ledger) {
                Ok(work) => Ok(Partial { hooks, work }),
                Err(error) => Err(error),
            },
            Err(kind) => Err(work.refuse(kind, ledger)),
        }
    }

    /// The error of a call that is refused before it changes anything: all is released.
    pub(crate) fn refuse(self, kind: ReflectErrorKind, ledger: &mut Ledger) -> ReflectError
        requires room { Room (holds self) ledger.old }
        ensures kind { result.kind ≡ kind }
        ensures path { result.path ≡ path_of self.entry.state }
        ensures released { RoseBy (holds self.entry) ledger.old ledger.new }
    {
        let Partial { hooks: _, work } = self;
        work.refuse(kind, ledger)
    }
}
