//! `end`, `build` and `abandon`, and deferred mode: `begin_deferred` and `finish_deferred`.
ghost use Rattle.std.specs.Prelude.{◌≡◌};
ghost use Rattle.fr_partial.specs.Common.{Call, IsCall, IsNotOutOfMemory, None, Room, RoseBy, Some, cursor_tree, false, holds, strict, takes_no_memory, true};
ghost use Rattle.fr_model.specs.Step.{begin_deferred, is_source_place};
ghost use Rattle.fr_partial.specs.Builder.{meaning, meaning_of_build, IsBuild};
ghost use Rattle.fr_moves.specs.CompletedPlaces.{PassesValidators};

use crate::{Built, Partial, ReflectError};
use fr_model::law_removed;
use fr_shape::{Hooks, Ledger, ReflectErrorKind};

impl<'t, H: Hooks> Partial<'t, H> {
    /// Leaves the place for the one above. In strict mode it is completed, and its value written
    /// there, if its fields pass their validators: only copies of templates, what an option, a
    /// result or a pointer holds, what a set, a map or a dynamic value gathers, and a validator's
    /// message need memory, and what is lacking or fails is found before all but that is made. In
    /// deferred mode it is left as it is, to be entered again or completed by `finish_deferred`; it
    /// has to lie deeper than the place at which deferred mode began. An item of a set is completed
    /// in either mode, and in deferred mode with all that lies beneath it: its value comes to the
    /// set, which leaves it out where it has one that is the same. An element or an entry of a
    /// dynamic value is completed so too. At either, in deferred mode, it may be out of memory
    /// before it has met the first place that fails. In strict mode the source of a conversion is
    /// completed, its hook makes a value of that, and the place above is whole with this; a hook may
    /// refuse, or want memory. At an open pointer to a slice the builder stays instead: the pointer
    /// becomes whole in strict mode, and in deferred mode it is closed.
    pub fn end(self, ledger: &mut Ledger) -> Result<Partial<'t, H>, ReflectError>
        requires room { Room (holds self) ledger.old }
        ensures call { IsCall (H.means self.entry.hooks) self.entry Call.End result
            ledger.old ledger.new }
        ensures memory { self.entry.state.mode ≡ strict
            → is_source_place self.entry.state ≡ false
            → takes_no_memory (cursor_tree self.entry.state) ≡ true
            → PassesValidators (meaning (H.means self.entry.hooks) self.entry Call.End)
            → IsNotOutOfMemory result }
    {
        let decided = self.work.end_move();
        self.run(decided, ledger)
    }

    /// From now on places that are left stay as they are, to be entered again or completed by
    /// `finish_deferred`. Refused in deferred mode. Takes no memory.
    pub fn begin_deferred(self, ledger: &mut Ledger) -> Result<Partial<'t, H>, ReflectError>
        requires room { Room (holds self) ledger.old }
        ensures call { IsCall (H.means self.entry.hooks) self.entry Call.BeginDeferred result
            ledger.old ledger.new }
        ensures memory { IsNotOutOfMemory result }
    {
        let decided = self.work.begin_deferred_move();
        self.run(decided, ledger)
    }

    /// `begin_deferred` of a builder that is in strict mode.
    pub fn enter_deferred(self) -> Partial<'t, H>
        requires strict { self.state.mode ≡ strict }
        ensures state { begin_deferred self.entry.state ≡ Ok result.state }
        ensures shapes { result.shapes ≡ self.entry.shapes }
        ensures root { result.root ≡ self.entry.root }
        ensures hooks { result.hooks ≡ self.entry.hooks }
        ensures plan { result.plan ≡ self.entry.plan }
    {
        let Partial { hooks, work } = self;
        let work = work.defer();
        Partial { hooks, work }
    }

    /// Completes all that was left, the longest path first, then step by step; then the place at
    /// which the builder works, which stays begun where it is; and goes back to strict mode. The
    /// first place that fails gives the refusal; memory may be wanting before it is met. In strict
    /// mode it is refused, and never out of memory.
    #[inline(never)]
    pub fn finish_deferred(self, ledger: &mut Ledger) -> Result<Partial<'t, H>, ReflectError>
        requires room { Room (holds self) ledger.old }
        ensures call { IsCall (H.means self.entry.hooks) self.entry Call.FinishDeferred result
            ledger.old ledger.new }
    {
        let decided = self.work.finish_deferred_move();
        self.run(decided, ledger)
    }

    /// Completes the root as `end` does in strict mode, asks the invariants of the structs in its
    /// value, children before parents and left to right, and hands it over. Asking takes no memory,
    /// and no time where the root's type reaches no invariant; they are asked once the value is
    /// made, so where that takes memory, want of it may come first. Refused in deferred mode, and
    /// then below the root; a value that breaks an invariant is released.
    pub fn build(self, ledger: &mut Ledger) -> Result<Built, ReflectError>
        requires room { Room (holds self) ledger.old }
        ensures build { IsBuild (H.means self.entry.hooks) self.entry result ledger.old ledger.new }
        ensures memory { takes_no_memory (cursor_tree self.entry.state) ≡ true
            → PassesValidators (meaning_of_build (H.means self.entry.hooks) self.entry)
            → IsNotOutOfMemory result }
    {
        law_removed();
        let Partial { hooks, work } = self;
        work.law_sound();
        match work.build_refusal() {
            Some(invariant) => {
                let kind = ReflectErrorKind::InvariantViolation { invariant };
                Err(work.refuse(kind, ledger))
            }
            None => work.take_root(hooks, ledger),
        }
    }

    /// Gives the builder up, and with it all that was put into it.
    pub fn abandon(self, ledger: &mut Ledger)
        requires room { Room (holds self) ledger.old }
        ensures released { RoseBy (holds self.entry) ledger.old ledger.new }
    {
        let Partial { hooks: _, work } = self;
        work.release(ledger);
    }
}
