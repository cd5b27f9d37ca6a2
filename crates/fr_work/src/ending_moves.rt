//! What `end`, `begin_deferred` and `finish_deferred` come to.
ghost use Rattle.std.specs.Prelude.{◌≡◌};
ghost use Rattle.fr_work.specs.Common.{Call, Decides, NeedsNone, cursor_tree, false, is_open_slice, is_root, length, strict, takes_no_memory, true};
ghost use Rattle.fr_model.specs.Step.{is_source_place};
ghost use Rattle.fr_work.specs.Deciding.{NeedsMessageAlone};

use crate::work::Work;
use fr_frame::Taker;
use fr_moves::{Change, Move, Rules};
use fr_refusals::{Mode, is_open_slice};
use fr_shape::{Invariant, ReflectErrorKind};

impl<'t> Work<'t> {
    /// How the place ends.
    #[inline(always)]
    pub fn end_move<'k>(&self) -> Result<Move<'k>, ReflectErrorKind>
        ensures decides { Decides self.now Call.End result }
        ensures memory { self.now.state.mode ≡ strict
            → is_source_place self.now.state ≡ false
            → takes_no_memory (cursor_tree self.now.state) ≡ true
            → NeedsMessageAlone (cursor_tree self.now.state) result }
    {
        let (_, _, partial) = self.place();
        if is_open_slice(partial) {
            return match self.mode() {
                Mode::Strict => Ok(Move::Complete(Rules::Strict, Taker::Itself)),
                Mode::Deferred(_) => Ok(Move::Stay(Change::CloseSlice)),
            };
        }
        let depth = self.depth();
        if depth == 0 {
            let invariant = Invariant::EndAtRoot;
            return Err(ReflectErrorKind::InvariantViolation { invariant });
        }
        self.leaving_move(depth)
    }

    /// How a place ends that lies this deep, below the root, and is no open pointer to a slice.
    #[inline(always)]
    fn leaving_move<'k>(&self, depth: usize) -> Result<Move<'k>, ReflectErrorKind>
        requires not_open { is_open_slice (cursor_tree self.now.state) ≡ false }
        requires depth { depth ≡ length self.now.state.cursor }
        requires below { is_root self.now.state.cursor ≡ false }
        ensures decides { Decides self.now Call.End result }
        ensures memory { self.now.state.mode ≡ strict
            → is_source_place self.now.state ≡ false
            → takes_no_memory (cursor_tree self.now.state) ≡ true
            → NeedsMessageAlone (cursor_tree self.now.state) result }
    {
        let item = self.is_set_item();
        match self.mode() {
            Mode::Strict if item => Ok(Move::Complete(Rules::Strict, Taker::Set)),
            Mode::Strict if self.is_source() => Ok(Move::Convert),
            Mode::Strict => Ok(Move::Complete(Rules::Strict, Taker::Above)),
            Mode::Deferred(start) if depth <= start => {
                let invariant = Invariant::EndAtStart;
                Err(ReflectErrorKind::InvariantViolation { invariant })
            }
            Mode::Deferred(_) if item => Ok(Move::Complete(Rules::Deferred, Taker::Set)),
            Mode::Deferred(_) if self.is_dynamic_part() => {
                Ok(Move::Complete(Rules::Deferred, Taker::Above))
            }
            Mode::Deferred(_) => Ok(Move::Leave),
        }
    }

    /// Into deferred mode, from strict mode alone.
    pub fn begin_deferred_move<'k>(&self) -> Result<Move<'k>, ReflectErrorKind>
        ensures decides { Decides self.now Call.BeginDeferred result }
        ensures memory { NeedsNone (cursor_tree self.now.state) result }
    {
        match self.mode() {
            Mode::Strict => Ok(Move::Defer),
            Mode::Deferred(_) => {
                let invariant = Invariant::AlreadyDeferred;
                Err(ReflectErrorKind::InvariantViolation { invariant })
            }
        }
    }

    /// Out of deferred mode.
    pub fn finish_deferred_move<'k>(&self) -> Result<Move<'k>, ReflectErrorKind>
        ensures decides { Decides self.now Call.FinishDeferred result }
    {
        match self.mode() {
            Mode::Strict => {
                let invariant = Invariant::NotDeferred;
                Err(ReflectErrorKind::InvariantViolation { invariant })
            }
            Mode::Deferred(_) => Ok(Move::Finish),
        }
    }
}
