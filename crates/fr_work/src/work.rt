//! What a builder works with, and its moves as a whole: what is decided is made, or all is
//! released.
ghost use Rattle.std.specs.Prelude.{◌+◌, ◌≡◌};
ghost use Rattle.fr_work.specs.Common.{Conserved, ConversionsSuit, IfErr, IsChecked, IsErr, IsIn, IsInOrder, IsMeant, IsNotOutOfMemory, IsNumbered, IsPlanOf, None, RestsAround, Room, RoseBy, Sees, body_of, carried, false, held_at, held_in, is_map, lacks_last, lacks_value, length, meant_by, mode_of, own_tree, path_of, strict, true};
ghost use Rattle.fr_model.specs.Step.{begin_deferred};
ghost use Rattle.fr_work.specs.Making.{left_at, IsMoved};
ghost use Rattle.fr_moves.specs.CompletedPlaces.{PassesValidators};
ghost use Rattle.fr_moves.specs.Moving.{is_late, needs_message_alone, needs_none};
ghost use Rattle.fr_moves.specs.Sites.{tree_at_site};

use crate::ReflectError;
use fr_frame::PartialValue;
use fr_model::law_paths;
use fr_moves::{Move, Parts, defer, make, place_here};
use fr_path::Path;
use fr_refusals::Mode;
use fr_shape::{Hooks, Ledger, ReflectErrorKind, ShapeId, ShapeTable};
use std::alloc::Global;
use std::marker::Model;

/// What a builder works with, on the heap, so that a call moves no more than where it is. Contracts
/// see the table, the root's shape, the plan and the state.
#[derive(Drop)]
pub struct Work<'t> {
    pub(crate) parts: Box<Parts<'t>>,
}

impl<'t> Model for Work<'t> {
    ghost use Rattle.fr_moves.specs.Sites.{Site, site_code};

    ghost Value = { Site };

    ghost coded = { site_code };

    ghost use Rattle.fr_moves.specs.Works.{site, IsSound};

    ghost view = { λ work. site work.parts.value };

    ghost invariant = { λ work. IsSound work.parts.value };
}

/// Releases all that was put at the places, open or not. The path is left.
#[cold]
#[inline(never)]
fn release(parts: Box<Parts>, ledger: &mut Ledger) -> Path
    requires room { Room (held_in parts.value.frames) ledger.old }
    ensures path { result ≡ parts.entry.value.path }
    ensures released { RoseBy (held_in parts.entry.value.frames) ledger.old ledger.new }
{
    let Parts {
        alloc: _,
        plan,
        frames,
        path,
        calls: _,
    } = Box::into_inner(parts);
    frames.slots.release(ledger);
    drop(plan);
    path
}

impl<'t> Work<'t> {
    /// Does nothing: what is true of all that a builder works with.
    pub fn law_sound(&self)
        ensures numbered { IsNumbered self.now.shapes }
        ensures checked { IsChecked self.now.shapes }
        ensures inside { IsIn self.now.shapes self.now.root }
        ensures plan { IsPlanOf self.now.shapes (record { 0 = self.now.root }) self.now.plan }
        ensures in_order { IsInOrder self.now.shapes self.now.root self.now.state }
        ensures rests { RestsAround self.now.state.cursor self.now.state.tree }
        ensures conversions { ConversionsSuit self.now.shapes self.now.root None
            self.now.state.tree }
    {
        let _parts = &self.parts;
    }

    /// The allocator.
    pub fn alloc(&self) -> Global {
        self.parts.alloc
    }

    /// The table that its shapes come from.
    pub fn table(&self) -> &ShapeTable
        ensures table { result.now ≡ self.now.shapes }
    {
        self.parts.frames.table
    }

    /// The shape of what is built.
    pub fn root(&self) -> ShapeId
        ensures root { result.0 ≡ self.now.root }
    {
        self.parts.frames.root
    }

    /// The path of the place at which the builder works.
    pub fn path(&self) -> &Path
        ensures path { result.now ≡ path_of self.now.state }
    {
        &self.parts.path
    }

    /// How many places are open: the one at which the builder works, and those above it.
    pub fn frame_count(&self) -> usize
        ensures count { result ≡ length (path_of self.now.state) + 1 }
    {
        law_paths();
        self.parts.frames.stack.len()
    }

    /// How many levels the place lies below the root.
    pub fn depth(&self) -> usize
        ensures depth { result ≡ length self.now.state.cursor }
    {
        self.parts.frames.stack.len() - 1
    }

    /// The mode.
    pub fn mode(&self) -> Mode
        ensures mode { mode_of result ≡ self.now.state.mode }
    {
        self.parts.frames.mode
    }

    /// The table, the shape of the place at which the builder works, and what was put there, in
    /// which a child that is stored isn't told, but of a map whether the last one is there.
    #[inline]
    pub fn place(&self) -> (&ShapeTable, ShapeId, &PartialValue)
        ensures seen { Sees self.now result.0.now result.1 (own_tree (body_of result.2.now)) }
        ensures last { is_map (tree_at_site self.now) ≡ true
            → lacks_last (body_of result.2.now) ≡ lacks_value (tree_at_site self.now) }
    {
        let (shape, partial) = place_here(self.parts.plan.core(), &self.parts.frames);
        (self.parts.frames.table, shape, partial)
    }

    /// From now on places that are left stay as they are. Takes no memory.
    pub fn defer(mut self) -> Work<'t>
        requires strict { self.state.mode ≡ strict }
        ensures state { begin_deferred self.entry.state ≡ Ok result.state }
        ensures shapes { result.shapes ≡ self.entry.shapes }
        ensures root { result.root ≡ self.entry.root }
        ensures plan { result.plan ≡ self.entry.plan }
    {
        match defer(&mut *self.parts) {
            Ok(()) => self,
            Err(_) => unreachable!(),
        }
    }

    /// Releases all. The path of the place at which the builder worked is left.
    pub fn release(self, ledger: &mut Ledger) -> Path
        requires room { Room (held_at self) ledger.old }
        ensures path { result ≡ path_of self.entry.state }
        ensures released { RoseBy (held_at self.entry) ledger.old ledger.new }
    {
        let Work { parts } = self;
        release(parts, ledger)
    }

    /// The error of a call that is refused before it changes anything: all is released.
    pub fn refuse(self, kind: ReflectErrorKind, ledger: &mut Ledger) -> ReflectError
        requires room { Room (held_at self) ledger.old }
        ensures kind { result.kind ≡ kind }
        ensures path { result.path ≡ path_of self.entry.state }
        ensures released { RoseBy (held_at self.entry) ledger.old ledger.new }
    {
        let path = self.release(ledger);
        ReflectError { kind, path }
    }

    /// Makes a move that some call comes to. Where it is refused, or there is no memory, all is
    /// released.
    #[inline(always)]
    pub fn make<H: Hooks>(
        mut self,
        hooks: &H,
        decided: Move,
        ledger: &mut Ledger,
    ) -> Result<Work<'t>, ReflectError>
        requires meant { IsMeant self decided }
        requires room { Room (λ t. held_at self t + carried decided t) ledger.old }
        ensures moved { IsMoved self.entry
            (meant_by (H.means hooks.now) self.entry decided.entry) result }
        ensures path { IfErr result (λ error. error.path ≡ path_of self.entry.state) }
        ensures tokens { Conserved (λ t. held_at self.entry t + carried decided.entry t) ledger.old
            (left_at result) ledger.new }
        ensures refused { is_late decided.entry ≡ false
            → IsErr (meant_by (H.means hooks.now) self.entry decided.entry)
            → PassesValidators (meant_by (H.means hooks.now) self.entry decided.entry)
            → IsNotOutOfMemory result }
        ensures memory { needs_none decided.entry (tree_at_site self.entry) ≡ true
            → IsNotOutOfMemory result }
        ensures message { needs_message_alone decided.entry (tree_at_site self.entry) ≡ true
            → PassesValidators (meant_by (H.means hooks.now) self.entry decided.entry)
            → IsNotOutOfMemory result }
    {
        match make(&mut *self.parts, hooks, decided, ledger) {
            Ok(()) => Ok(self),
            Err(kind) => {
                let Work { parts } = self;
                let path = release(parts, ledger);
                Err(ReflectError { kind, path })
            }
        }
    }
}
