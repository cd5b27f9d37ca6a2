//! What a builder tells of itself.
ghost use Rattle.fr_partial.specs.Common.{IfOk, IfSome, length, path_of, strict};
ghost use Rattle.std.specs.Prelude.{◌↔◌, IsNone, IsTrue, ◌+◌, ◌≡◌, ◌≢◌};
ghost use Rattle.fr_partial.specs.Builder.{here};

use crate::{Partial, ReflectError};
use fr_moves::copy_path;
use fr_path::Path;
use fr_refusals::Mode;
use fr_shape::{Hooks, OutOfMemory, ReflectErrorKind, ShapeId, ShapeTable};

impl<'t, H: Hooks> Partial<'t, H> {
    /// The path of the place at which it works.
    pub fn path(&self) -> &Path
        ensures path { result.now ≡ path_of self.now.state }
    {
        self.work.path()
    }

    /// Whether the builder is in deferred mode.
    pub fn is_deferred(&self) -> bool
        ensures mode { IsTrue result ↔ (self.now.state.mode ≢ strict) }
    {
        self.work.mode() != Mode::Strict
    }

    /// The path of the place at which it works, in deferred mode alone.
    pub fn current_path(&self) -> Option<&Path>
        ensures path { IfSome result (λ path. path.now ≡ path_of self.now.state) }
        ensures strict { IsNone result ↔ (self.now.state.mode ≡ strict) }
    {
        match self.work.mode() {
            Mode::Strict => None,
            Mode::Deferred(_) => Some(self.work.path()),
        }
    }

    /// How many places are open: the one at which it works, and those above it.
    pub fn frame_count(&self) -> usize
        ensures count { result ≡ length (path_of self.now.state) + 1 }
    {
        self.work.frame_count()
    }

    /// The shape of the place at which it works.
    pub fn shape(&self) -> ShapeId
        ensures shape { result.0 ≡ here self.now }
    {
        self.work.place().1
    }

    /// The table whose shapes it builds.
    pub fn table(&self) -> &ShapeTable
        ensures table { result.now ≡ self.now.shapes }
    {
        self.work.table()
    }

    /// The shape of what it builds.
    pub fn root_shape(&self) -> ShapeId
        ensures root { result.0 ≡ self.now.root }
    {
        self.work.root()
    }

    /// An error of this kind at the place at which it works, for a caller who refuses something
    /// there.
    pub fn err(&self, kind: ReflectErrorKind) -> Result<ReflectError, OutOfMemory>
        ensures kind { IfOk result (λ error. error.kind ≡ kind) }
        ensures path { IfOk result (λ error. error.path ≡ path_of self.now.state) }
    {
        let path = copy_path(self.work.alloc(), self.work.path())?;
        Ok(ReflectError { kind, path })
    }
}
