//! What becomes a reading's error: that it is out of memory, and a broken form.
ghost use Rattle.std.specs.Prelude.{◌≡◌};
ghost use Rattle.fr_doc.specs.declared.fault.ReadError.{ReadError};

use crate::fault::ReadError;
use fr_shape::{NotPushed, OutOfMemory};
use std::alloc::{AllocError, AllocFailed};

/// A form is broken. The place of the document is told by whoever reads the whole of it.
#[derive(Clone, Copy)]
pub struct Broken;

/// Why the reading of a form gave nothing.
pub type FormError = ReadError<Broken>;

impl From<Broken> for ReadError<Broken> {
    ghost from_gives = { λ broken e. e ≡ ReadError.Fault broken };

    fn from(broken: Broken) -> ReadError<Broken> {
        ReadError::Fault(broken)
    }
}

impl<F> From<AllocError> for ReadError<F> {
    ghost from_gives = { λ _ e. e ≡ ReadError.Memory };

    fn from(_error: AllocError) -> ReadError<F> {
        ReadError::Memory
    }
}

impl<F> From<OutOfMemory> for ReadError<F> {
    ghost from_gives = { λ _ e. e ≡ ReadError.Memory };

    fn from(_error: OutOfMemory) -> ReadError<F> {
        ReadError::Memory
    }
}

impl<T: Drop, F> From<NotPushed<T>> for ReadError<F> {
    ghost from_gives = { λ _ e. e ≡ ReadError.Memory };

    fn from(_error: NotPushed<T>) -> ReadError<F> {
        ReadError::Memory
    }
}

impl<T: Drop, F> From<AllocFailed<T>> for ReadError<F> {
    ghost from_gives = { λ _ e. e ≡ ReadError.Memory };

    fn from(_error: AllocFailed<T>) -> ReadError<F> {
        ReadError::Memory
    }
}
