//! The two errors of calls that find no memory.
ghost use Rattle.std.specs.Prelude.{◌≡◌};

use std::alloc::{AllocError, AllocFailed};

/// There was no memory for what the call needed.
#[derive(Drop)]
pub struct OutOfMemory;

impl From<AllocError> for OutOfMemory {
    fn from(_error: AllocError) -> OutOfMemory {
        OutOfMemory
    }
}

/// There was no memory for this value, which comes back to the caller.
#[derive(Drop)]
pub struct NotPushed<T>(pub T);

impl<T> From<AllocFailed<T>> for NotPushed<T> {
    ghost from_gives = { λ failed refused. refused.0 ≡ failed.value };

    fn from(failed: AllocFailed<T>) -> NotPushed<T> {
        NotPushed(failed.value)
    }
}
