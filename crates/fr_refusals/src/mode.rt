//! The mode of a builder.

/// How a builder works: in strict mode, where a place is completed as it is left; or in deferred
/// mode, where it is left as it is, since the place at which the builder worked lay so many levels
/// below the root.
#[derive(Clone, Copy, PartialEq, Eq)]
pub enum Mode {
    Strict,
    Deferred(usize),
}
