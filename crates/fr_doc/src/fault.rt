//! What can be wrong with a document.
use crate::TableFault;

/// A part of a document whose form may be broken. Shapes and commands are counted from 0.
#[derive(Drop)]
pub enum DocPlace {
    Document,
    Shapes,
    Shape(u32),
    Root,
    Tokens,
    Commands,
    Command(u32),
}

/// What a document can have too much of.
#[derive(Clone, Copy, PartialEq, Eq)]
pub enum DocSize {
    Shapes,
    Fields,
    Commands,
    Tokens,
    Depth,
}

/// Why a document is refused. `Invalid` tells the first command that isn't valid, counted from 0.
#[derive(Drop)]
pub enum DocFault {
    TooLong,
    NotJson,
    HasFloat,
    BadForm(DocPlace),
    TooLarge(DocSize),
    Unchecked(TableFault),
    Invalid(u32),
}

/// Why a reading gave nothing: no memory was left, or what was read is at fault.
#[derive(Drop)]
pub enum ReadError<F = DocFault> {
    Memory,
    Fault(F),
}
