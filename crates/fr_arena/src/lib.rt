//! Storage that the builder stands on: arenas with typed indices, bit sets, and ropes of fixed
//! chunks.
//!
//! Each part is generic in its elements and is seen by contracts as plain data: an arena as the
//! list of its values, an index as a number, a bit set as the finite set of its indices with a
//! capacity, and a rope as the list of its items with a count of those that are marked.
#![tactic(auto)]

mod arenas;
mod bit_sets;
mod indices;
mod refusals;
mod ropes;

pub use arenas::{Arena, ArenaIter};
pub use bit_sets::ISet;
pub use indices::{Idx, SliceRange};
pub use refusals::{NotPushed, OutOfMemory};
pub use ropes::{ListRope, RopeItems, RopeIter};
