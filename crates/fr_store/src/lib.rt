//! The places at which a builder works: the stack of their slots, and the moves from one place to
//! the next.
#![tactic(auto)]

mod ascending;
mod beneath;
mod converting;
mod descending;
mod finishing;
mod listing;
mod pruning;
mod reforming;
mod restarting;
mod setting;
mod spreading;
mod stack;
mod store;
mod turning;
mod walk_order;

pub use stack::Stack;
pub use store::FrameStore;
