//! Making a move, whichever it is, where a builder's parts are: what a call comes to, once it is
//! decided, and what becomes of the places by it.
#![tactic(auto)]

mod beginning;
mod converting;
mod deferring;
mod dynamic_places;
mod ending;
mod going;
mod held_plan;
mod kept_path;
mod making;
mod moves;
mod opening;
mod parts;
mod placing;
mod putting;
mod slices;
mod staying;

pub use deferring::defer;
pub use ending::take_root;
pub use held_plan::HeldPlan;
pub use kept_path::copy_path;
pub use making::make;
pub use moves::{Change, Move, Rules, Way, child_way};
pub use parts::{Frames, Parts};
pub use placing::place_here;
