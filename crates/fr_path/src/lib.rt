//! Paths from a root to a place: their steps, the order in which places are walked, and their text.
//!
//! A path is seen by contracts as the list of its steps. Its text names fields as long as the
//! shapes on the way are known.
#![tactic(auto)]

mod laws;
mod path_steps;
mod path_text;
mod paths;
mod step_shapes;

pub use laws::{law_longer_path_first, law_pop_undoes_push, law_walk_order};
pub use path_steps::PathStep;
pub use paths::Path;
