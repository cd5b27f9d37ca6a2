//! What a builder works with: what each call comes to at the place where it works, and what is told of
//! that place.
#![tactic(auto)]

mod above;
mod array_moves;
mod building;
mod built;
mod choosing;
mod ending_moves;
mod field_moves;
mod field_set;
mod first_place;
mod initialized_here;
mod inner_moves;
mod list_moves;
mod map_moves;
mod nearest;
mod object_moves;
mod option_moves;
mod parse_moves;
mod place_view;
mod plan_parts;
mod pointer_moves;
mod proxy_moves;
mod reflect_error;
mod result_moves;
mod set_item_moves;
mod set_moves;
mod sources;
mod told_place;
mod variant_moves;
mod variants_here;
mod work;

pub use built::Built;
pub use parse_moves::ParseInput;
pub use place_view::PlaceView;
pub use reflect_error::ReflectError;
pub use work::Work;
