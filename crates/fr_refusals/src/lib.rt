//! Why a call can't be made at a place, and as what the place is begun where it can: told by the
//! table, the place's shape and what was put there.
#![tactic(auto)]

mod arrays;
mod beginning;
mod choosing;
mod contents;
mod conversions;
mod dynamic_places;
mod field_defaults;
mod lists;
mod maps;
mod mode;
mod naming;
mod objects;
mod pointers;
mod sets;
mod setting;

pub use arrays::array_opening;
pub use beginning::{Beginning, beginning_in, beginning_of_inner, beginning_of_some, beginning_so};
pub use choosing::{Chosen, choose, enum_of, nth_variant};
pub use contents::{content_of, is_result};
pub use conversions::{
    by_proxy, by_wrapper, convert_in, is_conversion, proxy_at, proxy_of_field, source_in,
    source_tracker,
};
pub use dynamic_places::{DynamicParts, beginning_as, is_dynamic, tracker_with};
pub use field_defaults::default_in;
pub use lists::{init_list_refusal, item_opening};
pub use maps::{init_map_refusal, key_opening, value_opening};
pub use mode::Mode;
pub use objects::entry_refusal;
pub use pointers::{
    is_open_slice, keeps_items, pointer_refusal, points_to_slice, shared_slice_refusal,
};
pub use sets::{init_set_refusal, is_set, set_item_opening};
pub use setting::{converts, takes_shape};
