//! The values of the children of a place: side by side as they come, found by their contents, put
//! together into sets, maps and dynamic values, taken apart again, and made into dynamic ones.
#![tactic(auto)]

mod bases;
mod child_values;
mod children;
mod converting;
mod dynamics;
mod gathering;
mod key_places;
mod keys;
mod value_index;

pub use bases::Base;
pub use child_values::ChildValues;
pub use children::Children;
pub use converting::converted;
pub use dynamics::{array_of, elements_of, members_of, object_of};
pub use gathering::{distinct_items, merge_entries};
pub use keys::Keys;
