//! Rust types as shapes of a table: which shape is a type's own, and the way from an element of the
//! type to a value of that shape and back.
#![tactic(auto)]

mod contents;
mod facet;
mod finding;
mod integers;
mod lists;
mod naturals;
mod opaque;
mod releasing;
mod scalars;
mod structs;

pub use facet::{Facet, FacetFault, law_facet};
pub use opaque::Opaque;
pub use structs::{Parts, find_struct, parts_of, product_of};
