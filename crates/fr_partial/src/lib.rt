//! `Partial`: a builder of a value of a type known at run time, one call at a time.
#![tactic(auto)]

mod arrays;
mod eenum;
mod field_readings;
mod fields;
mod functions;
mod initialized;
mod inner;
mod lists;
mod maps;
mod misc;
mod objects;
mod option;
mod parse;
mod partial;
mod plan_readings;
mod proxies;
mod ptr;
mod queries;
mod reading_as;
mod readings;
mod result;
mod set;
mod sets;
mod shorthands;
mod starting;
mod tokenless;
mod type_plan;
mod typed;

pub use fr_facet::{Facet, FacetFault, Opaque};
pub use fr_work::{Built, PlaceView, ReflectError};
pub use partial::Partial;
pub use type_plan::TypePlan;
pub use typed::materialize;
