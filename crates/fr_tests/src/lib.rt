//! Tests of what the builder stands on, over public calls alone, as a user's crate makes them:
//! arenas, paths, tables of shapes, Rust types in them, their lookups, validators and plans, the places
//! of a value by themselves, their slots, forms and devices.
#![tactic(auto)]

#[cfg(test)]
mod arena_tests;
#[cfg(test)]
mod facet_tests;
#[cfg(test)]
mod form_tests;
#[cfg(test)]
mod lookup_tests;
#[cfg(test)]
mod path_tests;
#[cfg(test)]
mod place_tests;
#[cfg(test)]
mod plan_tests;
#[cfg(test)]
mod slot_tests;
#[cfg(test)]
mod table_tests;
#[cfg(test)]
mod texts;
#[cfg(test)]
mod validator_tests;
