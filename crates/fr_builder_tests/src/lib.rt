//! Tests of the builder and the hooks that it asks, over public calls alone, as a user's crate makes
//! them.
#![tactic(auto)]

#[cfg(test)]
mod builder_tests;
