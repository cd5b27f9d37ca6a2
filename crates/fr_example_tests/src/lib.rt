//! Tests of the examples, as a user of them makes their calls.
#![tactic(auto)]

#[cfg(test)]
mod example_tests;
