//! Tests of whole documents whose hooks are asked: parses, validators, invariants and conversions;
//! and of scripts by hooks of one's own.
#![tactic(auto)]

#[cfg(test)]
mod hook_tests;
