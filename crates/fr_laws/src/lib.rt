//! Laws of what the builder means that no contract above cites: strict and deferred mode compared,
//! excursions swapped, the journal by the rules on covering notes, and scripts computed through.
#![tactic(auto)]

mod laws;

pub use laws::{law_covering, law_examples, law_passage, law_swap};
