//! Tests of whole documents: each is run from its bytes to its report, as a user's crate runs it.
#![tactic(auto)]

#[cfg(test)]
mod collection_tests;
#[cfg(test)]
mod content_tests;
#[cfg(test)]
mod deferred_tests;
#[cfg(test)]
mod document_tests;
#[cfg(test)]
mod documents;
#[cfg(test)]
mod dynamic_refusal_tests;
#[cfg(test)]
mod dynamic_tests;
#[cfg(test)]
mod invariant_tests;
#[cfg(test)]
mod limit_tests;
#[cfg(test)]
mod list_tests;
#[cfg(test)]
mod original_list_tests;
#[cfg(test)]
mod original_tests;
#[cfg(test)]
mod plan_tests;
#[cfg(test)]
mod row_tests;
#[cfg(test)]
mod run_tests;
#[cfg(test)]
mod summary_tests;
#[cfg(test)]
mod text_tests;
#[cfg(test)]
mod variant_tests;
