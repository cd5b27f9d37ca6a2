//! What plans and the builder take from the descriptions of shapes: lookups of fields and variants
//! by their names, what fills the holes of structs, and the tests of fields' values.
#![tactic(auto)]

mod buckets;
mod entries;
mod field_lookups;
mod fills;
mod messages;
mod numbers;
mod pools;
mod prefixes;
mod validators;
mod variant_lookups;

pub use buckets::PrefixBucket;
pub use entries::{FieldLookupEntry, LOOKUP_THRESHOLD};
pub use field_lookups::{FieldLookup, build_field_lookup, law_lookups_stay};
pub use fills::{DeferredFill, FieldDefault, FillRule, deferred_fill, determine_fill_rule};
pub use pools::LookupPool;
pub use validators::{PrecomputedValidator, ValidatorKind};
pub use variant_lookups::{VariantLookup, build_variant_lookup};
