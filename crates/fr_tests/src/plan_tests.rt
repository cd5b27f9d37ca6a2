//! Plans: those of large tables, and what one tells of a type.
mod large;
mod lookups;
