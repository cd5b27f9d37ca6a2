//! Calls of the builder with ample memory and hooks of one's own, and whole builds; then what it tells
//! of itself, and calls by Rust types.
mod bench;
mod calls;
mod contents;
mod deferring;
mod grounds;
mod hooked;
mod in_code;
mod lists;
mod paths;
mod read_as;
mod readings;
mod sets;
mod structs;
mod typed;
