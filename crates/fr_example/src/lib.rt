//! The builder called from own code: a struct of one's own that typed calls fill, and that goes in
//! and comes out by its type; a record of texts out of pairs of a field's name and a text; a loader
//! of lines `key = value`; and a form whose fields are parsed, with every bad field named.
#![tactic(auto)]

mod form;
mod lead;
mod loader;
mod missing;
mod record;
mod server;
mod words;

pub use form::{BadField, FormError, submit};
pub use lead::{Unbuilt, build_server};
pub use loader::{LoadError, load};
pub use missing::missing_keys;
pub use record::{Pair, record_of};
pub use server::{Server, server_table};
pub use words::write_kind;
