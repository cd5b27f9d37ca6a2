//! The documents of a program: the devices that they come from and go to, the JSON forms of values
//! and shapes, and what can be wrong with a document.
#![tactic(auto)]

mod adapters;
mod clean;
mod def_form;
mod details;
mod device;
mod doc_hooks;
mod dyn_form;
mod dyn_json;
mod fault;
mod field_form;
mod field_members;
mod integers;
mod json_parts;
mod laws;
mod looping;
mod members;
mod memory;
mod names;
mod numerals;
mod optional;
mod pieces;
mod proxy_form;
mod read_error;
mod schedule;
mod shape_form;
mod tag;
mod validator_form;
mod value_form;
mod value_json;
mod variant_form;

pub use adapters::{ReaderSource, WriterSink};
pub use clean::{CleanSink, CleanSource};
pub use details::{detail_of, name_of_shape};
pub use device::{Failed, Sink, Source};
pub use doc_hooks::{
    CHECK_IN_ORDER, CHECK_NEVER, CHECK_NO_NEGATIVE, CHECK_NO_ZERO, CONVERT_FIRST_CHILD,
    CONVERT_NEVER, CONVERT_NOT_ZERO, CONVERT_SAME, DocHooks, PARSE_BYTES_UTF8, PARSE_TEXT,
};
pub use dyn_form::bytes_of;
pub use fault::{DocFault, DocPlace, DocSize, ReadError};
pub use fr_shape::TableFault;
pub use laws::{law_doc_hooks, law_printed_float_free};
pub use looping::{DOCUMENT_LIMIT, INPUT_LIMIT, InputFault, read_input, write_report};
pub use members::{has_float, has_only};
pub use memory::{MemSink, MemSource};
pub use numerals::count_of;
pub use shape_form::{shape_of, shapes_of};
pub use value_form::value_of;
pub use value_json::json_of;
