//! Documents of types and calls: reads them, builds the value that they ask for, and reports what
//! comes of it.
#![tactic(auto)]

mod answering;
mod building;
mod command_form;
mod document;
mod document_laws;
mod generating;
mod marking;
mod members;
mod plan_answer;
mod plan_report;
mod planning;
mod released;
mod report;
mod running;
mod serving;
mod sizes;
mod steps;
mod subcommand;
mod summary;
mod validity;

pub use answering::Answer;
pub use building::{ScriptError, build_script};
pub use document::{Document, read_document};
pub use document_laws::{
    law_documents_in_order, law_generated_scripts, law_successes, law_valid_scripts,
};
pub use fr_doc::{
    CleanSink, CleanSource, DOCUMENT_LIMIT, DocFault, DocPlace, DocSize, Failed, MemSink,
    MemSource, ReadError, ReaderSource, Sink, Source, TableFault, WriterSink,
};
pub use fr_model::{Command, Script};
pub use generating::STEP_LIMIT;
pub use plan_answer::PlanAnswer;
pub use planning::plan_document;
pub use running::run;
pub use serving::answer;
pub use sizes::{COMMAND_LIMIT, DEPTH_LIMIT, PART_LIMIT, SHAPE_LIMIT, TOKEN_LIMIT};
pub use subcommand::Subcommand;
pub use validity::{ScriptFault, is_valid_script};
