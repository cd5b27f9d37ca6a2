//! What the builder means: its commands, and the definitions and laws that all contracts above
//! cite.
#![tactic(auto)]

mod command;
mod laws;

pub use command::{Command, Script};
pub use laws::{
    law_agree, law_closing, law_completes, law_default, law_failing, law_finishing, law_gathering,
    law_paths, law_removed, law_well,
};
